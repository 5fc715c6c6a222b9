// Runs one command to its end in one call of the host.
ghost use Rattle.std.specs.Prelude.{◌≡◌, ◌++◌, ◌∷◌, [], ◌||◌, ◌&&◌, IfOk, OnOk, map, true};
ghost use Rattle.std.specs.Option.{option_copied};
ghost use Rattle.cc_text.specs.Words.{when};
ghost use Rattle.cc_host.specs.Call.{part};
ghost use Rattle.cc_host.specs.declared.event.OutputKind.TheVariants.{Capture};
ghost use Rattle.cc_host.specs.Status.{is_success};
ghost use Rattle.cc_run.specs.Lines.{warnings};
ghost use Rattle.cc_run.specs.Messages.{failed_told, warned_of};
ghost use Rattle.cc_run.specs.Output.{IsOutput, IsOutputBy, IsSilentRun, behind_by, map_warnings};
ghost use Rattle.cc_run.specs.Texts.{debug_line, ended_text};

use crate::error::start_error;
use crate::messages::{push_failed, push_warned};
use crate::print::{Notice, print_all};
use crate::texts::{announced, ended_line, push_lines};
use crate::{Planned, RunError, Shows, stderr_warnings};
use cc_host::{Command, Host, LineKind, OutputKind, Pipes, Ran, Status, World};
use cc_text::{Bytes, Mem};
use std::alloc::Global;

// What is done with the outputs of a command: where its standard output goes, whether the warnings of its standard
// error are printed where it failed too, and which line of them isn't.
#[derive(Clone, Copy)]
struct Outputs<'a> {
    out: OutputKind,
    always: bool,
    ignored: Option<&'a [u8]>,
}

// Whether the warnings of a command that ended so are given.
fn is_heard(always: bool, status: Status) -> bool
    ensures { result ≡ (always || is_success status) }
{
    always || status.is_success()
}

// Adds the warnings of a standard error as lines, where they are given and shown.
fn push_shown(
    shows: &Shows,
    heard: bool,
    ignored: Option<&[u8]>,
    stderr: &[u8],
    lines: &mut Vec<Notice>,
) -> Mem<()>
    ensures { OnOk result (lines.new.items ≡ lines.old.items
        ++ when (shows.now.warnings && heard)
        (map_warnings (option_copied ignored.entry) stderr.now)) }
{
    if shows.warnings && heard {
        let texts = stderr_warnings(*lines.allocator(), stderr, ignored)?;
        push_lines(LineKind::Warning, &texts, lines)?;
    }
    Ok(())
}

// Adds them as messages, where they are given and the host listens.
fn push_said(
    shows: &Shows,
    heard: bool,
    cmd: &Command,
    ignored: Option<&[u8]>,
    stderr: &[u8],
    lines: &mut Vec<Notice>,
) -> Mem<()>
    ensures { OnOk result (lines.new.items ≡ lines.old.items
        ++ when (shows.now.listens && heard)
        (map (warned_of cmd.now) (warnings (option_copied ignored.entry) stderr.now))) }
{
    if shows.listens && heard {
        let texts = stderr_warnings(*lines.allocator(), stderr, ignored)?;
        push_warned(cmd, &texts, lines)?;
    }
    Ok(())
}

// Adds how a command ended, where that is shown.
fn push_status(shows: &Shows, status: Status, lines: &mut Vec<Notice>) -> Mem<()>
    ensures { OnOk result (lines.new.items ≡ lines.old.items
        ++ when shows.now.debug (debug_line (ended_text status) ∷ [])) }
{
    if shows.debug {
        let line = ended_line(*lines.allocator(), status)?;
        lines.push(line)?;
    }
    Ok(())
}

// Adds the message of a failure, where that is told.
fn push_failure(
    shows: &Shows,
    always: bool,
    status: Status,
    cmd: &Command,
    lines: &mut Vec<Notice>,
) -> Mem<()>
    ensures { OnOk result (lines.new.items ≡ lines.old.items
        ++ when always (failed_told shows.now status cmd.now)) }
{
    if always {
        push_failed(shows, status, cmd, lines)?;
    }
    Ok(())
}

// What comes behind a command: the warnings of its standard error, how it ended, and the messages of both.
#[tactic(auto, unfolding(crate::specs::Output::behind))]
fn lines_behind(
    alloc: Global,
    shows: &Shows,
    cmd: &Command,
    outputs: Outputs<'_>,
    status: Status,
    stderr: &[u8],
) -> Mem<Vec<Notice>>
    ensures { IfOk result (λ lines.
        lines.items ≡ behind_by shows.now cmd.now outputs.entry status stderr.now) }
{
    let heard = is_heard(outputs.always, status);
    let mut lines = Vec::new(alloc);
    push_shown(shows, heard, outputs.ignored, stderr, &mut lines)?;
    push_said(shows, heard, cmd, outputs.ignored, stderr, &mut lines)?;
    push_status(shows, status, &mut lines)?;
    push_failure(shows, outputs.always, status, cmd, &mut lines)?;
    Ok(lines)
}

// Runs the command, and prints the lines before and behind it.
#[tactic(auto, using(cc_host::proofs::Parts::since_append))]
fn run_whole<W: World, H: Host<W>>(
    alloc: Global,
    host: &mut H,
    planned: &Planned,
    shows: &Shows,
    outputs: Outputs<'_>,
) -> Result<Bytes, RunError>
    ensures extends { H.log host.new ≡ H.log host.old ++ part H.log host.old host.new }
    ensures patient { H.patience host.new ≡ H.patience host.old }
    ensures part { IsOutputBy shows.now planned.now outputs.entry result
        (part H.log host.old host.new) }
{
    let pipes = Pipes {
        out: outputs.out,
        hear: shows.warnings || shows.listens,
    };
    let before = announced(alloc, shows, &planned.cmd)?;
    match print_all(host, &before) {
        Ok(()) => {}
        Err(e) => return Err(e),
    }
    match host.output(planned.role, &planned.cmd, pipes) {
        Ok(Ran::Missing) => Err(RunError::ToolNotFound(0)),
        Ok(Ran::Done { status, out, err }) => {
            let behind = lines_behind(alloc, shows, &planned.cmd, outputs, status, err.as_slice());
            let Ok(lines) = behind else {
                return Err(RunError::NoMemory);
            };
            match print_all(host, &lines) {
                Ok(()) => {}
                Err(e) => return Err(e),
            }
            if status.is_success() {
                Ok(out)
            } else {
                Err(RunError::Failed(0, status))
            }
        }
        Err(e) => Err(start_error(e, 0)),
    }
}

/// Runs a command to its end in one call of the host, with its standard output discarded. Printed are, as `shows` says,
/// a line before it, the warnings of its standard error where it ended with 0, and then its status. To a host that
/// listens these warnings are said too, also where none are shown.
///
/// Refused are a missing program, a fault of the host, another status than 0 and want of memory, each with place 0. A
/// refused line, message or memory leaves the first of these.
pub fn run_silent<W: World, H: Host<W>>(
    alloc: Global,
    host: &mut H,
    cmd: &Planned,
    shows: &Shows,
) -> Result<(), RunError>
    ensures extends { H.log host.new ≡ H.log host.old ++ part H.log host.old host.new }
    ensures patient { H.patience host.new ≡ H.patience host.old }
    ensures part { IsSilentRun shows.now cmd.now result (part H.log host.old host.new) }
{
    let outputs = Outputs {
        out: OutputKind::Discard,
        always: false,
        ignored: None,
    };
    match run_whole(alloc, host, cmd, shows, outputs) {
        Ok(_) => Ok(()),
        Err(e) => Err(e),
    }
}

/// Runs a command to its end in one call of the host, and gives all bytes of its standard output. Printed are, as
/// `shows` says, a line before it, the warnings of its standard error however it ended, without the ignored line, and
/// then its status. To a host that listens these warnings are said too, and a failure. `ignored` is for a compiler that
/// names each source on its standard error, as Visual Studio's does.
///
/// It is refused as `run_silent` is; its output is then lost.
pub fn run_output<W: World, H: Host<W>>(
    alloc: Global,
    host: &mut H,
    cmd: &Planned,
    shows: &Shows,
    ignored: Option<&[u8]>,
) -> Result<Bytes, RunError>
    ensures extends { H.log host.new ≡ H.log host.old ++ part H.log host.old host.new }
    ensures patient { H.patience host.new ≡ H.patience host.old }
    ensures part { IsOutput shows.now cmd.now Capture true (option_copied ignored.entry) result
        (part H.log host.old host.new) }
{
    let outputs = Outputs {
        out: OutputKind::Capture,
        always: true,
        ignored,
    };
    run_whole(alloc, host, cmd, shows, outputs)
}
