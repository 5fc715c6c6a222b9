// The lines that a run prints.
ghost use Rattle.std.specs.Prelude.{◌≡◌, ◌++◌, [], IfOk, OnOk, map, string_bytes};
ghost use Rattle.std.specs.Fmt.{signed_decimal};
ghost use Rattle.cc_run.specs.Texts.{cargo_line, debug_line, ended_text, end_in_brackets, failed_text, failed_line, announced, unread_text};

use crate::Shows;
use crate::print::Notice;
use cc_host::{Command, LineKind, Status, command_line};
use cc_text::{Bytes, Mem, Text};
use std::alloc::{AllocError, Global};

// A line for Cargo, which shows it as a warning.
pub(crate) fn cargo_line(alloc: Global, kind: LineKind, text: &[u8]) -> Mem<Notice>
    ensures { IfOk result (λ line. line ≡ cargo_line kind text.now) }
{
    let mut bytes = Vec::from_slice(alloc, b"cargo:warning=")?;
    bytes.extend_from_slice(text)?;
    bytes.push(b'\n')?;
    Ok(Notice::Shown {
        kind,
        bytes: Bytes::owning(bytes),
    })
}

// The warning of a standard error that failed to be read.
pub(crate) fn unread_text() -> &'static str
    ensures { result.now ≡ unread_text }
{
    "Failed to read from child stderr"
}

// Adds each of these texts as such a line.
pub(crate) fn push_lines(kind: LineKind, texts: &[Bytes], lines: &mut Vec<Notice>) -> Mem<()>
    ensures { OnOk result (lines.new.items ≡ lines.old.items ++ map (cargo_line kind) texts.now) }
{
    let alloc = *lines.allocator();
    for text in texts {
        lines.push(cargo_line(alloc, kind, text.as_slice())?)?;
    }
    Ok(())
}

// A line for debugging.
fn debug_line(alloc: Global, text: &[u8]) -> Mem<Notice>
    ensures { IfOk result (λ line. line ≡ debug_line text.now) }
{
    let mut bytes = Vec::from_slice(alloc, text)?;
    bytes.push(b'\n')?;
    Ok(Notice::Shown {
        kind: LineKind::Debug,
        bytes: Bytes::owning(bytes),
    })
}

// The line before a command, where it is wanted.
#[tactic(auto, unfolding(crate::specs::Texts::announced))]
pub(crate) fn announced(alloc: Global, shows: &Shows, cmd: &Command) -> Mem<Vec<Notice>>
    ensures { IfOk result (λ lines. lines.items ≡ announced shows.now cmd.now) }
{
    let mut lines = Vec::new(alloc);
    if shows.debug {
        let mut text = Text::of(alloc, "running: ")?;
        text.push_str(command_line(alloc, cmd)?.as_str())?;
        lines.push(debug_line(alloc, text.as_str().as_bytes())?)?;
    }
    Ok(lines)
}

fn decimal(alloc: Global, n: i32) -> Result<String, AllocError>
    ensures { IfOk result (λ s. string_bytes s ≡ signed_decimal n) }
{
    format!(in alloc; "{n}")
}

#[tactic(auto, unfolding(crate::specs::Texts::ended_text))]
fn ended_text(alloc: Global, status: Status) -> Mem<Text>
    ensures { IfOk result (λ text. text ≡ ended_text status) }
{
    match status {
        Status::Code(n) => {
            let number = decimal(alloc, n)?;
            let mut text = Text::of(alloc, "exit status: ")?;
            text.push_str(number.as_str())?;
            Ok(text)
        }
        Status::NoCode => Text::of(alloc, "ended without a status"),
    }
}

// The line after a command.
pub(crate) fn ended_line(alloc: Global, status: Status) -> Mem<Notice>
    ensures { IfOk result (λ line. line ≡ debug_line (ended_text status)) }
{
    let text = ended_text(alloc, status)?;
    debug_line(alloc, text.as_str().as_bytes())
}

fn end_in_brackets(alloc: Global, status: Status) -> Mem<Text>
    ensures { IfOk result (λ text. text ≡ end_in_brackets status) }
{
    let end = ended_text(alloc, status)?;
    let front = match status {
        Status::Code(_) => "(status code ",
        Status::NoCode => "(",
    };
    let mut text = Text::of(alloc, front)?;
    text.push_str(end.as_str())?;
    text.push_str(")")?;
    Ok(text)
}

/// The message of a command that ended with another status than 0: how it ended, and its line as `command_line` quotes
/// it. The words are those of the crate `cc`.
#[tactic(auto, unfolding(crate::specs::Texts::failed_text))]
pub fn failed_text(alloc: Global, status: Status, cmd: &Command) -> Mem<Text>
    ensures { IfOk result (λ text. text ≡ failed_text status cmd.now) }
{
    let end = end_in_brackets(alloc, status)?;
    let line = command_line(alloc, cmd)?;
    let mut message = Text::of(alloc, "command did not execute successfully ")?;
    message.push_str(end.as_str())?;
    message.push_str(": ")?;
    message.push_str(line.as_str())?;
    Ok(message)
}

// The warning of a command that failed among others.
#[tactic(auto, unfolding(crate::specs::Texts::failed_line))]
pub(crate) fn failed_line(alloc: Global, status: Status, cmd: &Command) -> Mem<Notice>
    ensures { IfOk result (λ line. line ≡ failed_line status cmd.now) }
{
    let message = failed_text(alloc, status, cmd)?;
    let mut text = Text::of(alloc, "ToolExecError: ")?;
    text.push_str(message.as_str())?;
    cargo_line(alloc, LineKind::Warning, text.as_str().as_bytes())
}
