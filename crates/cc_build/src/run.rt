// What the stages of a run ask of a host.
ghost use Rattle.std.specs.Prelude.{◌≡◌, ◌+◌, ◌<◌, ◌^◌, [], ◌∷◌, IfOk};
ghost use Rattle.cc_host.specs.Call.{part};
ghost use Rattle.cc_host.specs.Part.Step.{Makes, Removes, Writes, Copies, Prints, Says, Lists};
ghost use Rattle.cc_host.specs.declared.event.Event.TheVariants.{Listed};
ghost use Rattle.cc_host.specs.declared.event.Scope.TheVariants.{Build};
ghost use Rattle.cc_plan.specs.Link.{printed_line as line_of};
ghost use Rattle.cc_run.specs.Keeping.{IsIdle};
ghost use Rattle.cc_build.specs.Course.{OnCourse, DoesAlone, Does, CallsEnd};
ghost use Rattle.cc_build.specs.Kept.{Aside};
ghost use Rattle.cc_build.specs.Phases.{TryEnds};
ghost use Rattle.cc_build.specs.Stage.{planned};
ghost use Rattle.cc_build.specs.Stage.Stage.{RunsOne, RunsAll};
ghost use Rattle.cc_build.specs.Went.{is_refusal as is_refusal_of};

use crate::Error;
use crate::message::{host_error, or_no_memory};
use crate::reporting::Reporting;
use cc_host::{Command, Host, LineKind, Message, Role, Scope, World};
use cc_jobs::Jobs;
use cc_plan::printed_line;
use cc_run::{Planned, RunError, Turns, run_all, run_one, run_silent};
use cc_text::{Mem, Vars};
use std::alloc::Global;
use std::slice;

// These commands, in a role, to be run.
pub(crate) fn planned(alloc: Global, role: Role, cmds: Vec<Command>) -> Mem<Vec<Planned>>
    ensures { IfOk result (λ ps. ps.items ≡ planned role cmds.items) }
{
    let planned = cmds
        .into_iter()
        .map(|cmd| Planned {
            role,
            cmd,
            message: None,
        })
        .collect(alloc)?;
    Ok(planned)
}

/// Runs a command alone.
#[tactic(auto, using(cc_host::proofs::Parts::since_append))]
pub(crate) fn run_alone<W: World, H: Host<W>>(
    reporting: Reporting,
    host: &mut H,
    turns: &mut Turns,
    cmd: &Planned,
) -> Result<(), Error>
    requires few { turns.old.left + turns.old.used < 2 ^ 64 }
    ensures aside { Aside H.log H.patience host.old host.new }
    ensures sum { turns.new.left + turns.new.used ≡ turns.old.left + turns.old.used }
    ensures outcome { DoesAlone H.log H.patience turns.old.left turns.new.left host.old host.new
        reporting.shows (RunsOne cmd.now ∷ []) result }
{
    // (where the host tells its patience it is at least 1: a law of the log that is lent)
    let _least = host.log();
    match run_one(reporting.alloc, host, turns, cmd, &reporting.shows) {
        Ok(()) => Ok(()),
        Err(e) => Err(Error::of_run(reporting.alloc, e, slice::from_ref(cmd))),
    }
}

// The command is missing, or it ended with another status than 0.
fn is_refusal(e: RunError) -> bool
    ensures { result ≡ is_refusal_of e }
{
    matches!(e, RunError::ToolNotFound(_) | RunError::Failed(_, _))
}

/// Tries a command: runs it to its end, without a turn. Whether it was refused: its program is missing, or it ended
/// with another status than 0.
#[tactic(auto, using(cc_host::proofs::Parts::since_append))]
pub(crate) fn try_form<W: World, H: Host<W>>(
    reporting: Reporting,
    host: &mut H,
    cmd: &Planned,
) -> Result<bool, Error>
    ensures aside { Aside H.log H.patience host.old host.new }
    ensures outcome { TryEnds reporting.shows cmd.now result (part H.log host.old host.new) }
{
    match run_silent(reporting.alloc, host, cmd, &reporting.shows) {
        Ok(()) => Ok(false),
        Err(e) => {
            if is_refusal(e) {
                Ok(true)
            } else {
                Err(Error::of_run(reporting.alloc, e, slice::from_ref(cmd)))
            }
        }
    }
}

/// Runs commands beside each other, each under a token.
#[tactic(auto, using(cc_host::proofs::Parts::since_append))]
pub(crate) fn run_together<W: World, H: Host<W>, J: Jobs>(
    reporting: Reporting,
    host: &mut H,
    jobs: &J,
    seat: &mut J::Seat,
    turns: &mut Turns,
    cmds: &[Planned],
) -> Result<(), Error>
    requires idle { IsIdle J.fits J.held jobs.now seat.old }
    requires few { turns.old.left + turns.old.used < 2 ^ 64 }
    ensures idle { IsIdle J.fits J.held jobs.now seat.new }
    ensures total { J.total seat.new ≡ J.total seat.old }
    ensures aside { Aside H.log H.patience host.old host.new }
    ensures sum { turns.new.left + turns.new.used ≡ turns.old.left + turns.old.used }
    ensures outcome { OnCourse H.log H.patience J.total J.faults J.taken J.load
        turns.old.left turns.new.left
        host.old host.new seat.old seat.new
        (Does reporting.shows (RunsAll cmds.now ∷ []) result) }
{
    let Reporting { alloc, shows } = reporting;
    // (where the host tells its patience it is at least 1: a law of the log that is lent)
    let _least = host.log();
    match run_all(alloc, host, jobs, seat, turns, cmds, &shows) {
        Ok(()) => Ok(()),
        Err(e) => Err(Error::of_run(alloc, e, cmds)),
    }
}

/// Makes the folder of the objects.
#[tactic(auto, using(cc_host::proofs::Parts::since_append))]
pub(crate) fn make_folder<W: World, H: Host<W>>(
    alloc: Global,
    host: &mut H,
    path: &str,
) -> Result<(), Error>
    ensures aside { Aside H.log H.patience host.old host.new }
    ensures outcome { CallsEnd (Makes Build path.now ∷ []) (part H.log host.old host.new) result }
{
    match host.make_dir(Scope::Build, path) {
        Ok(()) => Ok(()),
        Err(error) => Err(or_no_memory(host_error(alloc, error, path))),
    }
}

/// Removes an old library, if there is one.
#[tactic(auto, using(cc_host::proofs::Parts::since_append))]
pub(crate) fn remove_library<W: World, H: Host<W>>(
    alloc: Global,
    host: &mut H,
    path: &str,
) -> Result<(), Error>
    ensures aside { Aside H.log H.patience host.old host.new }
    ensures outcome { CallsEnd (Removes path.now ∷ []) (part H.log host.old host.new) result }
{
    match host.remove_file(path) {
        Ok(_) => Ok(()),
        Err(error) => Err(or_no_memory(host_error(alloc, error, path))),
    }
}

/// Copies the library.
#[tactic(auto, using(cc_host::proofs::Parts::since_append))]
pub(crate) fn copy_library<W: World, H: Host<W>>(
    alloc: Global,
    host: &mut H,
    from: &str,
    to: &str,
) -> Result<(), Error>
    ensures aside { Aside H.log H.patience host.old host.new }
    ensures outcome { CallsEnd (Copies from.now to.now ∷ [])
        (part H.log host.old host.new) result }
{
    match host.copy_file(from, to) {
        Ok(()) => Ok(()),
        Err(error) => Err(or_no_memory(host_error(alloc, error, to))),
    }
}

/// Writes the list of objects that an archiver reads.
#[tactic(auto, using(cc_host::proofs::Parts::since_append))]
pub(crate) fn write_list<W: World, H: Host<W>>(
    alloc: Global,
    host: &mut H,
    path: &str,
    bytes: &[u8],
) -> Result<(), Error>
    ensures aside { Aside H.log H.patience host.old host.new }
    ensures outcome { CallsEnd (Writes path.now bytes.now ∷ [])
        (part H.log host.old host.new) result }
{
    match host.write_file(path, bytes) {
        Ok(()) => Ok(()),
        Err(error) => Err(or_no_memory(host_error(alloc, error, path))),
    }
}

/// Lists the variables of the host.
#[tactic(auto, using(cc_host::proofs::Parts::since_append))]
pub(crate) fn list_vars<W: World, H: Host<W>>(alloc: Global, host: &mut H) -> Result<Vars, Error>
    ensures aside { Aside H.log H.patience host.old host.new }
    ensures ear { H.listens host.new ≡ H.listens host.old }
    ensures listed { IfOk result (λ vars. part H.log host.old host.new ≡ Listed vars ∷ []) }
    ensures outcome { CallsEnd (Lists ∷ []) (part H.log host.old host.new) result }
{
    match host.vars() {
        Ok(vars) => Ok(vars),
        Err(error) => Err(or_no_memory(host_error(alloc, error, ""))),
    }
}

/// Says a message.
#[tactic(auto, using(cc_host::proofs::Parts::since_append))]
pub(crate) fn say<W: World, H: Host<W>>(
    alloc: Global,
    host: &mut H,
    message: &Message,
) -> Result<(), Error>
    ensures aside { Aside H.log H.patience host.old host.new }
    ensures outcome { CallsEnd (Says message.now ∷ []) (part H.log host.old host.new) result }
{
    match host.say(message) {
        Ok(()) => Ok(()),
        Err(error) => Err(or_no_memory(host_error(alloc, error, ""))),
    }
}

#[tactic(auto, using(cc_host::proofs::Parts::since_append))]
pub(crate) fn print_line<W: World, H: Host<W>>(
    alloc: Global,
    host: &mut H,
    kind: LineKind,
    line: &str,
) -> Result<(), Error>
    ensures aside { Aside H.log H.patience host.old host.new }
    ensures outcome { CallsEnd (Prints kind (line_of line.now) ∷ [])
        (part H.log host.old host.new) result }
{
    let text = printed_line(alloc, line)?;
    match host.print(kind, text.as_str().as_bytes()) {
        Ok(()) => Ok(()),
        Err(error) => Err(or_no_memory(host_error(alloc, error, ""))),
    }
}
