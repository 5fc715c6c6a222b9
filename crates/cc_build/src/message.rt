// The errors of events that end a run.
ghost use Rattle.std.specs.Prelude.{◌≡◌, ◌⊎◌, [], IfOk, MatchResult};
ghost use Rattle.std.specs.Option.{option_copied};
ghost use Rattle.cc_build.specs.Error.{no_memory};
ghost use Rattle.cc_build.specs.RunErrors.{command_at, error_of, run_error};
ghost use Rattle.cc_build.specs.Stop.{call_name as name_of_call, why_name as name_of_why, missing_error, failed_error, unstarted_error, fault_error, host_error};

use crate::{Error, ErrorKind};
use cc_host::{Command, HostCall, HostError, Status, Why, command_line};
use cc_run::{Planned, RunError, failed_text};
use cc_text::{Mem, Text, quoted};
use std::alloc::Global;

// An error, or want of memory where its texts could not be made.
pub(crate) fn or_no_memory(error: Mem<Error>) -> Error
    ensures { MatchResult error (λ e. result ≡ e) (λ _. result ≡ no_memory) }
{
    match error {
        Ok(error) => error,
        Err(_) => Error::no_memory(),
    }
}

fn call_name(call: HostCall) -> &'static str
    ensures { result.now ≡ name_of_call call }
{
    match call {
        HostCall::Start => "start",
        HostCall::Turn => "turn",
        HostCall::Output => "output",
        HostCall::Probe => "probe",
        HostCall::MakeDir(_) => "make dir",
        HostCall::CreateProbe => "create probe",
        HostCall::Write => "write",
        HostCall::Copy => "copy",
        HostCall::Remove => "remove",
        HostCall::CurrentDir => "current dir",
        HostCall::Print => "print",
        HostCall::Say => "say",
        HostCall::Vars => "vars",
    }
}

fn why_name(why: Why) -> &'static str
    ensures { result.now ≡ name_of_why why }
{
    match why {
        Why::NotFound => "not found",
        Why::Denied => "denied",
        Why::Exists => "exists",
        Why::Other => "other",
    }
}

// The program can't be found.
#[tactic(auto, unfolding(crate::specs::Stop::missing_error))]
pub(crate) fn missing(alloc: Global, cmd: &Command) -> Mem<Error>
    ensures { IfOk result (λ e. e ≡ missing_error cmd.now) }
{
    let subject = Text::of(alloc, cmd.get_program())?;
    let name = quoted(alloc, cmd.get_program())?;
    let mut message = Text::of(alloc, "failed to find tool ")?;
    message.push_str(name.as_str())?;
    Ok(Error::new(ErrorKind::ToolNotFound, subject, message))
}

// The command ended with another status than 0.
#[tactic(auto, unfolding(crate::specs::Stop::failed_error))]
pub(crate) fn failed(alloc: Global, status: Status, cmd: &Command) -> Mem<Error>
    ensures { IfOk result (λ e. e ≡ failed_error status cmd.now) }
{
    let subject = Text::of(alloc, cmd.get_program())?;
    let message = failed_text(alloc, status, cmd)?;
    Ok(Error::new(ErrorKind::ToolExecError, subject, message))
}

// The host couldn't run the command.
#[tactic(auto, unfolding(crate::specs::Stop::unstarted_error))]
pub(crate) fn unstarted(alloc: Global, cmd: &Command) -> Mem<Error>
    ensures { IfOk result (λ e. e ≡ unstarted_error cmd.now) }
{
    let subject = Text::of(alloc, cmd.get_program())?;
    let line = command_line(alloc, cmd)?;
    let mut message = Text::of(alloc, "command ")?;
    message.push_str(line.as_str())?;
    message.push_str(" failed to start")?;
    Ok(Error::new(ErrorKind::ToolExecError, subject, message))
}

#[tactic(auto, unfolding(crate::specs::Stop::fault_error))]
fn fault(alloc: Global, call: HostCall, why: Why, subject: &str) -> Mem<Error>
    ensures { IfOk result (λ e. e ≡ fault_error call why subject.now) }
{
    let mut message = Text::of(alloc, call_name(call))?;
    message.push_str(" failed: ")?;
    message.push_str(why_name(why))?;
    let subject = Text::of(alloc, subject)?;
    Ok(Error::new(ErrorKind::IOError, subject, message))
}

// What the host answered in place of making a folder, removing a file, printing or listing its variables.
pub(crate) fn host_error(alloc: Global, error: HostError, subject: &str) -> Mem<Error>
    ensures { IfOk result (λ e. e ≡ host_error error subject.now) }
{
    match error {
        HostError::Fault(call, why) => fault(alloc, call, why, subject),
        HostError::NoMemory => Ok(Error::no_memory()),
    }
}

// The command at a place.
fn command_at(cmds: &[Planned], place: u64) -> Option<&Command>
    ensures { option_copied result ≡ command_at cmds.now place }
{
    match cmds.get(place as usize) {
        Some(planned) => Some(&planned.cmd),
        None => None,
    }
}

// An error that is about none.
fn plain(alloc: Global, kind: ErrorKind, message: &str) -> Mem<Error>
    ensures { IfOk result (λ e. e ≡ record { kind = kind; subject = []; message = message.now }) }
{
    let message = Text::of(alloc, message)?;
    Ok(Error::new(kind, Text::new(alloc), message))
}

fn missing_at(alloc: Global, cmd: Option<&Command>) -> Mem<Error>
    ensures { IfOk result (λ e. e ≡ error_of missing_error (option_copied cmd.entry)) }
{
    match cmd {
        Some(cmd) => missing(alloc, cmd),
        None => Ok(Error::no_memory()),
    }
}

fn failed_at(alloc: Global, status: Status, cmd: Option<&Command>) -> Mem<Error>
    ensures { IfOk result (λ e. e ≡ error_of (failed_error status) (option_copied cmd.entry)) }
{
    match cmd {
        Some(cmd) => failed(alloc, status, cmd),
        None => Ok(Error::no_memory()),
    }
}

fn unstarted_at(alloc: Global, cmd: Option<&Command>) -> Mem<Error>
    ensures { IfOk result (λ e. e ≡ error_of unstarted_error (option_copied cmd.entry)) }
{
    match cmd {
        Some(cmd) => unstarted(alloc, cmd),
        None => Ok(Error::no_memory()),
    }
}

fn run_error(alloc: Global, e: RunError, cmds: &[Planned]) -> Mem<Error>
    ensures { IfOk result (λ error. error ≡ run_error cmds.now e) }
{
    match e {
        RunError::ToolNotFound(place) => missing_at(alloc, command_at(cmds, place)),
        RunError::Failed(place, status) => failed_at(alloc, status, command_at(cmds, place)),
        RunError::StartFault(place) => unstarted_at(alloc, command_at(cmds, place)),
        RunError::WaitFault => plain(
            alloc,
            ErrorKind::ToolExecError,
            "failed to wait for running commands",
        ),
        RunError::HostFault(call, why) => fault(alloc, call, why, ""),
        RunError::JobFault => plain(alloc, ErrorKind::IOError, "no job token could be asked for"),
        RunError::TurnsSpent => plain(alloc, ErrorKind::TurnsSpent, "turns spent"),
        RunError::NoMemory => Ok(Error::no_memory()),
    }
}

impl Error {
    /// The error of a call of the host that was refused, about this subject: of kind IOError, with the call and the
    /// cause as its message; or want of memory, also where its texts could not be made.
    pub fn of_host(alloc: Global, e: HostError, subject: &str) -> Error
        ensures { (result ≡ no_memory) ⊎ (result ≡ host_error e subject.now) }
    {
        or_no_memory(host_error(alloc, e, subject))
    }

    /// The error of a run of these commands that ended without success: that of the command at the place which `e`
    /// names, from 0, with its program as the subject; or want of memory where its texts could not be made. A place
    /// that the list doesn't have counts as want of memory.
    pub fn of_run(alloc: Global, e: RunError, cmds: &[Planned]) -> Error
        ensures { (result ≡ run_error cmds.now e) ⊎ (result ≡ no_memory) }
    {
        or_no_memory(run_error(alloc, e, cmds))
    }
}
