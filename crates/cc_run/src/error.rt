// Why a run ended without success, and what a poll answers.
ghost use Rattle.std.specs.Prelude.{◌≡◌};
ghost use Rattle.cc_run.specs.Outcome.{start_error as start_error_of, turn_error as turn_error_of, print_error as print_error_of};
ghost use Rattle.cc_run.specs.declared.error.RunError.TheVariants.{NoMemory as WantsMemory};

use cc_host::{HostCall, HostError, Status, Why};
use cc_text::NoMemory;
use std::alloc::{AllocError, AllocFailed};

/// What a poll answers.
#[derive(Clone, Copy, PartialEq, Eq, Debug)]
pub enum Step {
    /// Nothing is left to do for it.
    Ready,
    /// It wants to be polled again.
    Pending,
}

/// Why a run ended without success. The number in the first three is a place in the list of commands, from 0.
#[derive(Clone, Copy, PartialEq, Eq, Debug)]
pub enum RunError {
    /// The program of the command at that place can't be found.
    ToolNotFound(u64),
    /// The command at that place ended with another status than 0. Of several it is the one that ended last.
    Failed(u64, Status),
    /// The host couldn't start or run the command at that place, for another cause.
    StartFault(u64),
    /// The host couldn't make a turn.
    WaitFault,
    /// The host couldn't do another call, such as the print of a line.
    HostFault(HostCall, Why),
    /// The pool of tokens failed: the seat's count of faults rose.
    JobFault,
    /// No turn was left, and a command had no end. As many turns as the host's patience, for each command, are enough.
    TurnsSpent,
    /// Memory was refused.
    NoMemory,
}

impl From<NoMemory> for RunError {
    ghost from_gives = { λ _ e. e ≡ WantsMemory };

    fn from(_: NoMemory) -> Self {
        RunError::NoMemory
    }
}

impl From<AllocError> for RunError {
    ghost from_gives = { λ _ e. e ≡ WantsMemory };

    fn from(_: AllocError) -> Self {
        RunError::NoMemory
    }
}

impl<T: Drop> From<AllocFailed<T>> for RunError {
    ghost from_gives = { λ _ e. e ≡ WantsMemory };

    fn from(_: AllocFailed<T>) -> Self {
        RunError::NoMemory
    }
}

// The refusal of a start.
pub(crate) fn start_error(e: HostError, place: u64) -> RunError
    ensures { result ≡ start_error_of place e }
{
    match e {
        HostError::Fault(_, _) => RunError::StartFault(place),
        HostError::NoMemory => RunError::NoMemory,
    }
}

// The refusal of a turn.
pub(crate) fn turn_error(e: HostError) -> RunError
    ensures { result ≡ turn_error_of e }
{
    match e {
        HostError::Fault(_, _) => RunError::WaitFault,
        HostError::NoMemory => RunError::NoMemory,
    }
}

// The refusal of a print.
pub(crate) fn print_error(e: HostError) -> RunError
    ensures { result ≡ print_error_of e }
{
    match e {
        HostError::Fault(call, why) => RunError::HostFault(call, why),
        HostError::NoMemory => RunError::NoMemory,
    }
}
