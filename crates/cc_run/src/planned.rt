// What is to be run, and what of it is shown.
ghost use Rattle.std.specs.Prelude.{◌≡◌};
ghost use Rattle.cc_run.specs.Planned.{pipes_of};

use crate::WaitState;
use cc_host::{Command, CompileCommand, OutputKind, Pipes, Role};

/// A command that is to be run.
#[derive(Drop, Debug)]
pub struct Planned {
    /// What it does in a build.
    pub role: Role,
    /// Its program, words and variables.
    pub cmd: Command,
    /// The compile command that a listening host hears of, where it compiles a source.
    pub message: Option<CompileCommand>,
}

/// What of a run is shown: on its host as lines, and of the commands' own standard output.
#[derive(Clone, Copy, Debug, PartialEq, Eq)]
pub struct Shows {
    /// The lines of each standard error, and a warning of each failure, as lines `cargo:warning=..`. Where it is off
    /// and the host doesn't listen, no standard error is read.
    pub warnings: bool,
    /// A line before each command, and one with its status after it.
    pub debug: bool,
    /// Where the standard output of a command goes.
    pub out: OutputKind,
    /// Whether the host listens, as it answers itself. Messages are said to one that does: that a command compiles, the
    /// lines of each standard error, that one can't be read, and each failure.
    pub listens: bool,
    /// Whether no command is started after one ended with another status than 0. Those that run are waited for.
    pub stop: bool,
}

/// How many turns a run may still make, and how many were made. A turn asks a host for the news of its children.
#[derive(Clone, Copy, Debug, PartialEq, Eq)]
pub struct Turns {
    /// How many may still be made. Where none is left and a command has no end, the run is refused.
    pub left: u64,
    /// How many were made, also in runs before this one.
    pub used: u64,
}

// What a run only reads: its pool, what of its commands is shown, whether one that fails is warned of, and whether a
// start carries how many tokens are held, or 0.
#[derive(Drop)]
pub(crate) struct Batch<'a, J> {
    pub jobs: &'a J,
    pub shows: &'a Shows,
    pub warns: bool,
    pub counted: bool,
}

// The turns of a run, and how long they rest.
#[derive(Clone, Copy)]
pub(crate) struct Pace {
    pub turns: Turns,
    pub wait: WaitState,
}

// The pipes of a command that is started.
pub(crate) fn pipes_of(shows: &Shows) -> Pipes
    ensures { result ≡ pipes_of shows.now }
{
    Pipes {
        out: shows.out,
        hear: shows.warnings || shows.listens,
    }
}
