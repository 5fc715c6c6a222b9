// What a host is asked, what it answers, and the events of its log.
ghost use Rattle.std.specs.Prelude.{◌≡◌, IfOk};
ghost use Rattle.cc_host.specs.Status.{is_success};
ghost use Rattle.cc_host.specs.declared.event.HostError.TheVariants.{NoMemory as WantsMemory};

use crate::{Boxed, Command, CompileCommand, Line, Outcome, ProbeFiles, Question, Verdict};
use cc_text::{Bytes, Mem, NoMemory, Text, Vars};
use std::alloc::{AllocError, AllocFailed};

/// What a command is for.
#[derive(Clone, Copy, Debug, PartialEq, Eq)]
pub enum Role {
    /// Makes an object from a source.
    Compile,
    /// Writes objects into a library.
    Archive,
    /// Writes the index of a library.
    Index,
    /// Prints a source as the preprocessor leaves it.
    Expand,
}

/// How a command ended. Success is `Code(0)` alone.
#[derive(Clone, Copy, Debug, PartialEq, Eq)]
pub enum Status {
    /// It ended with this number.
    Code(i32),
    /// It ended without one, by a signal.
    NoCode,
}

impl Status {
    /// Whether the command ended with 0.
    pub fn is_success(self) -> bool
        ensures { result ≡ is_success self }
    {
        matches!(self, Status::Code(0))
    }
}

/// What becomes of the standard output of a command.
#[derive(Clone, Copy, Debug, PartialEq, Eq)]
pub enum OutputKind {
    /// It goes where that of the program goes.
    Forward,
    /// Nobody reads it.
    Discard,
    /// It is kept and answered.
    Capture,
}

/// The outputs of a command.
#[derive(Clone, Copy, Debug, PartialEq, Eq)]
pub struct Pipes {
    /// What becomes of the standard output.
    pub out: OutputKind,
    /// Whether the standard error is kept and answered. Where it isn't, nobody reads it.
    pub hear: bool,
}

/// What a folder is for.
#[derive(Clone, Copy, Debug, PartialEq, Eq)]
pub enum Scope {
    /// For the objects and the library.
    Build,
    /// For the files of a question to a compiler.
    Probe,
}

/// How the making of a probe file was answered.
#[derive(Clone, Copy, Debug, PartialEq, Eq)]
pub enum Created {
    /// The file was made.
    New,
    /// A file of that name stood there, and was left alone.
    Exists,
}

/// How a removal was answered.
#[derive(Clone, Copy, Debug, PartialEq, Eq)]
pub enum Removal {
    /// The file was there and is gone.
    Gone,
    /// No file was there.
    Absent,
}

/// What a printed line is.
#[derive(Clone, Copy, Debug, PartialEq, Eq)]
pub enum LineKind {
    /// Says to Cargo what to link.
    Link,
    /// Says to Cargo which variable was read.
    Rerun,
    /// A warning.
    Warning,
    /// A line of the standard error of the child of this number.
    Stderr { id: u64 },
    /// Says that a command begins, or how it ended.
    Debug,
    /// Says why a run was refused.
    Fault,
    /// A source as the preprocessor leaves it.
    Expanded,
    /// An answer of the program.
    Shown,
}

/// A call of a host that may fault.
#[derive(Clone, Copy, Debug, PartialEq, Eq)]
pub enum HostCall {
    /// A child was to be started.
    Start,
    /// The children were to be waited for.
    Turn,
    /// A command was to run to its end.
    Output,
    /// A question was to be asked by its command.
    Probe,
    /// A folder of this kind was to be made.
    MakeDir(Scope),
    /// A probe file was to be made.
    CreateProbe,
    /// A file was to be written.
    Write,
    /// A file was to be copied.
    Copy,
    /// A file was to be removed.
    Remove,
    /// The current folder was to be told.
    CurrentDir,
    /// Bytes were to be printed.
    Print,
    /// A message was to be said.
    Say,
    /// The variables of the host were to be listed.
    Vars,
}

/// Why a call faulted. A host over the machine takes it from the kind of `std::io::Error`.
#[derive(Clone, Copy, Debug, PartialEq, Eq)]
pub enum Why {
    /// Something that the call names isn't there.
    NotFound,
    /// The call isn't permitted.
    Denied,
    /// Something stands there already.
    Exists,
    /// Any other reason.
    Other,
}

/// A refusal of a host: a fault of its own, with the call and the reason, or want of memory.
#[derive(Clone, Copy, Debug, PartialEq, Eq)]
pub enum HostError {
    /// This call faulted, for this reason. The log has the fault last.
    Fault(HostCall, Why),
    /// Memory was refused. The log is as before.
    NoMemory,
}

impl From<NoMemory> for HostError {
    ghost from_gives = { λ _ e. e ≡ WantsMemory };

    fn from(_: NoMemory) -> Self {
        HostError::NoMemory
    }
}

impl From<AllocError> for HostError {
    ghost from_gives = { λ _ e. e ≡ WantsMemory };

    fn from(_: AllocError) -> Self {
        HostError::NoMemory
    }
}

impl<T: Drop> From<AllocFailed<T>> for HostError {
    ghost from_gives = { λ _ e. e ≡ WantsMemory };

    fn from(_: AllocFailed<T>) -> Self {
        HostError::NoMemory
    }
}

/// The answer to a command that was run to its end.
#[derive(Drop, Debug)]
pub enum Ran {
    /// The program can't be found.
    Missing,
    /// It ended with this status. `out` is empty unless it was captured, `err` unless it was heard.
    Done {
        status: Status,
        out: Bytes,
        err: Bytes,
    },
}

/// The answer to a command that was to be started.
#[derive(Clone, Copy, Debug, PartialEq, Eq)]
pub enum Start {
    /// It runs as the child of this number.
    Child(u64),
    /// The program can't be found.
    Missing,
}

/// What a child did in a turn.
#[derive(Drop, Debug)]
pub struct News {
    /// The number of the child.
    pub id: u64,
    /// The piece of its standard error that came. It isn't empty.
    pub piece: Option<Bytes>,
    /// Whether its standard error failed to be read, after the piece. No further piece of it comes.
    pub unread: bool,
    /// How it ended, where it did. It runs no more.
    pub ended: Option<Status>,
}

/// What a run says to a host that listens.
#[derive(Drop, Debug)]
pub enum Message {
    /// A warning, of a plan or of a run.
    GeneralWarning(Text),
    /// A line of the standard error of a command, without its line end.
    StderrForwarding(Text, Command),
    /// A command ended so: with another status than 0. The text is that of the error.
    CommandFailed(Status, Text, Command),
    /// A command is about to compile a source. The text is its command line.
    Compiles(Text, CompileCommand),
}

impl Message {
    /// A second message, equal to this one.
    pub fn try_clone(&self) -> Mem<Message>
        ensures { IfOk result (λ m. m ≡ self.now) }
    {
        Ok(match self {
            Message::GeneralWarning(text) => Message::GeneralWarning(text.try_clone()?),
            Message::StderrForwarding(text, cmd) => {
                Message::StderrForwarding(text.try_clone()?, cmd.try_clone()?)
            }
            Message::CommandFailed(status, text, cmd) => {
                Message::CommandFailed(*status, text.try_clone()?, cmd.try_clone()?)
            }
            Message::Compiles(text, cmd) => Message::Compiles(text.try_clone()?, cmd.try_clone()?),
        })
    }
}

/// What a host did, as its log has it. Large parts are on the heap, since a log may have an event for each line that a command wrote.
#[derive(Drop, Debug)]
pub enum Event {
    /// A command runs as the child of this number. `held` is the number of tokens that its caller held.
    Started {
        id: u64,
        role: Role,
        cmd: Command,
        pipes: Pipes,
        held: u64,
    },
    /// A child ended.
    Ended {
        id: u64,
        status: Status,
    },
    /// A child that ran is left alone.
    Abandoned {
        id: u64,
    },
    /// A child gave bytes on its standard error.
    Heard {
        id: u64,
        bytes: Bytes,
    },
    /// The standard error of a child failed to be read.
    Unread {
        id: u64,
    },
    /// So many turns were made, one after another.
    Turn {
        count: u64,
    },
    /// A question was asked, with these probe files where it was a command.
    Answered {
        question: Boxed<Question>,
        files: Boxed<Option<ProbeFiles>>,
        outcome: Boxed<Outcome>,
    },
    /// A question has this verdict from earlier.
    Reused {
        question: Boxed<Question>,
        verdict: Verdict,
    },
    /// A question couldn't be asked.
    Unasked {
        question: Boxed<Question>,
    },
    /// A word was drawn at random.
    Drawn {
        word: u64,
    },
    /// A probe file was made with these bytes.
    Opened {
        path: Text,
        bytes: Bytes,
    },
    /// A probe file wasn't made, as a file of that name stood there.
    Taken {
        path: Text,
    },
    /// A probe file was dropped.
    Dropped {
        path: Text,
    },
    /// A command ran to its end.
    Ran {
        role: Role,
        cmd: Command,
        pipes: Pipes,
        status: Status,
        out: Boxed<Bytes>,
        err: Boxed<Bytes>,
    },
    /// The program of a command can't be found.
    Missing {
        role: Role,
        cmd: Command,
    },
    /// A folder is there now.
    Made {
        scope: Scope,
        path: Text,
    },
    /// A file is not there any more.
    Removed {
        path: Text,
        how: Removal,
    },
    /// A file has these bytes now, and no others.
    Wrote {
        path: Text,
        bytes: Bytes,
    },
    /// A file has the bytes of another now.
    Copied {
        from: Text,
        to: Text,
    },
    /// The current folder was told.
    Here {
        path: Text,
    },
    /// Bytes were printed.
    Printed {
        kind: LineKind,
        bytes: Line,
    },
    /// A message was said.
    Said {
        message: Boxed<Message>,
    },
    /// The variables of the host's own environment were listed.
    Listed {
        vars: Vars,
    },
    /// A call faulted, and did nothing.
    Fault {
        call: HostCall,
        why: Why,
    },
}
