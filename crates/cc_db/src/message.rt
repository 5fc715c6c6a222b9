// What a logger is told of a message.
ghost use Rattle.std.specs.Prelude.{◌≡◌, Some, IfOk};
ghost use Rattle.cc_db.specs.Message.{kind_of, text_of, extra_of};

use cc_host::{Command, CompileCommand, Message, Status};
use cc_text::Mem;
use std::fmt;

/// What a message is about.
#[derive(Clone, Copy, Debug, PartialEq, Eq)]
pub enum BuildMessageKind {
    /// A warning, of a plan or of a run. Nothing more is told with it.
    GeneralWarning,
    /// A line of the standard error of a command, without its line end. The command is told with it.
    StderrForwarding,
    /// A command ended with this status, which isn't 0. The text is that of the error, and the command is told with it.
    CommandFailed { exit_status: Status },
    /// A command is about to compile a source. The text is its command line, and what it compiles is told with it.
    CompileCommand,
}

/// The text of a message.
#[derive(Clone, Copy, Debug)]
pub enum BuildMessage<'a> {
    /// This text.
    Str(&'a str),
}

impl fmt::Display for BuildMessage<'_> {
    ghost use Rattle.cc_db.specs.declared.message.BuildMessage.TheVariants.{Str};

    ghost output = { elim [ Str text ↦ Some text.now ] };

    fn fmt<W: fmt::Write>(&self, f: &mut fmt::Formatter<W>) -> fmt::Result {
        let BuildMessage::Str(text) = self;
        f.write_str(text)
    }
}

/// What is told with a message.
#[derive(Drop, Debug)]
pub enum Extra {
    /// Nothing more.
    Nothing,
    /// The command that wrote a line or that failed.
    Ran(Command),
    /// What is about to be compiled.
    Compiles(CompileCommand),
}

/// The kind of a message. It takes no memory.
pub(crate) fn kind_of(message: &Message) -> BuildMessageKind
    ensures { result ≡ kind_of message.now }
{
    match message {
        Message::GeneralWarning(_) => BuildMessageKind::GeneralWarning,
        Message::StderrForwarding(_, _) => BuildMessageKind::StderrForwarding,
        Message::CommandFailed(status, _, _) => BuildMessageKind::CommandFailed {
            exit_status: *status,
        },
        Message::Compiles(_, _) => BuildMessageKind::CompileCommand,
    }
}

/// The text of a message, lent. It takes no memory.
pub(crate) fn text_of(message: &Message) -> &str
    ensures { result.now ≡ text_of message.now }
{
    match message {
        Message::GeneralWarning(text) => text.as_str(),
        Message::StderrForwarding(text, _) => text.as_str(),
        Message::CommandFailed(_, text, _) => text.as_str(),
        Message::Compiles(text, _) => text.as_str(),
    }
}

/// What is told with a message, of its own. Only want of memory refuses.
pub(crate) fn extra_of(message: &Message) -> Mem<Extra>
    ensures { IfOk result (λ extra. extra ≡ extra_of message.now) }
{
    Ok(match message {
        Message::GeneralWarning(_) => Extra::Nothing,
        Message::StderrForwarding(_, cmd) => Extra::Ran(cmd.try_clone()?),
        Message::CommandFailed(_, _, cmd) => Extra::Ran(cmd.try_clone()?),
        Message::Compiles(_, cmd) => Extra::Compiles(cmd.try_clone()?),
    })
}
