// The error of a build.
ghost use Rattle.std.specs.Prelude.{◌≡◌, [], IfOk, Some};
ghost use Rattle.cc_build.specs.Error.{no_memory};
ghost use Rattle.cc_build.specs.declared.error.ErrorKind.TheVariants.{NoMemory as OutOfMemory};
ghost use Rattle.cc_build.specs.ErrorText.{kind_name as name_of_kind, shown};

use cc_text::{Mem, NoMemory, Text};
use std::alloc::Global;
use std::fmt;
use std::marker::Model;

/// What kind an error is of. Each has the value that it is about as its subject.
#[derive(Clone, Copy, Debug, PartialEq, Eq)]
pub enum ErrorKind {
    /// The host couldn't make a folder or remove a file (the subject is its path), print or list its variables (no
    /// subject); no token could be asked for (no subject); or a flag couldn't be tried, since the compiler is missing
    /// or gave no answer (its path).
    IOError,
    /// A value is wanted that neither a setting nor a variable gives: the subject is the variable, as `OUT_DIR`,
    /// `TARGET`, `HOST`, `OPT_LEVEL` or `WASM_MUSL_SYSROOT`, or the one whose flags were asked for.
    EnvVarNotFound,
    /// A command ended with another status than 0, or couldn't be run: the subject is its program. Or running commands
    /// couldn't be waited for: no subject.
    ToolExecError,
    /// A program can't be found: the subject is the program.
    ToolNotFound,
    /// An argument is wrong. The output names no library: the subject is the output; the out dir is empty: no subject;
    /// a source has no file name: the source; two sources have one object: the object; an added object is the library:
    /// that object.
    InvalidArgument,
    /// A tool has no name for the target's architecture, which is the subject: QNX's compilers alone.
    InvalidTarget,
    /// A flag of Rust code that Cargo hands down lacks the value that it needs, or has a wrong one: the subject is its
    /// key, as `-Cdwarf-version`.
    InvalidFlag,
    /// The target isn't among the known ones, and it isn't Cargo's or isn't one that Cargo describes: the subject is
    /// its name.
    UnknownTarget,
    /// `CC_FORCE_DISABLE` is true, so no command may run: the subject is that name.
    Disabled,
    /// No turn was left, and a command had no end: it was left alone. No subject.
    TurnsSpent,
    /// Memory was refused. Subject and message are empty.
    NoMemory,
}

#[derive(Drop, Debug)]
struct Details {
    kind: ErrorKind,
    subject: Text,
    message: Text,
}

/// Why a build was refused: a kind, the value that it is about, and a message for the user.
#[derive(Drop, Debug)]
pub struct Error {
    details: Option<Details>,
}

impl Model for Error {
    ghost use Rattle.cc_build.specs.Error.{ErrorSeen};

    ghost Value = { ErrorSeen };

    ghost use Rattle.cc_build.specs.ErrorFields.{seen};

    ghost view = { seen };
}

impl Error {
    /// An error of this kind, subject and message. Of kind NoMemory it has neither, and the caller sees to it that both
    /// are empty. Refused only for memory.
    pub fn of(alloc: Global, kind: ErrorKind, subject: &str, message: &str) -> Mem<Error>
        requires { kind ≡ OutOfMemory → (subject.now ≡ []) × (message.now ≡ []) }
        ensures { IfOk result
            (λ e. e ≡ record { kind = kind; subject = subject.now; message = message.now }) }
    {
        let subject = Text::of(alloc, subject)?;
        let message = Text::of(alloc, message)?;
        Ok(Error::new(kind, subject, message))
    }

    // An error with these texts.
    pub(crate) fn new(kind: ErrorKind, subject: Text, message: Text) -> Error
        ensures { result ≡ record { kind = kind; subject = subject; message = message } }
    {
        Error {
            details: Some(Details {
                kind,
                subject,
                message,
            }),
        }
    }

    // Want of memory.
    pub(crate) fn no_memory() -> Error
        ensures { result ≡ no_memory }
    {
        Error { details: None }
    }

    /// What kind it is of.
    pub fn kind(&self) -> ErrorKind
        ensures { result ≡ self.now.kind }
    {
        match &self.details {
            Some(details) => details.kind,
            None => ErrorKind::NoMemory,
        }
    }

    /// The value that it is about, as its kind says: a variable's name, a target, a path, a program or an output. Empty
    /// where it is about none.
    pub fn subject(&self) -> &str
        ensures { result.now ≡ self.now.subject }
    {
        match &self.details {
            Some(details) => details.subject.as_str(),
            None => "",
        }
    }

    /// The message for the user: one text without a line feed of its own, and without the kind. Empty where memory was
    /// refused. What it quotes, as a command, stands in it as `command_line` writes it.
    pub fn message(&self) -> &str
        ensures { result.now ≡ self.now.message }
    {
        match &self.details {
            Some(details) => details.message.as_str(),
            None => "",
        }
    }

    /// A second error, equal to this one. Refused only for memory.
    pub fn try_clone(&self) -> Mem<Error>
        ensures { IfOk result (λ e. e ≡ self.now) }
    {
        let details = match &self.details {
            Some(details) => Some(Details {
                kind: details.kind,
                subject: details.subject.try_clone()?,
                message: details.message.try_clone()?,
            }),
            None => None,
        };
        Ok(Error { details })
    }
}

impl From<NoMemory> for Error {
    ghost from_gives = { λ _ e. e ≡ no_memory };

    fn from(_: NoMemory) -> Self {
        Error::no_memory()
    }
}

fn kind_name(kind: ErrorKind) -> &'static str
    ensures { result.now ≡ name_of_kind kind }
{
    match kind {
        ErrorKind::IOError => "IOError",
        ErrorKind::EnvVarNotFound => "EnvVarNotFound",
        ErrorKind::ToolExecError => "ToolExecError",
        ErrorKind::ToolNotFound => "ToolNotFound",
        ErrorKind::InvalidArgument => "InvalidArgument",
        ErrorKind::InvalidTarget => "InvalidTarget",
        ErrorKind::InvalidFlag => "InvalidFlag",
        ErrorKind::UnknownTarget => "UnknownTarget",
        ErrorKind::Disabled => "Disabled",
        ErrorKind::TurnsSpent => "TurnsSpent",
        ErrorKind::NoMemory => "NoMemory",
    }
}

impl fmt::Display for Error {
    ghost output = { λ e. Some (shown e) };

    fn fmt<W: fmt::Write>(&self, f: &mut fmt::Formatter<W>) -> fmt::Result {
        let kind = kind_name(self.kind());
        let message = self.message();
        write!(f, "{kind}: {message}")
    }
}

impl std::error::Error for Error {}
