// What hears the messages that are said to a host.
use crate::{BuildMessage, BuildMessageKind, Extra};
use cc_text::Mem;

/// What hears messages, one at a time, in the order in which they are said.
pub trait BuildMessageLogger: Drop {
    /// Hears a message: its kind, its text, and what is told with it. A logger that several threads share has to see to
    /// that itself. Only want of memory refuses.
    fn log(&self, kind: BuildMessageKind, msg: BuildMessage<'_>, extra: &Extra) -> Mem<()>;
}

/// A logger that heeds nothing. It takes no memory and refuses nothing.
#[derive(Clone, Copy, Debug)]
pub struct NoLogger;

impl BuildMessageLogger for NoLogger {
    ghost use Rattle.std.specs.Prelude.{IsOk};

    fn log(&self, _kind: BuildMessageKind, _msg: BuildMessage<'_>, _extra: &Extra) -> Mem<()>
        ensures { IsOk result }
    {
        Ok(())
    }
}
