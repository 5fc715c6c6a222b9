// A logger that keeps the compile commands which it hears of.
use crate::{BuildMessage, BuildMessageKind, BuildMessageLogger, Collected, Extra, NoLogger};
use cc_host::CompileCommand;
use cc_text::Mem;
use std::alloc::Global;
use std::sync::{Arc, Mutex, Wait};

/// A logger that keeps the compile command of each message of that kind, for its `CompileCommands`, and then hands
/// every message on to another logger. Hearing a compile command locks the list, and may wait for another thread that
/// adds to it or takes from it.
#[derive(Drop)]
pub struct CompileCommandCollector<L: BuildMessageLogger, R: Wait + Drop> {
    list: Arc<Mutex<Collected>, Global>,
    logger: L,
    rt: R,
}

/// The compile commands that a collector keeps, oldest first.
#[derive(Drop)]
pub struct CompileCommands {
    list: Arc<Mutex<Collected>, Global>,
}

impl<R: Wait + Drop> CompileCommandCollector<NoLogger, R> {
    ghost use Rattle.std.specs.Prelude.{◌≡◌, IfOk};

    /// A collector that hands messages on to no logger and locks by this handle, and the list of what it keeps, with no
    /// command in it. Only want of memory refuses.
    pub fn new(alloc: Global, rt: R) -> Mem<(CompileCommandCollector<NoLogger, R>, CompileCommands)>
        ensures { IfOk result (λ made. made.0.rt ≡ rt) }
    {
        let list = Arc::new(alloc, Mutex::new(Collected::new(alloc)))?;
        let commands = CompileCommands {
            list: Arc::try_clone(&list)?,
        };
        let collector = CompileCommandCollector {
            list,
            logger: NoLogger,
            rt,
        };
        Ok((collector, commands))
    }
}

impl<L: BuildMessageLogger, R: Wait + Drop> CompileCommandCollector<L, R> {
    ghost use Rattle.std.specs.Prelude.{◌≡◌};

    /// The same collector, which hands every message on to this logger in place of the one that it had. It takes no
    /// memory.
    pub fn forward_to<M: BuildMessageLogger>(self, logger: M) -> CompileCommandCollector<M, R>
        ensures list { result.list ≡ self.list }
        ensures logger { result.logger ≡ logger }
        ensures handle { result.rt ≡ self.rt }
    {
        CompileCommandCollector {
            list: self.list,
            logger,
            rt: self.rt,
        }
    }

    // Keeps a compile command, last in the list.
    fn keep(&self, command: &CompileCommand) -> Mem<()> {
        let command = command.try_clone()?;
        let mut list = self.list.lock(&self.rt);
        list.push_on(command)
    }
}

impl<L: BuildMessageLogger, R: Wait + Drop> BuildMessageLogger for CompileCommandCollector<L, R> {
    /// Keeps the command of a compile command, and hands the message on. Where the other logger refuses, the command
    /// stays kept.
    fn log(&self, kind: BuildMessageKind, msg: BuildMessage<'_>, extra: &Extra) -> Mem<()> {
        if let (BuildMessageKind::CompileCommand, Extra::Compiles(command)) = (kind, extra) {
            self.keep(command)?;
        }
        self.logger.log(kind, msg, extra)
    }
}

impl CompileCommands {
    /// Takes the first compile command that is kept, if there is one. It locks the list and may wait for the collector,
    /// but not for a command to come. It takes no memory.
    pub fn next(&mut self, rt: &impl Wait) -> Option<CompileCommand> {
        let mut list = self.list.lock(rt);
        list.take_first()
    }
}
