// A command: what a child is started with.
ghost use Rattle.std.specs.Prelude.{◌≡◌, ◌++◌, [], ◌∷◌, IfOk, OnOk, OnErr, Some, None};
ghost use Rattle.std.specs.Arc.{arc_value};
ghost use Rattle.std.specs.Option.{option_copied};
ghost use Rattle.cc_host.specs.Command.{CommandSeen};

use crate::shared::Parts;
use cc_text::{Mem, NoMemory, Vars, Words};
use std::alloc::Global;
use std::fmt;
use std::marker::Model;
use std::sync::Arc;

/// A program, its words, its whole environment, and the folder that it runs in, where one is given.
///
/// A second command that is equal shares these by a count of its owners, since each command that is started stands in a log too. A command that
/// is changed while it shares them copies them first.
#[derive(Drop)]
pub struct Command {
    alloc: Global,
    shared: Arc<Parts, Global>,
}

impl Model for Command {
    ghost Value = { CommandSeen };

    ghost view = { λ c. arc_value c.shared };
}

impl Command {
    /// A command of the program alone.
    pub fn new(alloc: Global, program: &str) -> Mem<Command>
        ensures { IfOk result (λ c. c
            ≡ record { program = program.now; args = []; env = []; dir = None }) }
    {
        let parts = Parts::new(alloc, program)?;
        Ok(Command {
            alloc,
            shared: Arc::new(alloc, parts)?,
        })
    }

    // Gives the command parts of its own, where another command shares them. Refused for memory, it stays as it was.
    fn own(&mut self) -> Mem<()>
        ensures { self.new ≡ self.old }
    {
        if Arc::strong_count(&self.shared) == 1 {
            return Ok(());
        }
        let parts = self.shared.try_clone()?;
        self.shared = Arc::new(self.alloc, parts)?;
        Ok(())
    }

    /// Adds a word last. Refused for memory, the command stays as it was.
    pub fn arg(&mut self, word: &str) -> Mem<()>
        ensures ok { OnOk result
            (self.new ≡ record self.old { args = self.old.args ++ word.now ∷ [] }) }
        ensures err { OnErr result (self.new ≡ self.old) }
    {
        self.own()?;
        match Arc::get_mut(&mut self.shared) {
            Some(parts) => parts.arg(word),
            None => Err(NoMemory),
        }
    }

    /// Adds each of these words, in order, last. Refused for memory, the command stays as it was.
    pub fn args(&mut self, words: &Words) -> Mem<()>
        ensures ok { OnOk result
            (self.new ≡ record self.old { args = self.old.args ++ words.now }) }
        ensures err { OnErr result (self.new ≡ self.old) }
    {
        self.own()?;
        match Arc::get_mut(&mut self.shared) {
            Some(parts) => parts.args(words),
            None => Err(NoMemory),
        }
    }

    /// Adds a variable last. Refused for memory, the command stays as it was.
    pub fn env(&mut self, name: &str, value: &str) -> Mem<()>
        ensures ok { OnOk result (self.new
            ≡ record self.old { env = self.old.env ++ (name.now, value.now) ∷ [] }) }
        ensures err { OnErr result (self.new ≡ self.old) }
    {
        self.own()?;
        match Arc::get_mut(&mut self.shared) {
            Some(parts) => parts.env(name, value),
            None => Err(NoMemory),
        }
    }

    /// Adds each of these variables, in order, last. Refused for memory, the command stays as it was.
    pub fn envs(&mut self, vars: &Vars) -> Mem<()>
        ensures ok { OnOk result (self.new ≡ record self.old { env = self.old.env ++ vars.now }) }
        ensures err { OnErr result (self.new ≡ self.old) }
    {
        self.own()?;
        match Arc::get_mut(&mut self.shared) {
            Some(parts) => parts.envs(vars),
            None => Err(NoMemory),
        }
    }

    /// Sets the folder that it runs in. Refused for memory, the command stays as it was.
    pub fn current_dir(&mut self, dir: &str) -> Mem<()>
        ensures ok { OnOk result (self.new ≡ record self.old { dir = Some dir.now }) }
        ensures err { OnErr result (self.new ≡ self.old) }
    {
        self.own()?;
        match Arc::get_mut(&mut self.shared) {
            Some(parts) => parts.current_dir(dir),
            None => Err(NoMemory),
        }
    }

    /// The program, lent.
    pub fn get_program(&self) -> &str
        ensures { result.now ≡ self.now.program }
    {
        self.shared.program()
    }

    /// The words after the program, lent.
    pub fn get_args(&self) -> &Words
        ensures { result.now ≡ self.now.args }
    {
        self.shared.words()
    }

    /// The variables of its environment, lent.
    pub fn get_envs(&self) -> &Vars
        ensures { result.now ≡ self.now.env }
    {
        self.shared.vars()
    }

    /// The folder that it runs in, lent, where one is given.
    pub fn get_current_dir(&self) -> Option<&str>
        ensures { option_copied result ≡ self.now.dir }
    {
        self.shared.dir()
    }

    /// A second command, equal to this one.
    pub fn try_clone(&self) -> Mem<Command>
        ensures { IfOk result (λ c. c ≡ self.now) }
    {
        Ok(Command {
            alloc: self.alloc,
            shared: Arc::try_clone(&self.shared)?,
        })
    }
}

impl fmt::Debug for Command {
    fn fmt<W: fmt::Write>(&self, f: &mut fmt::Formatter<W>) -> fmt::Result {
        let parts: &Parts = &self.shared;
        parts.fmt(f)
    }
}
