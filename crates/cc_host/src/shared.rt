// What a command is made of.
ghost use Rattle.std.specs.Prelude.{◌≡◌, ◌++◌, [], ◌∷◌, IfOk, OnOk, OnErr, Some, None};
ghost use Rattle.std.specs.Option.{option_copied};
ghost use Rattle.cc_host.specs.Command.{CommandSeen};

use cc_text::{Mem, Text, Vars, Words};
use std::alloc::Global;
use std::marker::Model;

/// A program, its words, its whole environment, and the folder that it runs in, where one is given.
#[derive(Drop, Debug)]
pub(crate) struct Parts {
    alloc: Global,
    program: Text,
    args: Words,
    env: Vars,
    dir: Option<Text>,
}

impl Model for Parts {
    ghost Value = { CommandSeen };

    ghost view = { λ c. record { program = c.program; args = c.args; env = c.env; dir = c.dir } };
}

impl Parts {
    /// A program alone.
    pub fn new(alloc: Global, program: &str) -> Mem<Parts>
        ensures { IfOk result (λ c. c
            ≡ record { program = program.now; args = []; env = []; dir = None }) }
    {
        Ok(Parts {
            alloc,
            program: Text::of(alloc, program)?,
            args: Words::new(alloc),
            env: Vars::new(alloc),
            dir: None,
        })
    }

    /// Adds a word last. Refused for memory, the parts stay as they were.
    pub fn arg(&mut self, word: &str) -> Mem<()>
        ensures ok { OnOk result
            (self.new ≡ record self.old { args = self.old.args ++ word.now ∷ [] }) }
        ensures err { OnErr result (self.new ≡ self.old) }
    {
        self.args.push(word)
    }

    /// Adds each of these words, in order, last. Refused for memory, the parts stay as they were.
    pub fn args(&mut self, words: &Words) -> Mem<()>
        ensures ok { OnOk result
            (self.new ≡ record self.old { args = self.old.args ++ words.now }) }
        ensures err { OnErr result (self.new ≡ self.old) }
    {
        self.args.extend(words)
    }

    /// Adds a variable last. Refused for memory, the parts stay as they were.
    pub fn env(&mut self, name: &str, value: &str) -> Mem<()>
        ensures ok { OnOk result (self.new
            ≡ record self.old { env = self.old.env ++ (name.now, value.now) ∷ [] }) }
        ensures err { OnErr result (self.new ≡ self.old) }
    {
        self.env.push(name, value)
    }

    /// Adds each of these variables, in order, last. Where there was none before, they are shared. Refused for memory, the parts stay as they
    /// were.
    pub fn envs(&mut self, vars: &Vars) -> Mem<()>
        ensures ok { OnOk result (self.new ≡ record self.old { env = self.old.env ++ vars.now }) }
        ensures err { OnErr result (self.new ≡ self.old) }
    {
        if self.env.is_empty() {
            self.env = vars.try_clone()?;
            return Ok(());
        }
        self.env.extend(vars)
    }

    /// Sets the folder. Refused for memory, the parts stay as they were.
    pub fn current_dir(&mut self, dir: &str) -> Mem<()>
        ensures ok { OnOk result (self.new ≡ record self.old { dir = Some dir.now }) }
        ensures err { OnErr result (self.new ≡ self.old) }
    {
        self.dir = Some(Text::of(self.alloc, dir)?);
        Ok(())
    }

    pub fn program(&self) -> &str
        ensures { result.now ≡ self.now.program }
    {
        self.program.as_str()
    }

    pub fn words(&self) -> &Words
        ensures { result.now ≡ self.now.args }
    {
        &self.args
    }

    pub fn vars(&self) -> &Vars
        ensures { result.now ≡ self.now.env }
    {
        &self.env
    }

    pub fn dir(&self) -> Option<&str>
        ensures { option_copied result ≡ self.now.dir }
    {
        match &self.dir {
            Some(dir) => Some(dir.as_str()),
            None => None,
        }
    }

    /// Second parts, equal to these.
    pub fn try_clone(&self) -> Mem<Parts>
        ensures { IfOk result (λ c. c ≡ self.now) }
    {
        Ok(Parts {
            alloc: self.alloc,
            program: self.program.try_clone()?,
            args: self.args.try_clone()?,
            env: self.env.try_clone()?,
            dir: match &self.dir {
                Some(dir) => Some(dir.try_clone()?),
                None => None,
            },
        })
    }
}
