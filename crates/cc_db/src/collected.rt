// Compile commands that wait to be taken.
ghost use Rattle.std.specs.Prelude.{◌≡◌, [], ◌∷◌, ◌++◌, List, OnOk, OnErr, drop};
ghost use Rattle.std.specs.Option.{option_to_list};
ghost use Rattle.cc_host.specs.CompileCommand.{CompileCommandSeen};

use cc_host::CompileCommand;
use cc_text::Mem;
use std::alloc::Global;
use std::collections::VecDeque;
use std::marker::Model;

/// Compile commands in the order in which they were added. Contracts see the list of them.
#[derive(Drop)]
pub struct Collected {
    commands: VecDeque<CompileCommand>,
}

impl Model for Collected {
    ghost Value = { List CompileCommandSeen };

    ghost view = { λ c. c.commands.items };
}

impl Collected {
    /// No command. It takes no memory.
    pub fn new(alloc: Global) -> Collected
        ensures { result ≡ [] }
    {
        Collected {
            commands: VecDeque::new(alloc),
        }
    }

    /// Adds a command last. Refused for memory, the list stays as it was, and the command is dropped.
    pub fn push_on(&mut self, c: CompileCommand) -> Mem<()>
        ensures ok { OnOk result (self.new ≡ self.old ++ c ∷ []) }
        ensures err { OnErr result (self.new ≡ self.old) }
    {
        self.commands.push_back(c)?;
        Ok(())
    }

    /// Takes the first command off, if there is one. It takes no memory, and the others aren't moved.
    pub fn take_first(&mut self) -> Option<CompileCommand>
        ensures first { self.old ≡ option_to_list result ++ self.new }
        ensures rest { self.new ≡ drop 1 self.old }
    {
        self.commands.pop_front()
    }
}
