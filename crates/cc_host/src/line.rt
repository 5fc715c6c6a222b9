// A command as one line.
ghost use Rattle.std.specs.Prelude.{◌≡◌, IfOk};
ghost use Rattle.cc_host.specs.CommandLine.{command_line};

use crate::Command;
use cc_text::{Mem, Text, quoted};
use std::alloc::Global;

/// The program and the words of a command, each in quotes, with one space between. It is meant to be read, not to be run.
#[tactic(auto, unfolding(crate::specs::CommandLine::command_line))]
pub fn command_line(alloc: Global, cmd: &Command) -> Mem<Text>
    ensures { IfOk result (λ t. t ≡ command_line cmd.now) }
{
    let mut line = quoted(alloc, cmd.get_program())?;
    for word in cmd.get_args().as_slice() {
        line.push(' ')?;
        line.push_str(quoted(alloc, word.as_str())?.as_str())?;
    }
    Ok(line)
}
