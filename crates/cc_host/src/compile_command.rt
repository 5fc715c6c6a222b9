// A compile command, as a compilation database has it.
ghost use Rattle.std.specs.Prelude.{◌≡◌, IfOk};
ghost use Rattle.std.specs.Cmp.{partial_equiv_from_equiv};
ghost use Rattle.cc_host.specs.CompileCommand.{CompileCommandSeen, compile_command, same_compile_command, same_compile_command-equiv};

use crate::Command;
use cc_text::{Mem, Text, Words, join};
use std::alloc::Global;
use std::marker::Model;

/// How a source is compiled: the folder, the source and the object as paths joined to that folder, and the words of
/// the command, its program first.
#[derive(Drop, Debug)]
pub struct CompileCommand {
    directory: Text,
    file: Text,
    arguments: Words,
    output: Text,
}

impl Model for CompileCommand {
    ghost Value = { CompileCommandSeen };

    ghost view = { λ c. record { directory = c.directory; file = c.file; arguments = c.arguments; output = c.output } };
}

impl CompileCommand {
    /// The command that compiles `src` to `dst` in a folder.
    pub fn new(
        alloc: Global,
        cmd: &Command,
        src: &str,
        dst: &str,
        directory: &str,
    ) -> Mem<CompileCommand>
        ensures { IfOk result (λ c. c ≡ compile_command cmd.now src.now dst.now directory.now) }
    {
        let mut arguments = Words::new(alloc);
        arguments.push(cmd.get_program())?;
        arguments.extend(cmd.get_args())?;
        Ok(CompileCommand {
            directory: Text::of(alloc, directory)?,
            file: join(alloc, directory, src)?,
            arguments,
            output: join(alloc, directory, dst)?,
        })
    }

    /// A command of these parts, taken over as they are: no path is joined to the folder. It takes no memory.
    pub fn from_parts(directory: Text, file: Text, arguments: Words, output: Text) -> CompileCommand
        ensures { result ≡ record {
          directory = directory;
          file = file;
          arguments = arguments;
          output = output;
        } }
    {
        CompileCommand {
            directory,
            file,
            arguments,
            output,
        }
    }

    /// The folder that it runs in, lent.
    pub fn directory(&self) -> &str
        ensures { result.now ≡ self.now.directory }
    {
        self.directory.as_str()
    }

    /// The source, lent.
    pub fn file(&self) -> &str
        ensures { result.now ≡ self.now.file }
    {
        self.file.as_str()
    }

    /// The program and its words, lent.
    pub fn arguments(&self) -> &Words
        ensures { result.now ≡ self.now.arguments }
    {
        &self.arguments
    }

    /// The object, lent.
    pub fn output(&self) -> &str
        ensures { result.now ≡ self.now.output }
    {
        self.output.as_str()
    }

    /// A second compile command, equal to this one.
    pub fn try_clone(&self) -> Mem<CompileCommand>
        ensures { IfOk result (λ c. c ≡ self.now) }
    {
        Ok(CompileCommand {
            directory: self.directory.try_clone()?,
            file: self.file.try_clone()?,
            arguments: self.arguments.try_clone()?,
            output: self.output.try_clone()?,
        })
    }
}

impl PartialEq for CompileCommand {
    ghost eq = { same_compile_command };

    ghost laws = { partial_equiv_from_equiv same_compile_command-equiv };

    /// Whether the two are equal: the same folder, source, object and words, in the same order.
    fn eq(&self, other: &CompileCommand) -> bool {
        self.directory == other.directory
            && self.file == other.file
            && self.output == other.output
            && self.arguments == other.arguments
    }
}

impl Eq for CompileCommand {
    ghost laws = { same_compile_command-equiv };
}
