// The job that shows the tools of a build.
ghost use Rattle.std.specs.Prelude.{◌≡◌, ◌++◌, [], ◌∷◌, true, IfOk, OnOk};
ghost use Rattle.cc_host.specs.Call.{part};
ghost use Rattle.cc_host.specs.CommandLine.{command_line as line_of_command};
ghost use Rattle.cc_build.specs.Course.{CallsEnd};
ghost use Rattle.cc_build.specs.Kept.{Aside};
ghost use Rattle.cc_command.specs.Lines.{shows};
ghost use Rattle.cc_command.specs.Shown.{family_name as name_of_family, named_line, tool_lines as lines_of_tools, Showing};

use crate::lines::print_lines;
use cc_build::{Build, Error};
use cc_host::{Command, Host, World, command_line};
use cc_text::{Mem, Text, ToolFamily, Words};
use cc_tool::Tool;
use std::alloc::Global;
use std::sync::Wait;

fn family_name(family: ToolFamily) -> &'static str
    ensures { result.now ≡ name_of_family family }
{
    match family {
        ToolFamily::Gnu => "Gnu",
        ToolFamily::Clang { .. } => "Clang",
        ToolFamily::Msvc { .. } => "Msvc",
    }
}

// Adds the line of a value behind its name.
fn push_named(alloc: Global, lines: &mut Words, name: &str, value: &str) -> Mem<()>
    ensures { OnOk result (lines.new ≡ lines.old ++ named_line name.now value.now ∷ []) }
{
    let mut line = Text::of(alloc, name)?;
    line.push_str(" ")?;
    line.push_str(value)?;
    line.push_str("\n")?;
    lines.push_text(line)
}

// Adds the line of a command behind its name.
fn push_command(alloc: Global, lines: &mut Words, name: &str, cmd: &Command) -> Mem<()>
    ensures { OnOk result (lines.new
        ≡ lines.old ++ named_line name.now (line_of_command cmd.now) ∷ []) }
{
    let line = command_line(alloc, cmd)?;
    push_named(alloc, lines, name, line.as_str())
}

fn tool_lines(alloc: Global, tool: &Tool, archiver: &Command, ranlib: &Command) -> Mem<Words>
    ensures { IfOk result (λ lines. lines ≡ lines_of_tools tool.now archiver.now ranlib.now) }
{
    let compiler = tool.to_command()?;
    let mut lines = Words::new(alloc);
    push_named(alloc, &mut lines, "family", family_name(tool.family()))?;
    push_command(alloc, &mut lines, "compiler", &compiler)?;
    push_command(alloc, &mut lines, "archiver", archiver)?;
    push_command(alloc, &mut lines, "ranlib", ranlib)?;
    Ok(lines)
}

#[tactic(auto, using(cc_build::proofs::Keeping::aside_none))]
fn print_tools<W: World, H: Host<W>>(
    alloc: Global,
    host: &mut H,
    tool: &Tool,
    archiver: &Command,
    ranlib: &Command,
) -> Result<(), Error>
    ensures aside { Aside H.log H.patience host.old host.new }
    ensures outcome { CallsEnd (shows (lines_of_tools tool.now archiver.now ranlib.now))
        (part H.log host.old host.new) result }
{
    match tool_lines(alloc, tool, archiver, ranlib) {
        Ok(lines) => print_lines(alloc, host, lines.as_slice()),
        Err(memory) => Err(Error::from(memory)),
    }
}

/// Finds the tools of a build, each with the lines of the variables that were read for it, and prints a line for the
/// family of its compiler, and one for each of compiler, archiver and the tool that writes an index, with its command.
#[tactic(auto, using(cc_host::proofs::Parts::since_append))]
pub(crate) fn show<W: World, H: Host<W>>(
    rt: &impl Wait,
    alloc: Global,
    build: &Build<W>,
    host: &mut H,
) -> Result<(), Error>
    requires repeats { build.now.config.repeat_lines ≡ true }
    ensures extends { H.log host.new ≡ H.log host.old ++ part H.log host.old host.new }
    ensures showing { Showing (H.listens host.old) W.steady W.answer build.now
        (part H.log host.old host.new) result }
{
    let tool = build.try_get_compiler(rt, host)?;
    let archiver = build.try_get_archiver(rt, host)?;
    let ranlib = build.try_get_ranlib(rt, host)?;
    print_tools(alloc, host, &tool, &archiver, &ranlib)
}
