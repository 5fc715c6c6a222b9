// The compile command of an object.
ghost use Rattle.std.specs.Prelude.{◌≡◌, IfOk, IfErr, OnOk, map, unwrap_or, if◌then◌else◌};
ghost use Rattle.std.specs.Option.{option_copied};
ghost use Rattle.cc_target.specs.Targets.{info_seen};
ghost use Rattle.cc_tool.specs.Tool.{tool_command};
ghost use Rattle.cc_plan.specs.Compile.{tool_for, with_object, begun_with, compile_of, compiles_of, expand_of};
ghost use Rattle.cc_flags.specs.CompileWords as words;
ghost use Rattle.cc_plan.specs.declared.error.PlanError.TheVariants.{NoMemory as WantsMemory};

use crate::PlanError;
use cc_flags::{BuildConfig, Object, compile_words, expand_words, is_masm};
use cc_host::Command;
use cc_target::TargetInfo;
use cc_text::{Mem, ToolFamily};
use cc_tool::Tool;
use std::alloc::Global;

// The tool of a source: the assembler, where one is given, for a source in a language of the Visual Studio assemblers.
fn tool_for<'a>(
    target: &TargetInfo,
    tool: &'a Tool,
    assembler: Option<&'a Tool>,
    object: &Object,
) -> &'a Tool
    ensures { result.now ≡
        tool_for (info_seen target.now) tool.now (option_copied assembler.entry) object.now }
{
    if is_masm(target, object.src.as_str()) {
        assembler.unwrap_or(tool)
    } else {
        tool
    }
}

// Adds the words of an object, in the form of a family.
fn push_object(
    cmd: &mut Command,
    alloc: Global,
    set: &BuildConfig,
    target: &TargetInfo,
    family: ToolFamily,
    object: &Object,
) -> Mem<()>
    ensures { OnOk result (cmd.new ≡
        with_object set.now (info_seen target.now) family object.now cmd.old) }
{
    let words = compile_words(alloc, set, family, target, object)?;
    cmd.args(&words)
}

/// The command that makes an object from its source: the tool in its whole environment, then the words of the object
/// and the source in the form of the tool's family. The assembler, as `assembler_of` gives it, takes the tool's place
/// for a source whose extension is `asm` on a target of the Visual Studio tools; without one the tool serves these
/// sources too. Only want of memory refuses.
pub fn compile_command(
    alloc: Global,
    set: &BuildConfig,
    target: &TargetInfo,
    tool: &Tool,
    assembler: Option<&Tool>,
    object: &Object,
) -> Result<Command, PlanError>
    ensures command { IfOk result (λ c. c ≡ compile_of set.now (info_seen target.now)
        tool.now (option_copied assembler.entry) object.now) }
    ensures refused { IfErr result (λ e. e ≡ WantsMemory) }
{
    let mut cmd = tool_for(target, tool, assembler, object).to_command()?;
    push_object(&mut cmd, alloc, set, target, tool.family(), object)?;
    Ok(cmd)
}

// The command that those of sources for an assembler begin with: without one that of the tool, whose environment it
// shares.
fn assembling_start(start: &Command, tool: &Tool, assembler: Option<&Tool>) -> Mem<Command>
    requires { start.now ≡ tool_command tool.now }
    ensures { IfOk result (λ cmd.
        cmd ≡ tool_command (unwrap_or (option_copied assembler.entry) tool.now)) }
{
    match assembler {
        Some(assembler) => assembler.to_command(),
        None => start.try_clone(),
    }
}

// The command that that of an object begins with.
fn start_for<'a>(
    target: &TargetInfo,
    start: &'a Command,
    assembling: &'a Command,
    object: &Object,
) -> &'a Command
    ensures { result.now ≡ if words.is_masm (info_seen target.now) object.now.src
        then assembling.now else start.now }
{
    if is_masm(target, object.src.as_str()) {
        assembling
    } else {
        start
    }
}

// The command of an object from the one that it begins with. It shares the environment of that one.
fn command_from(
    alloc: Global,
    set: &BuildConfig,
    target: &TargetInfo,
    family: ToolFamily,
    start: &Command,
    assembling: &Command,
    object: &Object,
) -> Mem<Command>
    ensures { IfOk result (λ cmd. cmd
        ≡ begun_with set.now (info_seen target.now) family start.now assembling.now object.now) }
{
    let mut cmd = start_for(target, start, assembling, object).try_clone()?;
    push_object(&mut cmd, alloc, set, target, family, object)?;
    Ok(cmd)
}

// One command an object, in order.
fn commands_from(
    alloc: Global,
    set: &BuildConfig,
    target: &TargetInfo,
    family: ToolFamily,
    start: &Command,
    assembling: &Command,
    objects: &[Object],
) -> Mem<Vec<Command>>
    ensures { IfOk result (λ cmds. cmds.items ≡ map
        (begun_with set.now (info_seen target.now) family start.now assembling.now) objects.now) }
{
    let mut cmds = Vec::new(alloc);
    for object in objects {
        cmds.push(command_from(alloc, set, target, family, start, assembling, object)?)?;
    }
    Ok(cmds)
}

// One command an object, in order. What all have in common, as the environment, is made once.
#[tactic(auto, using(crate::proofs::CompileLemmas::commands_begun))]
pub(crate) fn compile_commands(
    alloc: Global,
    set: &BuildConfig,
    target: &TargetInfo,
    tool: &Tool,
    assembler: Option<&Tool>,
    objects: &[Object],
) -> Mem<Vec<Command>>
    ensures { IfOk result (λ cmds. cmds.items ≡ compiles_of set.now (info_seen target.now)
        tool.now (option_copied assembler.entry) objects.now) }
{
    let family = tool.family();
    let start = tool.to_command()?;
    let assembling = assembling_start(&start, tool, assembler)?;
    let cmds = commands_from(alloc, set, target, family, &start, &assembling, objects)?;
    Ok(cmds)
}

/// The command that expands a source: the tool in its whole environment, then `-E` and the source in the form of the
/// tool's family. Only want of memory refuses.
pub fn expand_command(alloc: Global, set: &BuildConfig, tool: &Tool, source: &str) -> Mem<Command>
    ensures { IfOk result (λ c. c ≡ expand_of set.now tool.now source.now) }
{
    let mut cmd = tool.to_command()?;
    let words = expand_words(alloc, tool.family(), set.cpp, source)?;
    cmd.args(&words)?;
    Ok(cmd)
}
