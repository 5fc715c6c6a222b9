// The tools of archives, the archiver and the one that writes their index, and how they are found: one table, in which
// each has its own name.
ghost use Rattle.cc_plan.specs.ArchivePlan as plan;
ghost use Rattle.cc_plan.specs.ArchiveTool as spec;
ghost use Rattle.cc_plan.specs.Halts.{Tries};
ghost use Rattle.cc_tool.specs.Plans.{Passes};

use crate::archive_asks::{compiler_lib, compiler_tool, if_versioned, is_versioned};
use crate::checks::{check_qnx_arch, known_target};
use crate::choice::cross_prefix;
use crate::env_tool::env_tool;
use crate::halt::Halting;
use cc_env::BuildEnv;
use cc_flags::{
    ArchiveTool, BuildConfig, Choice, Inputs, android_name, bare, behind, gcc_name, is_msvc,
    is_wasm, plain_name, push_machine_words, read_handed, set_program, system_name, target_name,
    tool_name, tool_variable,
};
use cc_text::Text;
use cc_tool::{Answers, Notes, Planned};
use std::alloc::Global;

// LLVM's tool for WebAssembly: the folders of Clang come first, as a kit for it has tools that fit.
#[tactic(auto, using(crate::proofs::PassBy::pass_by), unfolding(crate::specs::ArchiveTool::wasm_tool))]
fn wasm_tool(
    tool: ArchiveTool,
    inputs: &Inputs<'_>,
    seen: &Answers,
    notes: &mut Notes,
) -> Planned<Option<Text>>
    ensures { Passes seen.now notes.old notes.new
        (spec.wasm_tool tool inputs.now.set.now inputs.now.env.now) result }
{
    if is_wasm(inputs.target) {
        compiler_tool(tool, inputs, seen, notes)
    } else {
        Ok(None)
    }
}

// LLVM's tool for Android, which newer kits have, where it prints its version; else that of older ones.
#[tactic(auto, using(crate::proofs::PassBy::pass_by), unfolding(crate::specs::ArchiveTool::android_tool))]
fn android_tool(
    tool: ArchiveTool,
    inputs: &Inputs<'_>,
    seen: &Answers,
    notes: &mut Notes,
) -> Planned<Text>
    ensures { Passes seen.now notes.old notes.new
        (spec.android_tool tool inputs.now.set.now inputs.now.env.now) result }
{
    let name = behind(inputs.alloc, "llvm-", tool)?;
    let vars = inputs.env.child_vars(inputs.alloc)?;
    if is_versioned(inputs.alloc, &vars, name.as_str(), seen, notes)? {
        return Ok(name);
    }
    let name = android_name(inputs.alloc, tool, target_name(inputs.set, inputs.env))?;
    Ok(name)
}

// Behind the prefix of the GNU tools: that of binutils, or GCC's own, which loads its plugin for link time
// optimisation; the first of the two that prints its version.
#[tactic(auto, using(crate::proofs::PassBy::pass_by), unfolding(crate::specs::ArchiveTool::prefixed_tool, crate::specs::ArchiveTool::plain_or_gcc))]
fn prefixed_tool(
    tool: ArchiveTool,
    inputs: &Inputs<'_>,
    prefix: &str,
    seen: &Answers,
    notes: &mut Notes,
) -> Planned<Option<Text>>
    ensures { Passes seen.now notes.old notes.new
        (spec.prefixed_tool tool inputs.now.env.now prefix.now) result }
{
    let plain = plain_name(inputs.alloc, tool, prefix)?;
    match if_versioned(inputs, plain, seen, notes)? {
        Some(name) => Ok(Some(name)),
        None => {
            let name = gcc_name(inputs.alloc, tool, prefix)?;
            if_versioned(inputs, name, seen, notes)
        }
    }
}

// For another target than the host, where there is a prefix.
#[tactic(auto, using(crate::proofs::PassBy::pass_by), unfolding(crate::specs::ArchiveTool::cross_tool, crate::specs::ArchiveTool::tool_behind))]
fn cross_tool(
    tool: ArchiveTool,
    inputs: &Inputs<'_>,
    seen: &Answers,
    notes: &mut Notes,
) -> Planned<Option<Text>>
    ensures { Passes seen.now notes.old notes.new
        (spec.cross_tool tool inputs.now.set.now inputs.now.env.now) result }
{
    match cross_prefix(inputs, seen, notes)? {
        Some(prefix) => prefixed_tool(tool, inputs, prefix.as_str(), seen, notes),
        None => Ok(None),
    }
}

// Behind a prefix, else by its name alone.
#[tactic(auto, using(crate::proofs::PassBy::pass_by), unfolding(crate::specs::ArchiveTool::gnu_tool))]
fn gnu_tool(
    tool: ArchiveTool,
    inputs: &Inputs<'_>,
    seen: &Answers,
    notes: &mut Notes,
) -> Planned<Text>
    ensures { Passes seen.now notes.old notes.new
        (spec.gnu_tool tool inputs.now.set.now inputs.now.env.now) result }
{
    match cross_tool(tool, inputs, seen, notes)? {
        Some(path) => Ok(path),
        None => Ok(Text::of(inputs.alloc, tool_name(tool))?),
    }
}

// That of the system, else one of GNU's.
#[tactic(auto, using(crate::proofs::PassBy::pass_by), unfolding(crate::specs::ArchiveTool::named_tool, cc_tool::specs::Plans::or_else))]
fn named_tool(
    tool: ArchiveTool,
    inputs: &Inputs<'_>,
    seen: &Answers,
    notes: &mut Notes,
) -> Planned<Text>
    ensures { Passes seen.now notes.old notes.new
        (spec.named_tool tool inputs.now.set.now inputs.now.env.now) result }
{
    match system_name(inputs.alloc, tool, inputs.target)? {
        Some(name) => Ok(name),
        None => gnu_tool(tool, inputs, seen, notes),
    }
}

// For Visual Studio: LLVM's next to clang-cl, else Microsoft's library manager, which stands for both tools, as an
// index needs none there.
#[tactic(auto, using(crate::proofs::PassBy::pass_by), unfolding(crate::specs::ArchiveTool::studio_tool))]
fn studio_tool(inputs: &Inputs<'_>, seen: &Answers, notes: &mut Notes) -> Planned<Text>
    ensures { Passes seen.now notes.old notes.new
        (spec.studio_tool inputs.now.set.now inputs.now.env.now) result }
{
    match compiler_lib(inputs, seen, notes)? {
        Some(path) => Ok(path),
        None => Ok(Text::of(inputs.alloc, "lib.exe")?),
    }
}

// That of Visual Studio, of a system or of GNU's.
#[tactic(auto, using(crate::proofs::PassBy::pass_by), unfolding(crate::specs::ArchiveTool::studio_or_named))]
fn studio_or_named(
    tool: ArchiveTool,
    inputs: &Inputs<'_>,
    seen: &Answers,
    notes: &mut Notes,
) -> Planned<Text>
    ensures { Passes seen.now notes.old notes.new
        (spec.studio_or_named tool inputs.now.set.now inputs.now.env.now) result }
{
    if is_msvc(inputs.target) {
        studio_tool(inputs, seen, notes)
    } else {
        named_tool(tool, inputs, seen, notes)
    }
}

// The one that the target wants.
#[tactic(auto, using(crate::proofs::PassBy::pass_by), unfolding(crate::specs::ArchiveTool::target_tool))]
fn target_tool(
    tool: ArchiveTool,
    inputs: &Inputs<'_>,
    seen: &Answers,
    notes: &mut Notes,
) -> Planned<Text>
    ensures { Passes seen.now notes.old notes.new
        (spec.target_tool tool inputs.now.set.now inputs.now.env.now) result }
{
    if inputs.target.os == "android" {
        android_tool(tool, inputs, seen, notes)
    } else {
        studio_or_named(tool, inputs, seen, notes)
    }
}

// That of Clang for WebAssembly, else the one that the target wants.
#[tactic(auto, using(crate::proofs::PassBy::pass_by), unfolding(crate::specs::ArchiveTool::wasm_or_target, cc_tool::specs::Plans::or_else))]
fn wasm_or_target(
    tool: ArchiveTool,
    inputs: &Inputs<'_>,
    seen: &Answers,
    notes: &mut Notes,
) -> Planned<Text>
    ensures { Passes seen.now notes.old notes.new
        (spec.wasm_or_target tool inputs.now.set.now inputs.now.env.now) result }
{
    match wasm_tool(tool, inputs, seen, notes)? {
        Some(path) => Ok(path),
        None => target_tool(tool, inputs, seen, notes),
    }
}

// The one where neither settings nor environment name one. Emscripten has its own.
#[tactic(auto, using(crate::proofs::PassBy::pass_by), unfolding(crate::specs::ArchiveTool::own_tool))]
fn own_tool(
    tool: ArchiveTool,
    inputs: &Inputs<'_>,
    seen: &Answers,
    notes: &mut Notes,
) -> Planned<Text>
    ensures { Passes seen.now notes.old notes.new
        (spec.own_tool tool inputs.now.set.now inputs.now.env.now) result }
{
    if inputs.target.os == "emscripten" {
        Ok(behind(inputs.alloc, "em", tool)?)
    } else {
        wasm_or_target(tool, inputs, seen, notes)
    }
}

// The same with its words.
#[tactic(auto, using(crate::proofs::PassBy::pass_by), unfolding(crate::specs::ArchiveTool::own_choice))]
fn own_choice(
    tool: ArchiveTool,
    inputs: &Inputs<'_>,
    seen: &Answers,
    notes: &mut Notes,
) -> Planned<Choice>
    ensures { Passes seen.now notes.old notes.new
        (spec.own_choice tool inputs.now.set.now inputs.now.env.now) result }
{
    let path = own_tool(tool, inputs, seen, notes)?;
    let mut choice = bare(inputs.alloc, path.as_str())?;
    push_machine_words(&mut choice.words, inputs.target, path.as_str())?;
    Ok(choice)
}

// The one that the environment names, with its words.
#[tactic(auto, using(crate::proofs::PassBy::pass_by), unfolding(crate::specs::ArchiveTool::named_choice))]
fn named_choice(
    tool: ArchiveTool,
    inputs: &Inputs<'_>,
    seen: &Answers,
    notes: &mut Notes,
) -> Planned<Option<Choice>>
    ensures { Passes seen.now notes.old notes.new
        (spec.named_choice tool inputs.now.set.now inputs.now.env.now) result }
{
    let variable = tool_variable(tool);
    env_tool(inputs.alloc, inputs.set, inputs.env, variable, seen, notes)
}

// The target's own, where it has a name.
#[tactic(auto, using(crate::proofs::HaltBy::halt_by), unfolding(crate::specs::ArchivePlan::named_or_own))]
fn own_or_refused(
    tool: ArchiveTool,
    inputs: &Inputs<'_>,
    seen: &Answers,
    notes: &mut Notes,
) -> Halting<Choice>
    ensures { Tries seen.now notes.old notes.new
        (plan.named_or_own tool inputs.now.set.now inputs.now.env.now None) result }
{
    check_qnx_arch(inputs.alloc, inputs.target)?;
    let own = own_choice(tool, inputs, seen, notes)?;
    Ok(own)
}

// The one where the settings name none.
#[tactic(auto, using(crate::proofs::HaltBy::halt_by), unfolding(crate::specs::ArchivePlan::found_tool, crate::specs::ArchivePlan::named_or_own))]
fn found_tool(
    tool: ArchiveTool,
    inputs: &Inputs<'_>,
    seen: &Answers,
    notes: &mut Notes,
) -> Halting<Choice>
    ensures { Tries seen.now notes.old notes.new
        (plan.found_tool tool inputs.now.set.now inputs.now.env.now) result }
{
    match named_choice(tool, inputs, seen, notes)? {
        Some(choice) => Ok(choice),
        None => own_or_refused(tool, inputs, seen, notes),
    }
}

// The same for a target that is known.
#[tactic(auto, using(crate::proofs::HaltBy::halt_by), unfolding(crate::specs::ArchivePlan::set_or_found))]
fn known_tool(
    tool: ArchiveTool,
    alloc: Global,
    set: &BuildConfig,
    env: &BuildEnv,
    seen: &Answers,
    notes: &mut Notes,
) -> Halting<Choice>
    ensures { Tries seen.now notes.old notes.new (plan.set_or_found tool set.now env.now None) result }
{
    let target = known_target(alloc, set, env)?;
    let handed = read_handed(alloc, env.inherited())?;
    let inputs = Inputs {
        alloc,
        set,
        env,
        handed: &handed,
        target: &target,
    };
    found_tool(tool, &inputs, seen, notes)
}

/// A tool of archives: the set one, else that of the environment with its words, else the one that the target wants.
///
/// Where the settings name none, refused where the target is set nowhere or isn't known, or where it is QNX on an
/// architecture for which its tools have no name and the environment names none.
#[tactic(auto, using(crate::proofs::HaltBy::halt_by), unfolding(crate::specs::ArchivePlan::chosen_tool, crate::specs::ArchivePlan::set_or_found))]
pub(crate) fn archive_tool(
    tool: ArchiveTool,
    alloc: Global,
    set: &BuildConfig,
    env: &BuildEnv,
    seen: &Answers,
    notes: &mut Notes,
) -> Halting<Choice>
    ensures { Tries seen.now notes.old notes.new (plan.chosen_tool tool set.now env.now) result }
{
    match set_program(tool, set) {
        Some(path) => Ok(bare(alloc, path)?),
        None => known_tool(tool, alloc, set, env, seen, notes),
    }
}
