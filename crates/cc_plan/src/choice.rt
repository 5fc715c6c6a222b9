// The choice of the compiler.
ghost use Rattle.std.specs.Prelude.{◌≡◌, IfOk};
ghost use Rattle.std.specs.Option.{option_copied};
ghost use Rattle.cc_env.specs.Env.{overridable};
ghost use Rattle.cc_plan.specs.Choice as spec;
ghost use Rattle.cc_tool.specs.Plans.{Passes};
ghost use Rattle.cc_target.specs.Targets.{info_seen};

use crate::android::android_compiler;
use crate::env_tool::env_tool;
use crate::prefix::prefix_for;
use crate::search::which;
use cc_env::BuildEnv;
use cc_flags::{
    Choice, Inputs, bare, clang_name, compiler_variable, emscripten_name, fixed_compiler,
    in_rustc_wrapper, is_cross, links_by_plugin, prefixed_compiler, target_name, traditional_name,
    wasi_path,
};
use cc_text::{Mem, Text, Words};
use cc_tool::{Answers, Notes, Planned, note_names};
use std::alloc::Global;

fn is_set(env: &BuildEnv, name: &str) -> bool
    ensures { result ≡ spec.is_set env.now name.now }
{
    env.explicit()
        .as_slice()
        .iter()
        .any(|var| var.0.as_str() == name)
}

// The name, unless a setter gives the variable.
fn unless_set(alloc: Global, env: &BuildEnv, name: &str) -> Mem<Words>
    ensures { IfOk result (λ names. names ≡ spec.unless_set env.now name.now) }
{
    let mut names = Words::new(alloc);
    if !is_set(env, name) {
        names.push(name)?;
    }
    Ok(names)
}

// Clang in a kit for WASI, where that has it.
#[tactic(auto, using(crate::proofs::PassBy::pass_by), unfolding(crate::specs::Choice::in_kit))]
fn in_kit(
    inputs: &Inputs<'_>,
    name: &str,
    kit: Option<&str>,
    seen: &Answers,
    notes: &mut Notes,
) -> Planned<Option<Text>>
    ensures { Passes seen.now notes.old notes.new
        (spec.in_kit inputs.now.env.now name.now (option_copied kit.entry)) result }
{
    match kit {
        Some(kit) => {
            let path = wasi_path(inputs.alloc, kit, name)?;
            which(inputs.alloc, inputs.env, path.as_str(), seen, notes)
        }
        None => Ok(None),
    }
}

// Clang in the kit of WASI, where that has it.
#[tactic(auto, using(crate::proofs::PassBy::pass_by), unfolding(crate::specs::Choice::wasi_kit_compiler))]
fn wasi_kit_compiler(
    inputs: &Inputs<'_>,
    name: &str,
    seen: &Answers,
    notes: &mut Notes,
) -> Planned<Option<Text>>
    ensures { Passes seen.now notes.old notes.new
        (spec.wasi_kit_compiler inputs.now.env.now name.now) result }
{
    let names = unless_set(inputs.alloc, inputs.env, "WASI_SDK_PATH")?;
    note_names(&names, seen, notes)?;
    let kit = inputs.env.overridable("WASI_SDK_PATH");
    in_kit(inputs, name, kit, seen, notes)
}

// Clang for WASI.
#[tactic(auto, using(crate::proofs::PassBy::pass_by), unfolding(crate::specs::Choice::wasi_compiler))]
fn wasi_compiler(
    inputs: &Inputs<'_>,
    name: &str,
    seen: &Answers,
    notes: &mut Notes,
) -> Planned<Text>
    ensures { Passes seen.now notes.old notes.new
        (spec.wasi_compiler inputs.now.set.now.cpp inputs.now.env.now name.now) result }
{
    match wasi_kit_compiler(inputs, name, seen, notes)? {
        Some(path) => Ok(path),
        None => Ok(Text::of(inputs.alloc, clang_name(inputs.set.cpp))?),
    }
}

// Clang, where it is wanted for the linker's plugin and found.
#[tactic(auto, using(crate::proofs::PassBy::pass_by), unfolding(crate::specs::Choice::plugin_compiler))]
fn plugin_compiler(inputs: &Inputs<'_>, seen: &Answers, notes: &mut Notes) -> Planned<Option<Text>>
    ensures { Passes seen.now notes.old notes.new
        (spec.plugin_compiler inputs.now.set.now.cpp inputs.now.env.now) result }
{
    if links_by_plugin(inputs) {
        let name = clang_name(inputs.set.cpp);
        which(inputs.alloc, inputs.env, name, seen, notes)
    } else {
        Ok(None)
    }
}

// The compiler of the system.
#[tactic(auto, using(crate::proofs::PassBy::pass_by), unfolding(crate::specs::Choice::default_compiler))]
fn default_compiler(inputs: &Inputs<'_>, seen: &Answers, notes: &mut Notes) -> Planned<Text>
    ensures { Passes seen.now notes.old notes.new
        (spec.default_compiler inputs.now.set.now.cpp inputs.now.env.now) result }
{
    match plugin_compiler(inputs, seen, notes)? {
        Some(path) => Ok(path),
        None => Ok(Text::of(inputs.alloc, traditional_name(inputs.set.cpp))?),
    }
}

// The prefix of compilers for another target than the host.
#[tactic(auto, using(crate::proofs::PassBy::pass_by), unfolding(crate::specs::Choice::cross_prefix))]
pub(crate) fn cross_prefix(
    inputs: &Inputs<'_>,
    seen: &Answers,
    notes: &mut Notes,
) -> Planned<Option<Text>>
    ensures { Passes seen.now notes.old notes.new
        (spec.cross_prefix inputs.now.set.now inputs.now.env.now) result }
{
    if is_cross(inputs.set, inputs.env) {
        let name = target_name(inputs.set, inputs.env);
        prefix_for(inputs.alloc, inputs.set, inputs.env, name, seen, notes)
    } else {
        Ok(None)
    }
}

// The compiler for another target than the host, where it has a prefix; else that of the system.
#[tactic(auto, using(crate::proofs::PassBy::pass_by), unfolding(crate::specs::Choice::cross_compiler, crate::specs::Choice::prefixed_or_default))]
fn cross_compiler(inputs: &Inputs<'_>, seen: &Answers, notes: &mut Notes) -> Planned<Text>
    ensures { Passes seen.now notes.old notes.new
        (spec.cross_compiler inputs.now.set.now inputs.now.env.now) result }
{
    match cross_prefix(inputs, seen, notes)? {
        Some(prefix) => {
            let (cpp, target) = (inputs.set.cpp, inputs.target);
            let name = prefixed_compiler(inputs.alloc, cpp, target, prefix.as_str())?;
            Ok(name)
        }
        None => default_compiler(inputs, seen, notes),
    }
}

#[tactic(auto, using(crate::proofs::PassBy::pass_by), unfolding(crate::specs::Choice::fixed_or_cross, cc_tool::specs::Plans::or_else))]
fn fixed_or_cross(inputs: &Inputs<'_>, seen: &Answers, notes: &mut Notes) -> Planned<Text>
    ensures { Passes seen.now notes.old notes.new
        (spec.fixed_or_cross inputs.now.set.now inputs.now.env.now) result }
{
    match fixed_compiler(inputs.set.cpp, inputs.target) {
        Some(name) => Ok(Text::of(inputs.alloc, name)?),
        None => cross_compiler(inputs, seen, notes),
    }
}

// The compiler that the target wants.
#[tactic(auto, using(crate::proofs::PassBy::pass_by), unfolding(crate::specs::Choice::target_compiler))]
fn target_compiler(inputs: &Inputs<'_>, seen: &Answers, notes: &mut Notes) -> Planned<Text>
    ensures { Passes seen.now notes.old notes.new
        (spec.target_compiler inputs.now.set.now inputs.now.env.now) result }
{
    let name = target_name(inputs.set, inputs.env);
    if inputs.target.os == "android" {
        android_compiler(inputs.alloc, inputs.set.cpp, inputs.env, name, seen, notes)
    } else if inputs.target.os == "wasi" {
        wasi_compiler(inputs, name, seen, notes)
    } else {
        fixed_or_cross(inputs, seen, notes)
    }
}

// That compiler, run through that of Rust code where it serves other compilers, too.
#[tactic(auto, using(crate::proofs::PassBy::pass_by), unfolding(crate::specs::Choice::target_choice))]
fn target_choice(inputs: &Inputs<'_>, seen: &Answers, notes: &mut Notes) -> Planned<Choice>
    ensures { Passes seen.now notes.old notes.new
        (spec.target_choice inputs.now.set.now inputs.now.env.now) result }
{
    let alloc = inputs.alloc;
    let path = target_compiler(inputs, seen, notes)?;
    let choice = in_rustc_wrapper(alloc, inputs.env, path.as_str(), Words::new(alloc))?;
    Ok(choice)
}

// The compiler where neither settings nor environment name one.
#[tactic(auto, using(crate::proofs::PassBy::pass_by), unfolding(crate::specs::Choice::own_choice))]
fn own_choice(inputs: &Inputs<'_>, seen: &Answers, notes: &mut Notes) -> Planned<Choice>
    ensures { Passes seen.now notes.old notes.new
        (spec.own_choice inputs.now.set.now inputs.now.env.now) result }
{
    if inputs.target.os == "emscripten" {
        Ok(bare(inputs.alloc, emscripten_name(inputs.set.cpp))?)
    } else {
        target_choice(inputs, seen, notes)
    }
}

// The one that the environment names, else that one.
#[tactic(auto, using(crate::proofs::PassBy::pass_by), unfolding(crate::specs::Choice::named_or_own, cc_tool::specs::Plans::or_else))]
fn named_or_own(inputs: &Inputs<'_>, seen: &Answers, notes: &mut Notes) -> Planned<Choice>
    ensures { Passes seen.now notes.old notes.new
        (spec.named_or_own inputs.now.set.now inputs.now.env.now) result }
{
    let variable = compiler_variable(inputs.set.cpp);
    match env_tool(inputs.alloc, inputs.set, inputs.env, variable, seen, notes)? {
        Some(choice) => Ok(choice),
        None => own_choice(inputs, seen, notes),
    }
}

// The variable that may prefer Clang, for Visual Studio's targets.
fn preferring(inputs: &Inputs<'_>) -> Mem<Words>
    ensures { IfOk result (λ names. names ≡ spec.preferring (info_seen inputs.now.target.now)) }
{
    let mut names = Words::new(inputs.alloc);
    if inputs.target.env == "msvc" {
        names.push("CC_PREFER_CLANG_CL_OVER_MSVC")?;
    }
    Ok(names)
}

// The compiler where the settings name none.
#[tactic(auto, using(crate::proofs::PassBy::pass_by), unfolding(crate::specs::Choice::found_choice))]
fn found_choice(inputs: &Inputs<'_>, seen: &Answers, notes: &mut Notes) -> Planned<Choice>
    ensures { Passes seen.now notes.old notes.new
        (spec.found_choice inputs.now.set.now inputs.now.env.now) result }
{
    let names = preferring(inputs)?;
    note_names(&names, seen, notes)?;
    named_or_own(inputs, seen, notes)
}

/// The compiler: the set one, else that of the environment, else the one that the target wants.
#[tactic(auto, using(crate::proofs::PassBy::pass_by), unfolding(crate::specs::Choice::choice, crate::specs::Choice::chosen))]
pub(crate) fn choose(inputs: &Inputs<'_>, seen: &Answers, notes: &mut Notes) -> Planned<Choice>
    ensures { Passes seen.now notes.old notes.new
        (spec.choice inputs.now.set.now inputs.now.env.now) result }
{
    match &inputs.set.compiler {
        Some(path) => Ok(bare(inputs.alloc, path.as_str())?),
        None => found_choice(inputs, seen, notes),
    }
}
