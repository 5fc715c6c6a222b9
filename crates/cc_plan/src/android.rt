// The compiler for Android.
ghost use Rattle.std.specs.Prelude.{◌≡◌, IfOk};
ghost use Rattle.std.specs.Option.{option_copied};
ghost use Rattle.cc_plan.specs.Android as spec;
ghost use Rattle.cc_tool.specs.Plans.{Passes};

use cc_env::BuildEnv;
use cc_flags::{clang_name, gnu_name, kit_compiler, older_name};
use cc_host::{Ask, Question, is_yes};
use cc_text::{Mem, Text, Words};
use cc_tool::{Answers, Notes, Planned, verdict};
use std::alloc::Global;

fn starts_of(alloc: Global, env: &BuildEnv, program: &str) -> Mem<Question>
    ensures { IfOk result (λ q. q ≡ spec.starts_question env.now program.now) }
{
    Ok(Question {
        ask: Ask::Starts,
        program: Text::of(alloc, program)?,
        words: Words::new(alloc),
        vars: env.inherited().vars().try_clone()?,
    })
}

// The program can be run.
#[tactic(auto, using(crate::proofs::PassBy::pass_by), unfolding(crate::specs::Android::can_start))]
fn can_start(
    alloc: Global,
    env: &BuildEnv,
    program: &str,
    seen: &Answers,
    notes: &mut Notes,
) -> Planned<bool>
    ensures { Passes seen.now notes.old notes.new (spec.can_start env.now program.now) result }
{
    let question = starts_of(alloc, env, program)?;
    let verdict = verdict(alloc, question, seen, notes)?;
    Ok(is_yes(&verdict))
}

// GCC by the target's name where it can be run, else Clang. Kits up to release 17 had GCC.
#[tactic(auto, using(crate::proofs::PassBy::pass_by), unfolding(crate::specs::Android::older_compiler))]
fn older_compiler(
    alloc: Global,
    cpp: bool,
    env: &BuildEnv,
    name: &str,
    seen: &Answers,
    notes: &mut Notes,
) -> Planned<Text>
    ensures { Passes seen.now notes.old notes.new (spec.older_compiler cpp env.now name.now) result }
{
    let gnu = older_name(alloc, name, gnu_name(cpp))?;
    if can_start(alloc, env, gnu.as_str(), seen, notes)? {
        return Ok(gnu);
    }
    let clang = older_name(alloc, name, clang_name(cpp))?;
    Ok(clang)
}

// A program, where it can be run.
#[tactic(auto, using(crate::proofs::PassBy::pass_by), unfolding(crate::specs::Android::if_started))]
fn if_started(
    alloc: Global,
    env: &BuildEnv,
    program: Option<&str>,
    seen: &Answers,
    notes: &mut Notes,
) -> Planned<Option<Text>>
    ensures { Passes seen.now notes.old notes.new
        (spec.if_started env.now (option_copied program.entry)) result }
{
    match program {
        Some(program) => {
            if can_start(alloc, env, program, seen, notes)? {
                Ok(Some(Text::of(alloc, program)?))
            } else {
                Ok(None)
            }
        }
        None => Ok(None),
    }
}

// The compiler for a target: that of the development kit, where it has one that can be run, else an older one.
#[tactic(auto, using(crate::proofs::PassBy::pass_by), unfolding(crate::specs::Android::android_compiler, cc_tool::specs::Plans::or_else))]
pub(crate) fn android_compiler(
    alloc: Global,
    cpp: bool,
    env: &BuildEnv,
    name: &str,
    seen: &Answers,
    notes: &mut Notes,
) -> Planned<Text>
    ensures { Passes seen.now notes.old notes.new (spec.android_compiler cpp env.now name.now) result }
{
    match if_started(alloc, env, kit_compiler(name), seen, notes)? {
        Some(path) => Ok(path),
        None => older_compiler(alloc, cpp, env, name, seen, notes),
    }
}
