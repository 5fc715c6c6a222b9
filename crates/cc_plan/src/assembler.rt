// The assembler of sources in the languages of Visual Studio: MASM (Microsoft's "Microsoft Macro Assembler reference")
// and that of its assembler for Arm (Microsoft's "ARM Assembler Reference").
ghost use Rattle.std.specs.Prelude.{◌≡◌, IfOk};
ghost use Rattle.cc_target.specs.Targets.{info_seen};
ghost use Rattle.cc_plan.specs.Asking.{AsksForAssembler, SettledIn};
ghost use Rattle.cc_flags.specs.Variables.{option_names};
ghost use Rattle.cc_plan.specs.Assembler as spec;
ghost use Rattle.cc_plan.specs.Refusal.{AllowedBy, RefusedBy, target_refusal};
ghost use Rattle.cc_tool.specs.Plans.{Passes};

use crate::beside::beside;
use crate::checks::known_target;
use crate::env_tool::env_tool;
use crate::search::which_in;
use crate::sight::settle_in;
use crate::tool::{push_args, push_entries};
use crate::{PlanError, Sight};
use cc_env::BuildEnv;
use cc_flags::{
    Assembly, BuildConfig, Choice, assembler_words, bare, is_llvm, is_x86, studio_assembler,
    want_assembler,
};
use cc_host::{Host, World};
use cc_target::TargetInfo;
use cc_text::{Mem, Text, ToolFamily, Words};
use cc_tool::{Answers, Notes, Planned, Planner, Tool, note_names};
use std::alloc::Global;
use std::sync::Wait;

// Where a tool is that a command would find, whose `PATH` may be another than the one that was inherited.
#[tactic(auto, using(crate::proofs::PassBy::pass_by), unfolding(crate::specs::Assembler::which_in_command))]
fn which_in_command(
    given: &Assembly<'_>,
    tool: &str,
    seen: &Answers,
    notes: &mut Notes,
) -> Planned<Option<Text>>
    ensures { Passes seen.now notes.old notes.new
        (spec.which_in_command given.now.env.now tool.now) result }
{
    let list = given.env.overridable("PATH");
    which_in(given.alloc, given.env, list, tool, seen, notes)
}

// That of LLVM: next to clang-cl, else where a command would find it.
#[tactic(auto, using(crate::proofs::PassBy::pass_by), unfolding(crate::specs::Assembler::llvm_assembler, crate::specs::Assembler::or_in_command))]
fn llvm_assembler(given: &Assembly<'_>, seen: &Answers, notes: &mut Notes) -> Planned<Option<Text>>
    ensures { Passes seen.now notes.old notes.new
        (spec.llvm_assembler given.now.env.now given.now.family given.now.path.now) result }
{
    let (family, path) = (given.family, given.path);
    match beside(given.alloc, given.env, family, path, "llvm-ml", seen, notes)? {
        Some(found) => Ok(Some(found)),
        None => which_in_command(given, "llvm-ml", seen, notes),
    }
}

// That of LLVM, where a command wouldn't find this one.
#[tactic(auto, using(crate::proofs::PassBy::pass_by), unfolding(crate::specs::Assembler::unless_found))]
fn unless_found(
    given: &Assembly<'_>,
    name: &str,
    seen: &Answers,
    notes: &mut Notes,
) -> Planned<Option<Text>>
    ensures { Passes seen.now notes.old notes.new
        (spec.unless_found given.now.env.now given.now.family given.now.path.now name.now) result }
{
    if which_in_command(given, name, seen, notes)?.is_some() {
        Ok(None)
    } else {
        llvm_assembler(given, seen, notes)
    }
}

// It stands in for that of Visual Studio, as where a machine without Visual Studio compiles for Windows.
#[tactic(auto, using(crate::proofs::PassBy::pass_by), unfolding(crate::specs::Assembler::stand_in))]
fn stand_in(given: &Assembly<'_>, seen: &Answers, notes: &mut Notes) -> Planned<Option<Text>>
    ensures { Passes seen.now notes.old notes.new
        (spec.stand_in given.now.env.now (info_seen given.now.target.now) given.now.family given.now.path.now) result }
{
    if is_x86(given.target) {
        unless_found(given, studio_assembler(given.target), seen, notes)
    } else {
        Ok(None)
    }
}

// That of Visual Studio, or the one that stands in for it.
#[tactic(auto, using(crate::proofs::PassBy::pass_by), unfolding(crate::specs::Assembler::own_assembler))]
fn own_assembler(given: &Assembly<'_>, seen: &Answers, notes: &mut Notes) -> Planned<Text>
    ensures { Passes seen.now notes.old notes.new
        (spec.own_assembler given.now.env.now (info_seen given.now.target.now) given.now.family given.now.path.now) result }
{
    match stand_in(given, seen, notes)? {
        Some(path) => Ok(path),
        None => Ok(Text::of(given.alloc, studio_assembler(given.target))?),
    }
}

// The one where the environment names none.
#[tactic(auto, using(crate::proofs::PassBy::pass_by), unfolding(crate::specs::Assembler::own_choice))]
fn own_choice(given: &Assembly<'_>, seen: &Answers, notes: &mut Notes) -> Planned<Choice>
    ensures { Passes seen.now notes.old notes.new
        (spec.own_choice given.now.env.now (info_seen given.now.target.now) given.now.family given.now.path.now) result }
{
    let path = own_assembler(given, seen, notes)?;
    let choice = bare(given.alloc, path.as_str())?;
    Ok(choice)
}

// The assembler: that of `CC_MASM_ASM` with its words, else that of Visual Studio for the architecture, for which on
// x86 that of LLVM stands in where a command wouldn't find it. No wrapper runs it.
#[tactic(auto, using(crate::proofs::PassBy::pass_by), unfolding(crate::specs::Assembler::assembler_choice, cc_tool::specs::Plans::or_else))]
fn assembler_choice(given: &Assembly<'_>, seen: &Answers, notes: &mut Notes) -> Planned<Choice>
    ensures { Passes seen.now notes.old notes.new
        (spec.assembler_choice given.now.set.now given.now.env.now (info_seen given.now.target.now) given.now.family given.now.path.now) result }
{
    match env_tool(
        given.alloc,
        given.set,
        given.env,
        "CC_MASM_ASM",
        seen,
        notes,
    )? {
        Some(choice) => Ok(choice),
        None => own_choice(given, seen, notes),
    }
}

// The tool of a choice, with its words, in the environment of a child.
fn chosen_assembler(given: &Assembly<'_>, choice: &Choice) -> Mem<Tool>
    ensures { IfOk result (λ tool. tool ≡ spec.chosen_assembler given.now.set.now given.now.env.now
        (info_seen given.now.target.now) choice.now) }
{
    let words = assembler_words(given, choice)?;
    let family = ToolFamily::Msvc { clang_cl: false };
    let inherited = given.env.inherited().try_clone()?;
    let mut tool = Tool::with_family(given.alloc, choice.path.as_str(), family, inherited)?;
    push_args(&mut tool, &words)?;
    push_entries(&mut tool, given.env)?;
    Ok(tool)
}

// Microsoft's assemblers for x86 take words from `ML` too ("ML and ML64 command-line reference", "Environment
// variables").
#[tactic(auto, unfolding(cc_flags::specs::Variables::option_names))]
fn option_names(alloc: Global, target: &TargetInfo, path: &str) -> Mem<Words>
    ensures { IfOk result (λ names. names ≡ option_names (info_seen target.now) path.now) }
{
    let mut names = Words::new(alloc);
    if !target.is_arm() && !is_llvm(path) {
        names.push("ML")?;
    }
    Ok(names)
}

// The same, which may take words from a variable.
#[tactic(auto, using(crate::proofs::PassBy::pass_by), unfolding(crate::specs::Assembler::noted_assembler))]
fn noted_assembler(
    given: &Assembly<'_>,
    choice: &Choice,
    seen: &Answers,
    notes: &mut Notes,
) -> Planned<Tool>
    ensures { Passes seen.now notes.old notes.new
        (spec.noted_assembler given.now.set.now given.now.env.now
        (info_seen given.now.target.now) choice.now) result }
{
    let names = option_names(given.alloc, given.target, choice.path.as_str())?;
    note_names(&names, seen, notes)?;
    let tool = chosen_assembler(given, choice)?;
    Ok(tool)
}

// The assembler.
#[tactic(auto, using(crate::proofs::PassBy::pass_by), unfolding(crate::specs::Assembler::assembler_by))]
pub(crate) fn assembler_by(given: &Assembly<'_>, seen: &Answers, notes: &mut Notes) -> Planned<Tool>
    ensures { Passes seen.now notes.old notes.new
        (spec.assembler_by given.now.set.now given.now.env.now (info_seen given.now.target.now) given.now.family given.now.path.now) result }
{
    let choice = assembler_choice(given, seen, notes)?;
    noted_assembler(given, &choice, seen, notes)
}

/// The assembler that the sources want, if any.
#[tactic(auto, using(crate::proofs::PassBy::pass_by), unfolding(crate::specs::Assembler::wanted_assembler))]
pub(crate) fn wanted_assembler(
    given: &Assembly<'_>,
    seen: &Answers,
    notes: &mut Notes,
) -> Planned<Option<Tool>>
    ensures { Passes seen.now notes.old notes.new
        (spec.wanted_assembler given.now.set.now given.now.env.now (info_seen given.now.target.now) given.now.family given.now.path.now) result }
{
    let sources = given.set.files.as_slice();
    if want_assembler(given.target, sources) {
        let assembler = assembler_by(given, seen, notes)?;
        Ok(Some(assembler))
    } else {
        Ok(None)
    }
}

// The plan of an assembler.
#[derive(Drop)]
struct AssemblerPlan<'a> {
    given: Assembly<'a>,
}

impl<'a> Planner for AssemblerPlan<'a> {
    type Value = Tool;

    ghost plan = { λ p. spec.assembler_by p.given.set.now p.given.env.now
        (info_seen p.given.target.now) p.given.family p.given.path.now };

    fn pass(&self, seen: &Answers, notes: &mut Notes) -> Planned<Tool> {
        assembler_by(&self.given, seen, notes)
    }
}

/// The assembler of sources in MASM, or in the language of Microsoft's assembler for Arm, for the compiler that this
/// tool is: that of `CC_MASM_ASM` with its words, else that of Visual Studio for the architecture, for which on x86
/// `llvm-ml` stands in where a command wouldn't find it; then the words of the settings in its form (Microsoft's "ML
/// and ML64 command-line reference" and "ARM Assembler command-line reference"). No wrapper runs it, and its commands
/// get the explicit variables of the environment.
///
/// Refused where the target is set nowhere or isn't known; and for memory. The answers until then stay in the sight.
#[tactic(auto, using(crate::proofs::AskingLemmas::only_none))]
pub fn assembler_of<W: World, H: Host<W>>(
    rt: &impl Wait,
    alloc: Global,
    set: &BuildConfig,
    env: &BuildEnv,
    tool: &Tool,
    sight: &mut Sight<'_, W, H>,
) -> Result<Tool, PlanError>
    ensures asks { AsksForAssembler W.steady W.answer H.log H.patience set.now env.now tool.now
        sight.old sight.new }
    ensures settles { SettledIn sight.new (spec.assembler_of set.now env.now tool.now) result }
    ensures allowed { AllowedBy (target_refusal set.now env.now) result }
    ensures refused { RefusedBy (target_refusal set.now env.now) result }
{
    let target = known_target(alloc, set, env)?;
    let planner = AssemblerPlan {
        given: Assembly {
            alloc,
            set,
            env,
            target: &target,
            family: tool.family(),
            path: tool.path(),
        },
    };
    let found = settle_in(rt, alloc, &planner, sight)?;
    Ok(found.value)
}
