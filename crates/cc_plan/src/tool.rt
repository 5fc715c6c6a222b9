// The tool of a compile command: the compiler with the words and variables that all sources share.
ghost use Rattle.std.specs.Prelude.{◌≡◌, ◌++◌, ◌&&◌, Bool, false, IfOk, IfErr, OnOk, Some};
ghost use Rattle.cc_host.specs.Question.{Settles};
ghost use Rattle.cc_flags.specs.Compilation.{seen as shown};
ghost use Rattle.cc_plan.specs.Asking.{IsOwn, AsksToPlan, AsksThenWarns, SettledIn, AllowedIn, RefusedIn, RefusedInOrByPrint};
ghost use Rattle.cc_plan.specs.Plan.{tool_warnings};
ghost use Rattle.cc_plan.specs.Questions.{PlanAsks};
ghost use Rattle.cc_plan.specs.Refusal.{tool_refusal};
ghost use Rattle.cc_plan.specs.Planned.{warnings_of, tool_of};
ghost use Rattle.cc_plan.specs.Tool.{detected_warnings, found_warnings, other_warnings, marked_by, wrapped_tool, tool_by, unmarked_by};
ghost use Rattle.cc_plan.specs.Halts.{Tries};
ghost use Rattle.cc_plan.specs.ToolPlan as spec;
ghost use Rattle.cc_tool.specs.Plans.{Passes};
ghost use Rattle.cc_flags.specs.Warnings.{language_variable};

use crate::checks::{check_compiler, given_target};
use crate::compiler::compiler_of;
use crate::halt::{Halting, outcome, own_refusal};
use crate::printing::warn_of;
use crate::sight::settle_in;
use crate::support::supported_words;
use crate::{PlanError, Sight};
use cc_env::BuildEnv;
use cc_flags::{
    BuildConfig, Compilation, Compiler, Inputs, Supported, language_variable, leaves_off,
    push_gnu_warning, push_lacks, push_link_warning, read_handed, target_info, tool_warnings,
    tool_words, words_names,
};
use cc_host::{Host, World};
use cc_text::{Mem, Words, quoted};
use cc_tool::{Answers, Caches, Detected, Notes, Planned, Planner, Tool, note_names};
use std::alloc::Global;
use std::sync::Wait;

/// A tool with what a user is warned of.
#[derive(Drop)]
struct ToolPlan {
    tool: Tool,
    warned: Warned,
}

/// Warnings, and whether the call is the first of its caches that leaves off flags for the linker, which warns of it
/// for all.
#[derive(Drop, Debug)]
pub(crate) struct Warned {
    pub is_first: bool,
    pub warnings: Words,
}

/// Warnings, but for that of flags for the linker, and whether such flags are left off.
#[derive(Drop, Debug)]
pub(crate) struct Unmarked {
    pub warnings: Words,
    pub leaves_off: bool,
}

/// A tool with what a user may be warned of.
#[derive(Drop)]
pub(crate) struct QuietTool {
    pub tool: Tool,
    pub unmarked: Unmarked,
}

// A tool of the compiler, with its wrapper.
fn wrapped_tool(alloc: Global, env: &BuildEnv, compiler: &Compiler) -> Mem<Tool>
    ensures { IfOk result (λ tool. tool ≡ wrapped_tool env.now compiler.now) }
{
    let inherited = env.inherited().try_clone()?;
    let path = compiler.choice.path.as_str();
    let mut tool = Tool::with_family(alloc, path, compiler.family, inherited)?;
    if let Some(wrapper) = &compiler.choice.wrapper {
        tool.set_wrapper(wrapper.as_str())?;
    }
    Ok(tool)
}

fn push_wrapper_words(tool: &mut Tool, words: &Words) -> Mem<()>
    ensures { OnOk result (tool.new
        ≡ record tool.old { wrapper_words = tool.old.wrapper_words ++ words.now }) }
{
    for word in words.as_slice() {
        tool.push_wrapper_arg(word.as_str())?;
    }
    Ok(())
}

pub(crate) fn push_args(tool: &mut Tool, words: &Words) -> Mem<()>
    ensures { OnOk result (tool.new ≡ record tool.old { args = tool.old.args ++ words.now }) }
{
    for word in words.as_slice() {
        tool.push_arg(word.as_str())?;
    }
    Ok(())
}

pub(crate) fn push_entries(tool: &mut Tool, env: &BuildEnv) -> Mem<()>
    ensures { OnOk result (tool.new
        ≡ record tool.old { entries = tool.old.entries ++ env.now.explicit }) }
{
    for entry in env.explicit().as_slice() {
        tool.push_env(entry.0.as_str(), entry.1.as_str())?;
    }
    Ok(())
}

// The tool of a compiler, where these words are supported.
fn tool_by(given: &Compilation<'_>, supported: &Supported) -> Mem<Tool>
    ensures { IfOk result (λ tool. tool ≡ tool_by (shown given.now) supported.now) }
{
    let compiler = given.compiler;
    let words = tool_words(given, supported)?;
    let (name, value) = language_variable(compiler.family);
    let mut tool = wrapped_tool(given.alloc, given.env, compiler)?;
    push_wrapper_words(&mut tool, &compiler.choice.words)?;
    push_args(&mut tool, &words)?;
    tool.push_env(name, value)?;
    push_entries(&mut tool, given.env)?;
    Ok(tool)
}

// How the family of the compiler was found, where a user is warned of it.
fn detection_warnings(alloc: Global, compiler: &Compiler) -> Mem<Words>
    ensures { IfOk result (λ warnings. warnings ≡ detected_warnings compiler.now) }
{
    let mut warnings = Words::new(alloc);
    match compiler.detected {
        Detected::Marks => return Ok(warnings),
        Detected::NoMarks => {}
        Detected::Failed => {
            warnings.push("Compiler family detection failed, no known macro is defined")?;
        }
    }
    let path = quoted(alloc, compiler.choice.path.as_str())?;
    warnings.push_joined("Compiler family detection failed for ", path.as_str())?;
    Ok(warnings)
}

/// How the compiler was found, and that it isn't one for the target, where a user is warned of it. Only want of memory
/// refuses.
pub(crate) fn found_warnings(given: &Compilation<'_>) -> Mem<Words>
    ensures { IfOk result (λ warnings. warnings ≡ found_warnings (shown given.now)) }
{
    let mut warnings = detection_warnings(given.alloc, given.compiler)?;
    push_gnu_warning(&mut warnings, given)?;
    Ok(warnings)
}

// What a user is warned of, but for flags that are left off.
fn other_warnings(given: &Compilation<'_>, supported: &Supported) -> Mem<Words>
    ensures { IfOk result (λ warnings. warnings ≡ other_warnings (shown given.now) supported.now) }
{
    let mut warnings = found_warnings(given)?;
    let own = tool_warnings(given)?;
    warnings.append(own)?;
    push_lacks(&mut warnings, given, supported)?;
    Ok(warnings)
}

// What a user may be warned of.
fn unmarked_by(given: &Compilation<'_>, supported: &Supported) -> Mem<Unmarked>
    ensures { IfOk result (λ unmarked. unmarked ≡ unmarked_by (shown given.now) supported.now) }
{
    let warnings = other_warnings(given, supported)?;
    let leaves_off = leaves_off(given.alloc, given.set, given.env, given.compiler.family)?;
    Ok(Unmarked {
        warnings,
        leaves_off,
    })
}

// What a user is warned of, where the caches are asked whether the call is the first that warns of flags for the
// linker.
pub(crate) fn marked<W: World>(
    rt: &impl Wait,
    caches: &Caches<W>,
    set: &BuildConfig,
    unmarked: Unmarked,
) -> Mem<Warned>
    ensures { IfOk result (λ warned.
        warned.warnings ≡ marked_by set.now unmarked warned.is_first) }
{
    let mut warnings = unmarked.warnings;
    let is_first = is_first_warning(rt, caches, set, unmarked.leaves_off);
    push_link_warning(&mut warnings, set, unmarked.leaves_off, is_first)?;
    Ok(Warned { is_first, warnings })
}

/// What a user is told of a quiet plan: it leaves the mark of the caches, and so is never the first that warns of flags
/// for the linker.
pub(crate) fn quiet_warnings(set: &BuildConfig, unmarked: Unmarked) -> Mem<Words>
    ensures { IfOk result (λ warnings. warnings ≡ marked_by set.now unmarked false) }
{
    let mut warnings = unmarked.warnings;
    push_link_warning(&mut warnings, set, unmarked.leaves_off, false)?;
    Ok(warnings)
}

// The tool of a compilation, with what a user may be warned of.
#[tactic(auto, using(crate::proofs::HaltBy::halt_by), unfolding(crate::specs::ToolPlan::quiet_tool))]
fn quiet_tool(given: &Compilation<'_>, seen: &Answers, notes: &mut Notes) -> Halting<QuietTool>
    ensures { Tries seen.now notes.old notes.new (spec.quiet_tool (shown given.now)) result }
{
    let supported = supported_words(given, seen, notes)?;
    let tool = tool_by(given, &supported)?;
    let unmarked = unmarked_by(given, &supported)?;
    Ok(QuietTool { tool, unmarked })
}

// The compiler, with the variables that its words are planned by.
#[tactic(auto, using(crate::proofs::PassBy::pass_by), unfolding(crate::specs::ToolPlan::noted_words))]
fn noted_words(
    inputs: &Inputs<'_>,
    compiler: Compiler,
    seen: &Answers,
    notes: &mut Notes,
) -> Planned<Compiler>
    ensures { Passes seen.now notes.old notes.new
        (spec.noted_words inputs.now.set.now inputs.now.env.now compiler) result }
{
    let (set, env, target) = (inputs.set, inputs.env, inputs.target);
    let names = words_names(inputs.alloc, set, env, target, &compiler)?;
    note_names(&names, seen, notes)?;
    Ok(compiler)
}

#[tactic(auto, using(crate::proofs::PassBy::pass_by), unfolding(crate::specs::ToolPlan::noted_compiler))]
fn noted_compiler(inputs: &Inputs<'_>, seen: &Answers, notes: &mut Notes) -> Planned<Compiler>
    ensures { Passes seen.now notes.old notes.new
        (spec.noted_compiler inputs.now.set.now inputs.now.env.now) result }
{
    let compiler = compiler_of(inputs, seen, notes)?;
    noted_words(inputs, compiler, seen, notes)
}

// The compiler that a tool is made of, for inputs of a known target and a level.
#[tactic(auto, using(crate::proofs::HaltBy::halt_by), unfolding(crate::specs::ToolPlan::compiler_plan))]
pub(crate) fn plan_compiler(
    alloc: Global,
    set: &BuildConfig,
    env: &BuildEnv,
    seen: &Answers,
    notes: &mut Notes,
) -> Halting<Compiler>
    ensures { Tries seen.now notes.old notes.new (spec.compiler_plan set.now env.now) result }
{
    let target = given_target(alloc, set, env)?;
    let handed = read_handed(alloc, env.inherited())?;
    let inputs = Inputs {
        alloc,
        set,
        env,
        handed: &handed,
        target: &target,
    };
    let compiler = noted_compiler(&inputs, seen, notes)?;
    Ok(compiler)
}

// The tool with a compiler, which has words.
#[tactic(auto, using(crate::proofs::HaltBy::halt_by), unfolding(crate::specs::ToolPlan::tool_with))]
fn tool_with(
    alloc: Global,
    set: &BuildConfig,
    env: &BuildEnv,
    compiler: &Compiler,
    seen: &Answers,
    notes: &mut Notes,
) -> Halting<QuietTool>
    ensures { Tries seen.now notes.old notes.new
        (spec.tool_with set.now env.now compiler.now) result }
{
    let target = target_info(set, env);
    let handed = read_handed(alloc, env.inherited())?;
    let given = Compilation {
        alloc,
        set,
        env,
        handed: &handed,
        target: &target,
        compiler,
    };
    check_compiler(&given)?;
    quiet_tool(&given, seen, notes)
}

/// The tool of these settings in this environment, with what a user may be warned of.
#[tactic(auto, using(crate::proofs::HaltBy::halt_by), unfolding(crate::specs::ToolPlan::tool_plan))]
pub(crate) fn plan_quietly(
    alloc: Global,
    set: &BuildConfig,
    env: &BuildEnv,
    seen: &Answers,
    notes: &mut Notes,
) -> Halting<QuietTool>
    ensures { Tries seen.now notes.old notes.new (spec.tool_plan set.now env.now) result }
{
    let compiler = plan_compiler(alloc, set, env, seen, notes)?;
    tool_with(alloc, set, env, &compiler, seen, notes)
}

// The plan of a tool.
#[derive(Drop)]
struct ToolPlanner<'a> {
    alloc: Global,
    set: &'a BuildConfig,
    env: &'a BuildEnv,
}

impl<'a> Planner for ToolPlanner<'a> {
    type Value = Result<QuietTool, PlanError>;

    ghost plan = { λ p. spec.tool_plan p.set.now p.env.now };

    #[tactic(auto, using(crate::proofs::RerunLaws::by_outcome))]
    fn pass(&self, seen: &Answers, notes: &mut Notes) -> Planned<Result<QuietTool, PlanError>> {
        outcome(plan_quietly(self.alloc, self.set, self.env, seen, notes))
    }
}

/// The tool of these settings in this environment, with its warnings. It asks, and prints nothing.
fn plan_tool<'a, W: World, H: Host<W>>(
    rt: &impl Wait,
    alloc: Global,
    set: &'a BuildConfig,
    env: &'a BuildEnv,
    sight: &mut Sight<'_, W, H>,
) -> Result<ToolPlan, PlanError>
    ensures asks { AsksToPlan W.steady W.answer H.log H.patience set.now env.now
        sight.old sight.new }
    ensures tool { IfOk result (λ plan. Settles sight.new.answers.now
        (tool_of set.now env.now) plan.tool) }
    ensures warnings { IfOk result (λ plan. Settles sight.new.answers.now
        (warnings_of set.now env.now plan.warned.is_first) plan.warned.warnings) }
    ensures allowed { AllowedIn sight.new (tool_refusal set.now env.now) result }
    ensures refused { RefusedIn sight.new (tool_refusal set.now env.now) result }
    ensures own { IfErr result IsOwn }
{
    let planner = ToolPlanner { alloc, set, env };
    let found = settle_in(rt, alloc, &planner, sight)?;
    let quiet = own_refusal(found.value)?;
    let warned = marked(rt, sight.caches, set, quiet.unmarked)?;
    Ok(ToolPlan {
        tool: quiet.tool,
        warned,
    })
}

/// The tool of these settings in this environment: the program with its wrapper, the words that each source is compiled
/// with, and the variables that its commands get besides. Its warnings are printed last, where they are wanted.
///
/// Refused where the optimisation level, the target or the host is set nowhere, the target isn't known, a word of the
/// target is refused, or a flag of Rust code is wrong; by a fault of the host that prints; and for memory. The answers
/// until then stay in the sight.
pub fn tool_of<W: World, H: Host<W>>(
    rt: &impl Wait,
    alloc: Global,
    set: &BuildConfig,
    env: &BuildEnv,
    sight: &mut Sight<'_, W, H>,
) -> Result<Tool, PlanError>
    ensures same_host { sight.new.host.ghost_name ≡ sight.old.host.ghost_name }
    ensures same_answers { sight.new.answers.ghost_name ≡ sight.old.answers.ghost_name }
    ensures asks { AsksThenWarns W.steady W.answer H.log
        (PlanAsks set.now env.now) sight.old sight.new
        (tool_warnings set.now env.now (H.listens sight.old.host.now)) result }
    ensures tool { SettledIn sight.new (tool_of set.now env.now) result }
    ensures allowed { AllowedIn sight.new (tool_refusal set.now env.now) result }
    ensures refused { RefusedInOrByPrint sight.new (tool_refusal set.now env.now) result }
    ensures patient { H.patience sight.new.host.now ≡ H.patience sight.old.host.now }
{
    let listens = sight.host.listens();
    let plan = plan_tool(rt, alloc, set, env, sight)?;
    warn_of(alloc, sight.host, set, listens, &plan.warned.warnings)?;
    Ok(plan.tool)
}

/// Whether this call, of those that share its caches, is the one that warns of flags that are left off. No clause says
/// which call it is, since the mark stands behind a lock.
pub(crate) fn is_first_warning<W: World>(
    rt: &impl Wait,
    caches: &Caches<W>,
    set: &BuildConfig,
    leaves_off: bool,
) -> bool {
    !set.repeat_lines && leaves_off && caches.warn_once(rt)
}
