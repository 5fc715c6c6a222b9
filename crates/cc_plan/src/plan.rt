// The plan of a compile run up to the objects, in two parts: what is known before their folder is made, and the
// commands, for which it asks.
ghost use Rattle.std.specs.Prelude.{◌≡◌, [], IfOk, Some, None};
ghost use Rattle.cc_host.specs.Question.{Settles};
ghost use Rattle.std.specs.Option.{option_copied};
ghost use Rattle.cc_plan.specs.Asking.{AsksToCompile, AllowedIn, RefusedIn};
ghost use Rattle.cc_plan.specs.Halts.{Tries};
ghost use Rattle.cc_plan.specs.OnlyAsks.{OnlyAsks};
ghost use Rattle.cc_plan.specs.Questions.{ToolsAsks};
ghost use Rattle.cc_plan.specs.ToolPlan as spec;
ghost use Rattle.cc_flags.specs.Names.{library_name};
ghost use Rattle.cc_flags.specs.Given.{out_dir_of, probe_folder};
ghost use Rattle.cc_plan.specs.Planned.{warnings_of};
ghost use Rattle.cc_plan.specs.Plan.{dir_of, objects_of, library_of, compiles_of, plan_warnings};
ghost use Rattle.cc_plan.specs.Refusal.{intermediate_refusal, early_refusal, late_refusal, tool_refusal, platform_refusal, out_dir_refusal, AllowedBy, RefusedBy};

use crate::added::check_added;
use crate::assembler::wanted_assembler;
use crate::checks::check_platform;
use crate::compile::compile_commands;
use crate::halt::{Halting, outcome};
use crate::sight::settle_in;
use crate::tool::{QuietTool, marked, plan_quietly};
use crate::{ArgumentCause, PlanError, Sight, lib_and_archive_names, objects_from_files};
use cc_env::BuildEnv;
use cc_flags::{Assembly, BuildConfig, Object, out_dir_of, target_info};
use cc_host::{Command, Host, World};
use cc_text::{Text, Words, join};
use cc_tool::{Answers, Notes, Planned, Planner, Tool};
use std::alloc::Global;
use std::sync::Wait;

/// What is known before the folder of the objects is made.
#[derive(Drop, Debug)]
pub struct Sources {
    /// The name of the library, as a linker takes it.
    pub name: Text,
    /// The out dir, which is the folder of the objects, of the library and of probe files.
    pub dir: Text,
    /// The path of the library's file, in the out dir.
    pub library: Text,
    /// The sources with their objects, in the order in which the sources were added.
    pub objects: Vec<Object>,
}

/// The warnings of a compile run and the commands that compile. Nothing of them is decided while they run.
#[derive(Drop, Debug)]
pub struct Plan {
    /// Whether this run, of those that share its caches, is the one that warns of flags for the linker.
    pub warns_of_link: bool,
    /// The warnings, as texts without line feeds, which the host is given first.
    pub warnings: Words,
    /// One command a source, in their order. They share one environment.
    pub compiles: Vec<Command>,
}

// The out dir, which is set and not empty.
fn checked_out_dir<'a>(
    alloc: Global,
    set: &'a BuildConfig,
    env: &'a BuildEnv,
) -> Result<&'a str, PlanError>
    ensures dir { IfOk result (λ dir. out_dir_of set.now env.now ≡ Some dir.now) }
    ensures probes { IfOk result (λ dir. dir.now ≡ probe_folder set.now env.now) }
    ensures allowed { AllowedBy (out_dir_refusal (out_dir_of set.now env.now)) result }
    ensures refused { RefusedBy (out_dir_refusal (out_dir_of set.now env.now)) result }
{
    match out_dir_of(set, env) {
        None => Err(PlanError::NotSet(Text::of(alloc, "OUT_DIR")?)),
        Some("") => Err(PlanError::Argument(ArgumentCause::OutDir)),
        Some(dir) => Ok(dir),
    }
}

fn source_root_of(set: &BuildConfig) -> Option<&str>
    ensures { option_copied result ≡ set.now.source_root }
{
    match &set.source_root {
        Some(root) => Some(root.as_str()),
        None => None,
    }
}

/// Checks the out dir and the sources, in this order, and names the out dir, which is the folder of the objects and of
/// probe files, and the objects, in the order in which the sources were added. It asks nothing.
///
/// Refused where the out dir is set nowhere or empty, or a source has no file name or the object of an earlier one; and
/// for memory.
#[tactic(auto, unfolding(crate::specs::Refusal::intermediate_refusal))]
pub fn plan_objects(
    alloc: Global,
    set: &BuildConfig,
    env: &BuildEnv,
) -> Result<(Text, Vec<Object>), PlanError>
    ensures dir { IfOk result (λ placed. placed.0 ≡ dir_of set.now env.now) }
    ensures probes { IfOk result (λ placed. placed.0 ≡ probe_folder set.now env.now) }
    ensures objects { IfOk result (λ placed. placed.1.items ≡ objects_of set.now env.now) }
    ensures allowed { AllowedBy (intermediate_refusal set.now env.now) result }
    ensures refused { RefusedBy (intermediate_refusal set.now env.now) result }
{
    let dir = checked_out_dir(alloc, set, env)?;
    let objects = objects_from_files(alloc, &set.files, dir, env.inherited(), source_root_of(set))?;
    Ok((Text::of(alloc, dir)?, objects))
}

/// Checks the output, the out dir, the sources and the added objects, in this order, and names the library, the out dir
/// and the objects. It asks nothing.
///
/// Refused where the output names no library, the out dir is set nowhere or empty, a source has no file name or the
/// object of an earlier one, or an added object is the library, which is removed before it would be read; and for
/// memory.
#[tactic(auto, unfolding(crate::specs::Refusal::early_refusal))]
pub fn plan_sources(
    alloc: Global,
    set: &BuildConfig,
    env: &BuildEnv,
    output: &str,
) -> Result<Sources, PlanError>
    ensures name { IfOk result (λ sources. sources.name ≡ library_name output.now) }
    ensures dir { IfOk result (λ sources. sources.dir ≡ dir_of set.now env.now) }
    ensures probes { IfOk result (λ sources. sources.dir ≡ probe_folder set.now env.now) }
    ensures library { IfOk result (λ sources.
        sources.library ≡ library_of set.now env.now output.now) }
    ensures objects { IfOk result (λ sources. sources.objects.items ≡ objects_of set.now env.now) }
    ensures allowed { AllowedBy (early_refusal set.now env.now output.now) result }
    ensures refused { RefusedBy (early_refusal set.now env.now output.now) result }
{
    let (name, file) = lib_and_archive_names(alloc, output)?;
    let (dir, objects) = plan_objects(alloc, set, env)?;
    let library = join(alloc, dir.as_str(), file.as_str())?;
    check_added(&set.objects, library.as_str())?;
    Ok(Sources {
        name,
        dir,
        library,
        objects,
    })
}

// Without a source there is nothing to compile, and no tool is wanted.
fn no_compiles(alloc: Global, set: &BuildConfig, env: &BuildEnv) -> Result<Plan, PlanError>
    ensures warnings { IfOk result (λ plan. plan.warnings ≡ []) }
    ensures compiles { IfOk result (λ plan. plan.compiles.items ≡ []) }
    ensures allowed { AllowedBy (platform_refusal set.now env.now) result }
    ensures refused { RefusedBy (platform_refusal set.now env.now) result }
{
    check_platform(alloc, set, env)?;
    Ok(Plan {
        warns_of_link: false,
        warnings: Words::new(alloc),
        compiles: Vec::new(alloc),
    })
}

/// The tool of a compile run, with the assembler that the sources want, if any.
#[derive(Drop)]
pub(crate) struct Tools {
    pub quiet: QuietTool,
    pub assembler: Option<Tool>,
}

// A tool, with the assembler that the sources want.
#[tactic(auto, using(crate::proofs::HaltBy::halt_by), unfolding(crate::specs::ToolPlan::with_assembler))]
fn with_assembler(
    alloc: Global,
    set: &BuildConfig,
    env: &BuildEnv,
    quiet: QuietTool,
    seen: &Answers,
    notes: &mut Notes,
) -> Halting<Tools>
    ensures { Tries seen.now notes.old notes.new (spec.with_assembler set.now env.now quiet) result }
{
    let target = target_info(set, env);
    let given = Assembly {
        alloc,
        set,
        env,
        target: &target,
        family: quiet.tool.family(),
        path: quiet.tool.path(),
    };
    let assembler = wanted_assembler(&given, seen, notes)?;
    Ok(Tools { quiet, assembler })
}

// The tool with that assembler.
#[tactic(auto, using(crate::proofs::HaltBy::halt_by), unfolding(crate::specs::ToolPlan::tools_plan))]
pub(crate) fn plan_tools(
    alloc: Global,
    set: &BuildConfig,
    env: &BuildEnv,
    seen: &Answers,
    notes: &mut Notes,
) -> Halting<Tools>
    ensures { Tries seen.now notes.old notes.new (spec.tools_plan set.now env.now) result }
{
    let quiet = plan_quietly(alloc, set, env, seen, notes)?;
    with_assembler(alloc, set, env, quiet, seen, notes)
}

// The plan of both.
#[derive(Drop)]
struct ToolsPlanner<'a> {
    alloc: Global,
    set: &'a BuildConfig,
    env: &'a BuildEnv,
}

impl<'a> Planner for ToolsPlanner<'a> {
    type Value = Result<Tools, PlanError>;

    ghost plan = { λ p. spec.tools_plan p.set.now p.env.now };

    #[tactic(auto, using(crate::proofs::RerunLaws::by_outcome))]
    fn pass(&self, seen: &Answers, notes: &mut Notes) -> Planned<Result<Tools, PlanError>> {
        outcome(plan_tools(self.alloc, self.set, self.env, seen, notes))
    }
}

// With sources, the commands of the tool, and of the assembler where one wants it.
fn tool_compiles<'a, W: World, H: Host<W>>(
    rt: &impl Wait,
    alloc: Global,
    set: &'a BuildConfig,
    env: &'a BuildEnv,
    objects: &[Object],
    sight: &mut Sight<'_, W, H>,
) -> Result<Plan, PlanError>
    requires { objects.now ≡ objects_of set.now env.now }
    ensures asks { OnlyAsks W.steady W.answer H.log H.patience (ToolsAsks set.now env.now)
        sight.old sight.new }
    ensures warnings { IfOk result (λ plan.
        Settles sight.new.answers.now (warnings_of set.now env.now plan.warns_of_link) plan.warnings) }
    ensures compiles { IfOk result (λ plan.
        Settles sight.new.answers.now (compiles_of set.now env.now) plan.compiles.items) }
    ensures allowed { AllowedIn sight.new (tool_refusal set.now env.now) result }
    ensures refused { RefusedIn sight.new (tool_refusal set.now env.now) result }
{
    let planner = ToolsPlanner { alloc, set, env };
    let found = settle_in(rt, alloc, &planner, sight)?;
    let tools = found.value?;
    let Tools { quiet, assembler } = tools;
    let warned = marked(rt, sight.caches, set, quiet.unmarked)?;
    let target = target_info(set, env);
    let assembler = assembler.as_ref();
    let compiles = compile_commands(alloc, set, &target, &quiet.tool, assembler, objects)?;
    Ok(Plan {
        warns_of_link: warned.is_first,
        warnings: warned.warnings,
        compiles,
    })
}

/// The warnings of a compile run with these sources, which `plan_sources` gave, and the commands that compile. It asks,
/// and prints nothing. Without a source no tool is wanted, and nothing is asked; an assembler is planned, behind the
/// tool, where a source wants one.
///
/// Refused where the target or the host is set nowhere, the target isn't known or, with sources, the optimisation level
/// is set nowhere, a word of the target is refused or a flag of Rust code is wrong; and for memory. The answers until
/// then stay in the sight.
#[tactic(auto, using(crate::proofs::AskingLemmas::only_none), unfolding(crate::specs::Refusal::late_refusal))]
pub fn plan_commands<W: World, H: Host<W>>(
    rt: &impl Wait,
    set: &BuildConfig,
    env: &BuildEnv,
    sources: &Sources,
    sight: &mut Sight<'_, W, H>,
) -> Result<Plan, PlanError>
    requires { sources.now.objects.items ≡ objects_of set.now env.now }
    ensures asks { AsksToCompile W.steady W.answer H.log H.patience set.now env.now
        sight.old sight.new }
    ensures warnings { IfOk result (λ plan.
        Settles sight.new.answers.now (plan_warnings set.now env.now plan.warns_of_link) plan.warnings) }
    ensures compiles { IfOk result (λ plan.
        Settles sight.new.answers.now (compiles_of set.now env.now) plan.compiles.items) }
    ensures allowed { AllowedIn sight.new (late_refusal set.now env.now) result }
    ensures refused { RefusedIn sight.new (late_refusal set.now env.now) result }
{
    let alloc = *sources.objects.allocator();
    if set.files.is_empty() {
        no_compiles(alloc, set, env)
    } else {
        tool_compiles(rt, alloc, set, env, &sources.objects, sight)
    }
}
