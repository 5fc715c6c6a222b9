// Whether the compiler of these settings takes a flag.
ghost use Rattle.std.specs.Prelude.{◌≡◌, IfOk, IfErr};
ghost use Rattle.cc_host.specs.Question.{Settles};
ghost use Rattle.cc_plan.specs.Asking.{IsOwn, AsksOnFlag, AsksThenWarns, AllowedIn, RefusedIn, RefusedInOrByPrint};
ghost use Rattle.cc_flags.specs.Compilation.{compilation_of, seen as shown};
ghost use Rattle.cc_plan.specs.Compiler.{compiler_of};
ghost use Rattle.cc_plan.specs.FlagSupport as spec;
ghost use Rattle.cc_plan.specs.Halts.{Tries};
ghost use Rattle.cc_plan.specs.Plan.{warned_steps};
ghost use Rattle.cc_plan.specs.Questions.{SupportAsks};
ghost use Rattle.cc_plan.specs.Support.{flag_question as question_on};
ghost use Rattle.cc_plan.specs.Tool.{found_warnings as found_warnings_of};
ghost use Rattle.cc_plan.specs.Refusal.{AllowedBy, RefusedBy};
ghost use Rattle.cc_tool.specs.Plans.{Passes};

use crate::checks::{check_compiler, known_target};
use crate::compiler::compiler_of;
use crate::halt::{Halting, outcome, own_refusal};
use crate::printing::warn_of;
use crate::sight::settle_in;
use crate::support::{bare_compiler, flag_settings, is_for_linker, plain_question};
use crate::tool::found_warnings;
use crate::{PlanError, Sight};
use cc_env::BuildEnv;
use cc_flags::{BuildConfig, Compilation, Compiler, Inputs, read_handed, target_info, words_names};
use cc_host::{Host, Question, Verdict, World};
use cc_text::{Mem, Words};
use cc_tool::{Answers, Notes, Planned, Planner, note_names, verdict};
use std::alloc::Global;
use std::sync::Wait;

// The question on a flag, where it has words. Its settings have the target of the others.
#[tactic(auto, unfolding(cc_flags::specs::Target::known_info))]
fn checked_question(given: &Compilation<'_>, flag: &str) -> Result<Question, PlanError>
    ensures question { IfOk result (λ q. q ≡ question_on (shown given.now) flag.now) }
    ensures allowed { AllowedBy (spec.question_refusal (shown given.now) flag.now) result }
    ensures refused { RefusedBy (spec.question_refusal (shown given.now) flag.now) result }
{
    let path = given.compiler.choice.path.as_str();
    let settings = flag_settings(given.alloc, given.set, path, flag)?;
    let plain = Compilation {
        alloc: given.alloc,
        set: &settings,
        env: given.env,
        handed: given.handed,
        target: given.target,
        compiler: given.compiler,
    };
    check_compiler(&plain)?;
    let question = plain_question(&plain)?;
    Ok(question)
}

// The verdict of a compiler on a flag.
#[tactic(auto, using(crate::proofs::HaltBy::halt_by), unfolding(crate::specs::FlagSupport::verdict_plan))]
fn verdict_on(
    given: &Compilation<'_>,
    flag: &str,
    seen: &Answers,
    notes: &mut Notes,
) -> Halting<Verdict>
    ensures { Tries seen.now notes.old notes.new
        (spec.verdict_plan (shown given.now) flag.now) result }
{
    if is_for_linker(given.compiler.family, flag) {
        return Ok(Verdict::No);
    }
    let question = checked_question(given, flag)?;
    let verdict = verdict(given.alloc, question, seen, notes)?;
    Ok(verdict)
}

/// The compiler of some settings, and its verdict on a flag.
#[derive(Drop, Debug)]
pub struct FlagSupport {
    /// The compiler of the settings. The one that was asked has its path alone, without wrapper and words.
    pub compiler: Compiler,
    /// Yes or no; `Missing` where the program can't be found, `Unanswered` where it couldn't be asked.
    pub verdict: Verdict,
}

// The verdict on a flag, with what a user is warned of.
#[derive(Drop)]
struct Support {
    found: FlagSupport,
    warnings: Words,
}

// The names of the variables that a question on a flag is planned by: its settings name the compiler that was found,
// and bring its words.
fn question_names(inputs: &Inputs<'_>, pair: &(Compiler, Compiler)) -> Mem<Words>
    ensures { IfOk result (λ names. names
        ≡ spec.question_names inputs.now.set.now inputs.now.env.now pair.now) }
{
    let path = pair.0.choice.path.as_str();
    let settings = flag_settings(inputs.alloc, inputs.set, path, "")?;
    let (env, target) = (inputs.env, inputs.target);
    let names = words_names(inputs.alloc, &settings, env, target, &pair.1)?;
    Ok(names)
}

#[tactic(auto, using(crate::proofs::PassBy::pass_by), unfolding(crate::specs::FlagSupport::noted_pair))]
fn noted_pair(
    inputs: &Inputs<'_>,
    pair: (Compiler, Compiler),
    seen: &Answers,
    notes: &mut Notes,
) -> Planned<(Compiler, Compiler)>
    ensures { Passes seen.now notes.old notes.new
        (spec.noted_pair inputs.now.set.now inputs.now.env.now pair) result }
{
    let names = question_names(inputs, &pair)?;
    note_names(&names, seen, notes)?;
    Ok(pair)
}

// A compiler, and the one that is asked: that of its path alone.
#[tactic(auto, using(crate::proofs::PassBy::pass_by), unfolding(crate::specs::FlagSupport::with_asked))]
fn with_asked(
    inputs: &Inputs<'_>,
    compiler: Compiler,
    seen: &Answers,
    notes: &mut Notes,
) -> Planned<(Compiler, Compiler)>
    ensures { Passes seen.now notes.old notes.new
        (spec.with_asked inputs.now.set.now inputs.now.env.now compiler) result }
{
    let path = compiler.choice.path.as_str();
    let bare = bare_compiler(inputs.alloc, inputs.env, path, seen, notes)?;
    noted_pair(inputs, (compiler, bare), seen, notes)
}

/// The compiler, and the one that is asked, with the variables that a question on a flag is planned by.
#[tactic(auto, using(crate::proofs::PassBy::pass_by), unfolding(crate::specs::FlagSupport::found_pair))]
fn found_pair(
    inputs: &Inputs<'_>,
    seen: &Answers,
    notes: &mut Notes,
) -> Planned<(Compiler, Compiler)>
    ensures { Passes seen.now notes.old notes.new
        (spec.found_pair inputs.now.set.now inputs.now.env.now) result }
{
    let compiler = compiler_of(inputs, seen, notes)?;
    with_asked(inputs, compiler, seen, notes)
}

/// The same, for a target that is known.
#[tactic(auto, using(crate::proofs::HaltBy::halt_by), unfolding(crate::specs::FlagSupport::pair_plan))]
pub(crate) fn plan_pair(
    alloc: Global,
    set: &BuildConfig,
    env: &BuildEnv,
    seen: &Answers,
    notes: &mut Notes,
) -> Halting<(Compiler, Compiler)>
    ensures { Tries seen.now notes.old notes.new (spec.pair_plan set.now env.now) result }
{
    let target = known_target(alloc, set, env)?;
    let handed = read_handed(alloc, env.inherited())?;
    let inputs = Inputs {
        alloc,
        set,
        env,
        handed: &handed,
        target: &target,
    };
    let pair = found_pair(&inputs, seen, notes)?;
    Ok(pair)
}

// The verdict of a compiler of these settings on a flag.
#[tactic(auto, using(crate::proofs::HaltBy::halt_by), unfolding(crate::specs::FlagSupport::verdict_plan))]
fn verdict_in(
    alloc: Global,
    set: &BuildConfig,
    env: &BuildEnv,
    compiler: &Compiler,
    flag: &str,
    seen: &Answers,
    notes: &mut Notes,
) -> Halting<Verdict>
    ensures { Tries seen.now notes.old notes.new
        (spec.verdict_plan (compilation_of set.now env.now compiler.now) flag.now) result }
{
    let target = target_info(set, env);
    let handed = read_handed(alloc, env.inherited())?;
    let given = Compilation {
        alloc,
        set,
        env,
        handed: &handed,
        target: &target,
        compiler,
    };
    verdict_on(&given, flag, seen, notes)
}

// The warnings of how a compiler of these settings was found.
fn warnings_in(alloc: Global, set: &BuildConfig, env: &BuildEnv, compiler: &Compiler) -> Mem<Words>
    ensures { IfOk result (λ warnings. warnings
        ≡ found_warnings_of (compilation_of set.now env.now compiler.now)) }
{
    let target = target_info(set, env);
    let handed = read_handed(alloc, env.inherited())?;
    found_warnings(&Compilation {
        alloc,
        set,
        env,
        handed: &handed,
        target: &target,
        compiler,
    })
}

// The verdict on a flag, with the compiler and the warnings of how it was found.
#[tactic(auto, using(crate::proofs::HaltBy::halt_by), unfolding(crate::specs::FlagSupport::support_with))]
fn support_with(
    alloc: Global,
    set: &BuildConfig,
    env: &BuildEnv,
    flag: &str,
    pair: (Compiler, Compiler),
    seen: &Answers,
    notes: &mut Notes,
) -> Halting<Support>
    ensures { Tries seen.now notes.old notes.new
        (spec.support_with set.now env.now flag.now pair) result }
{
    let (compiler, bare) = pair;
    let verdict = verdict_in(alloc, set, env, &bare, flag, seen, notes)?;
    let warnings = warnings_in(alloc, set, env, &compiler)?;
    Ok(Support {
        found: FlagSupport { compiler, verdict },
        warnings,
    })
}

// The same, of the compiler of these settings.
#[tactic(auto, using(crate::proofs::HaltBy::halt_by), unfolding(crate::specs::FlagSupport::support_plan))]
fn planned_support(
    alloc: Global,
    set: &BuildConfig,
    env: &BuildEnv,
    flag: &str,
    seen: &Answers,
    notes: &mut Notes,
) -> Halting<Support>
    ensures { Tries seen.now notes.old notes.new
        (spec.support_plan set.now env.now flag.now) result }
{
    let pair = plan_pair(alloc, set, env, seen, notes)?;
    support_with(alloc, set, env, flag, pair, seen, notes)
}

// The plan of a verdict on a flag.
#[derive(Drop)]
struct SupportPlanner<'a> {
    alloc: Global,
    set: &'a BuildConfig,
    env: &'a BuildEnv,
    flag: &'a str,
}

impl<'a> Planner for SupportPlanner<'a> {
    type Value = Result<Support, PlanError>;

    ghost plan = { λ p. spec.support_plan p.set.now p.env.now p.flag.now };

    fn pass(&self, seen: &Answers, notes: &mut Notes) -> Planned<Result<Support, PlanError>> {
        outcome(planned_support(self.alloc, self.set, self.env, self.flag, seen, notes))
    }
}

// The verdict on a flag. It asks, and prints nothing.
fn plan_support<'a, W: World, H: Host<W>>(
    rt: &impl Wait,
    alloc: Global,
    set: &'a BuildConfig,
    env: &'a BuildEnv,
    flag: &'a str,
    sight: &mut Sight<'_, W, H>,
) -> Result<Support, PlanError>
    ensures asks { AsksOnFlag W.steady W.answer H.log H.patience set.now env.now flag.now
        sight.old sight.new }
    ensures verdict { IfOk result (λ s. Settles sight.new.answers.now
        (spec.flag_verdict set.now env.now flag.now) s.found.verdict) }
    ensures compiler { IfOk result (λ s. Settles sight.new.answers.now
        (compiler_of set.now env.now) s.found.compiler) }
    ensures warnings { IfOk result (λ s. Settles sight.new.answers.now
        (spec.support_warnings set.now env.now) s.warnings) }
    ensures allowed { AllowedIn sight.new (spec.support_refusal set.now env.now flag.now) result }
    ensures refused { RefusedIn sight.new (spec.support_refusal set.now env.now flag.now) result }
    ensures own { IfErr result IsOwn }
{
    let planner = SupportPlanner {
        alloc,
        set,
        env,
        flag,
    };
    let found = settle_in(rt, alloc, &planner, sight)?;
    own_refusal(found.value)
}

/// The compiler of these settings, and its verdict on a flag: it is asked by compiling a source of one line with the
/// flag, at level 0 and without what Cargo hands down. A flag is for the linker where Visual Studio's compiler is given
/// `/link`: no, without a question. Warnings of how the compiler was found are printed last, where they are wanted.
///
/// Refused where the target is set nowhere or isn't known, or the command that tries the flag would be: as where the
/// host is set nowhere; by a fault of the host that prints; and for memory. The answers until then stay in the sight.
pub fn flag_support<W: World, H: Host<W>>(
    rt: &impl Wait,
    alloc: Global,
    set: &BuildConfig,
    env: &BuildEnv,
    flag: &str,
    sight: &mut Sight<'_, W, H>,
) -> Result<FlagSupport, PlanError>
    ensures same_host { sight.new.host.ghost_name ≡ sight.old.host.ghost_name }
    ensures same_answers { sight.new.answers.ghost_name ≡ sight.old.answers.ghost_name }
    ensures asks { AsksThenWarns W.steady W.answer H.log
        (SupportAsks set.now env.now flag.now) sight.old sight.new
        (λ _ look. warned_steps set.now (H.listens sight.old.host.now)
        (spec.support_warnings set.now env.now look)) result }
    ensures compiler { IfOk result (λ found. Settles sight.new.answers.now
        (compiler_of set.now env.now) found.compiler) }
    ensures verdict { IfOk result (λ found. Settles sight.new.answers.now
        (spec.flag_verdict set.now env.now flag.now) found.verdict) }
    ensures allowed { AllowedIn sight.new (spec.support_refusal set.now env.now flag.now) result }
    ensures refused { RefusedInOrByPrint sight.new
        (spec.support_refusal set.now env.now flag.now) result }
    ensures patient { H.patience sight.new.host.now ≡ H.patience sight.old.host.now }
{
    let listens = sight.host.listens();
    let support = plan_support(rt, alloc, set, env, flag, sight)?;
    warn_of(alloc, sight.host, set, listens, &support.warnings)?;
    Ok(support.found)
}
