// A compile run that is planned and not begun.
ghost use Rattle.std.specs.Prelude.{◌≡◌, ◌++◌};
ghost use Rattle.cc_host.specs.Call.{part};
ghost use Rattle.cc_host.specs.Question.{Holds};
ghost use Rattle.cc_flags.specs.Given.{probe_folder};
ghost use Rattle.cc_plan.specs.Plan.{dir_of, objects_of};
ghost use Rattle.cc_build.specs.Build.{AsksByRun};
ghost use Rattle.cc_build.specs.Course.{ByPart};
ghost use Rattle.cc_build.specs.Kept.{AsksFor};
ghost use Rattle.cc_build.specs.Phases.{OpenedEnds, OpeningEnds};
ghost use Rattle.cc_build.specs.Planning.{PlanningEnds};

use crate::compiles::open_commands;
use crate::compiling::prepare_folder;
use crate::intermediates::source_reads;
use crate::message::or_no_memory;
use crate::phases::plan_compiles;
use crate::refusal::disabled;
use crate::reporting::Reporting;
use crate::reruns::print_names;
use crate::task::{Shared, Task};
use crate::{Build, Error};
use cc_host::{Host, World};
use cc_jobs::OneCaller;
use cc_plan::{Object, Sources, is_disabled};
use cc_run::{Planned, Shows, Turns};
use cc_tool::{Answers, Caches};
use std::sync::Wait;

/// What a compile run would run, as values: a caller may run the commands itself, beside those of other builds.
#[derive(Drop)]
pub struct CompilePlan {
    /// The objects of the sources, in the order in which these were added.
    pub objects: Vec<Object>,
    /// The command that compiles each of them, in the same order, with the message for a host that listens.
    pub commands: Vec<Planned>,
    /// What of these commands `try_compile` would show.
    pub shows: Shows,
}

// Asks what the compile commands are planned by, gives the host the warnings, and makes the commands.
#[tactic(auto, using(cc_host::proofs::Parts::since_append))]
fn plan_and_open<W: World, H: Host<W>>(
    rt: &impl Wait,
    task: &Task<'_>,
    host: &mut H,
    caches: &Caches<W>,
    answers: &mut Answers,
    sources: &Sources,
) -> Result<Vec<Planned>, Error>
    requires dir { sources.now.dir ≡ probe_folder task.now.set.now task.now.env.now }
    requires objects { sources.now.objects.items ≡ objects_of task.now.set.now task.now.env.now }
    ensures asks { AsksFor W.steady W.answer task.now H.log H.patience
        host.old host.new answers.old answers.new }
    ensures outcome { Holds answers.new
        (λ look. OpenedEnds task.now result look (part H.log host.old host.new)) }
{
    let plan = match plan_compiles(rt, task, host, caches, answers, sources) {
        Ok(plan) => plan,
        Err(error) => return Err(error),
    };
    open_commands(task, host, &plan, sources.objects.as_slice())
}

/// Makes the folder of the objects, and plans and opens the run. No question is asked where no command may run.
#[tactic(auto, using(cc_host::proofs::Parts::since_append))]
pub(crate) fn open_run<W: World, H: Host<W>>(
    rt: &impl Wait,
    task: &Task<'_>,
    host: &mut H,
    caches: &Caches<W>,
    answers: &mut Answers,
    sources: &Sources,
) -> Result<Vec<Planned>, Error>
    requires dir { sources.now.dir ≡ dir_of task.now.set.now task.now.env.now }
    requires probes { sources.now.dir ≡ probe_folder task.now.set.now task.now.env.now }
    requires objects { sources.now.objects.items ≡ objects_of task.now.set.now task.now.env.now }
    ensures asks { AsksFor W.steady W.answer task.now H.log H.patience
        host.old host.new answers.old answers.new }
    ensures outcome { Holds answers.new
        (λ look. OpeningEnds task.now result look (part H.log host.old host.new)) }
{
    let alloc = task.reporting.alloc;
    prepare_folder(alloc, host, task.set, task.env, sources.dir.as_str())?;
    if is_disabled(task.env) {
        return Err(or_no_memory(disabled(alloc)));
    }
    plan_and_open(rt, task, host, caches, answers, sources)
}

impl<W: World> Build<W> {
    // Plans a run and opens it, and tells Cargo what was read.
    #[tactic(auto, using(cc_host::proofs::Parts::since_append))]
    pub(crate) fn plan_alone<H: Host<W>>(
        &self,
        rt: &impl Wait,
        host: &mut H,
        output: &str,
    ) -> Result<CompilePlan, Error>
        ensures patient { H.patience host.new ≡ H.patience host.old }
        ensures extends { H.log host.new ≡ H.log host.old ++ part H.log host.old host.new }
        ensures asked { AsksByRun W.steady W.answer self.now (part H.log host.old host.new) }
        ensures outcome { ByPart H.log host.old host.new
            (PlanningEnds self.now (H.listens host.old) output.now result) }
    {
        let mut answers = Answers::new(self.alloc);
        let plan = match self.plan_run(rt, host, output, &mut answers) {
            Ok(plan) => plan,
            Err(error) => return Err(error),
        };
        let (alloc, set, env) = (self.alloc, &self.config, &self.env);
        let (sources, shows) = (plan.sources, plan.shows);
        let (jobs, mut seat) = OneCaller::new(1);
        let shared = Shared {
            task: Task {
                reporting: Reporting { alloc, shows },
                set,
                env,
                output,
            },
            jobs: &jobs,
            caches: &self.caches,
            sources: &sources,
            reads: source_reads(set),
        };
        let mut turns = Turns { left: 0, used: 0 };
        match print_names(rt, &shared, host, &mut seat, &mut turns, &mut answers) {
            Ok(()) => Ok(CompilePlan {
                objects: sources.objects,
                commands: plan.commands,
                shows,
            }),
            Err(error) => Err(error),
        }
    }
}
