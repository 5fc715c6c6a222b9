// A run that compiles the sources alone.
ghost use Rattle.std.specs.Prelude.{◌≡◌, ◌++◌, ◌+◌, ◌<◌, ◌^◌, IfOk, false};
ghost use Rattle.cc_host.specs.Call.{part};
ghost use Rattle.cc_plan.specs.Archive.{paths_of};
ghost use Rattle.cc_flags.specs.Given.{probe_folder};
ghost use Rattle.cc_plan.specs.Plan.{dir_of, objects_of};
ghost use Rattle.cc_build.specs.Build.{AsksByRun};
ghost use Rattle.cc_build.specs.Course.{ByRun};
ghost use Rattle.cc_build.specs.Intermediates.{IntermediateEnds, source_reads as reads_of};
ghost use Rattle.cc_build.specs.Kept.{AsksFor};
ghost use Rattle.cc_build.specs.Phases.{ByKnown, CompiledEnds};
ghost use Rattle.cc_run.specs.Keeping.{IsIdle};
ghost use Rattle.cc_build.specs.Stage.{IsRun};

use crate::compiles::run_beside;
use crate::message::or_no_memory;
use crate::planning::open_run;
use crate::refusal::plan_error;
use crate::reporting::Reporting;
use crate::reruns::print_names;
use crate::shows::shows_of;
use crate::task::{Shared, Task};
use crate::{Build, Error};
use cc_host::{Host, World};
use cc_jobs::Jobs;
use cc_plan::{BuildConfig, Object, Reads, Sources, plan_objects};
use cc_run::Turns;
use cc_text::{Mem, Text, Words};
use cc_tool::Answers;
use std::alloc::Global;
use std::sync::Wait;

fn object_paths(alloc: Global, objects: &[Object]) -> Mem<Words>
    ensures { IfOk result (λ paths. paths ≡ paths_of objects.now) }
{
    let mut paths = Words::new(alloc);
    for object in objects {
        paths.push(object.dst.as_str())?;
    }
    Ok(paths)
}

// What a run that compiles the sources alone reads variables for.
pub(crate) fn source_reads(set: &BuildConfig) -> Reads
    ensures { result ≡ reads_of set.now }
{
    let is_any = !set.files.is_empty();
    Reads {
        disabled: true,
        debug: is_any,
        compiler: is_any,
        assembler: is_any,
        flag: false,
        archiver: false,
        ranlib: false,
        links: false,
    }
}

// Opens the run, compiles the sources, and then tells Cargo of the variables that were read for them.
#[tactic(auto, using(cc_host::proofs::Parts::since_append))]
fn compile_and_tell<W: World, H: Host<W>, J: Jobs>(
    rt: &impl Wait,
    shared: &Shared<'_, W, J>,
    host: &mut H,
    seat: &mut J::Seat,
    turns: &mut Turns,
    answers: &mut Answers,
) -> Result<(), Error>
    requires idle { IsIdle J.fits J.held shared.now.jobs.now seat.old }
    requires few { turns.old.left + turns.old.used < 2 ^ 64 }
    requires plain { IsRun shared.now.task.set.now shared.now.reads }
    requires dir { shared.now.sources.now.dir
        ≡ dir_of shared.now.task.set.now shared.now.task.env.now }
    requires probes { shared.now.sources.now.dir
        ≡ probe_folder shared.now.task.set.now shared.now.task.env.now }
    requires objects { shared.now.sources.now.objects.items
        ≡ objects_of shared.now.task.set.now shared.now.task.env.now }
    ensures idle { IsIdle J.fits J.held shared.now.jobs.now seat.new }
    ensures total { J.total seat.new ≡ J.total seat.old }
    ensures sum { turns.new.left + turns.new.used ≡ turns.old.left + turns.old.used }
    ensures asks { AsksFor W.steady W.answer shared.now.task H.log H.patience
        host.old host.new answers.old answers.new }
    ensures outcome { ByKnown answers.new
        H.log H.patience J.total J.faults J.taken J.load turns.old.left turns.new.left
        host.old host.new seat.old seat.new (CompiledEnds shared.now.task shared.now.reads result) }
{
    let task = &shared.task;
    let cmds = match open_run(rt, task, host, shared.caches, answers, shared.sources) {
        Ok(cmds) => cmds,
        Err(error) => return Err(error),
    };
    match run_beside(task.reporting, host, shared.jobs, seat, turns, cmds) {
        Ok(()) => {}
        Err(error) => return Err(error),
    }
    print_names(rt, shared, host, seat, turns, answers)
}

impl<W: World> Build<W> {
    // Checks the settings, makes the folder, compiles the sources, and tells Cargo what was read. The paths are those
    // of their objects.
    #[tactic(auto, using(cc_host::proofs::Parts::since_append))]
    pub(crate) fn compile_alone<H: Host<W>, J: Jobs>(
        &self,
        rt: &impl Wait,
        host: &mut H,
        jobs: &J,
        seat: &mut J::Seat,
        turns: u64,
    ) -> Result<Words, Error>
        requires idle { IsIdle J.fits J.held jobs.now seat.old }
        ensures idle { IsIdle J.fits J.held jobs.now seat.new }
        ensures total { J.total seat.new ≡ J.total seat.old }
        ensures patient { H.patience host.new ≡ H.patience host.old }
        ensures extends { H.log host.new ≡ H.log host.old ++ part H.log host.old host.new }
        ensures asked { AsksByRun W.steady W.answer self.now (part H.log host.old host.new) }
        ensures objects { IfOk result (λ paths.
            paths ≡ paths_of (objects_of self.now.config self.now.env)) }
        ensures outcome { ByRun H.log H.patience J.total J.faults J.taken J.load turns
            host.old host.new seat.old seat.new
            (IntermediateEnds self.now (H.listens host.old) result) }
    {
        let (alloc, set, env) = (self.alloc, &self.config, &self.env);
        let shows = shows_of(set, env, host.listens());
        let (dir, objects) = match plan_objects(alloc, set, env) {
            Ok(placed) => placed,
            Err(error) => return Err(or_no_memory(plan_error(alloc, set, env, "", error))),
        };
        let paths = object_paths(alloc, &objects)?;
        let sources = Sources {
            name: Text::new(alloc),
            dir,
            library: Text::new(alloc),
            objects,
        };
        let shared = Shared {
            task: Task {
                reporting: Reporting { alloc, shows },
                set,
                env,
                output: "",
            },
            jobs,
            caches: &self.caches,
            sources: &sources,
            reads: source_reads(set),
        };
        let mut answers = Answers::new(alloc);
        let mut left = Turns {
            left: turns,
            used: 0,
        };
        match compile_and_tell(rt, &shared, host, seat, &mut left, &mut answers) {
            Ok(()) => Ok(paths),
            Err(error) => Err(error),
        }
    }
}
