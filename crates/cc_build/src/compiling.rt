// A compile run, part by part.
ghost use Rattle.std.specs.Prelude.{◌≡◌, ◌+◌, ◌<◌, ◌^◌, ◌++◌, IfOk};
ghost use Rattle.cc_host.specs.Call.{part};
ghost use Rattle.cc_flags.specs.Names.{library_name};
ghost use Rattle.cc_flags.specs.Given.{probe_folder};
ghost use Rattle.cc_plan.specs.Plan.{dir_of, objects_of, library_of, folder_steps};
ghost use Rattle.cc_run.specs.Keeping.{IsIdle};
ghost use Rattle.cc_build.specs.Build.{AsksByRun};
ghost use Rattle.cc_build.specs.Course.{CallsEnd, ByRun};
ghost use Rattle.cc_build.specs.Kept.{Aside, AsksFor};
ghost use Rattle.cc_build.specs.Phases.{ByKnown, PartsEnd};
ghost use Rattle.cc_build.specs.Promises.{RunEnds};
ghost use Rattle.cc_build.specs.Stage.{run_reads, run_reads as reads_of};

use crate::compiles::run_beside;
use crate::goal::Goal;
use crate::phases::{archive_objects, print_links};
use crate::run::make_folder;
use crate::task::Shared;
use crate::{Build, Error};
use cc_env::BuildEnv;
use cc_host::{Host, World};
use cc_jobs::Jobs;
use cc_plan::{BuildConfig, Reads};
use cc_run::{Planned, Turns};
use cc_tool::Answers;
use std::alloc::Global;
use std::sync::Wait;

/// What a run reads variables for.
pub(crate) fn run_reads(set: &BuildConfig) -> Reads
    ensures { result ≡ reads_of set.now }
{
    Reads {
        disabled: true,
        debug: true,
        compiler: !set.files.is_empty(),
        assembler: !set.files.is_empty(),
        flag: false,
        archiver: true,
        ranlib: false,
        links: true,
    }
}

// Makes the folder of the objects, where there is a source.
#[tactic(auto, using(cc_host::proofs::Parts::since_append), unfolding(cc_plan::specs::Plan::folder_steps))]
pub(crate) fn prepare_folder<W: World, H: Host<W>>(
    alloc: Global,
    host: &mut H,
    set: &BuildConfig,
    env: &BuildEnv,
    dir: &str,
) -> Result<(), Error>
    requires dir { dir.now ≡ dir_of set.now env.now }
    ensures aside { Aside H.log H.patience host.old host.new }
    ensures outcome { CallsEnd (folder_steps set.now env.now)
        (part H.log host.old host.new) result }
{
    if set.files.is_empty() {
        return Ok(());
    }
    // (the contract alone speaks of the environment, in which the folder was looked up)
    let _ = env;
    make_folder(alloc, host, dir)
}

// Runs these commands, archives all objects, and prints the lines for Cargo.
#[tactic(auto, using(cc_host::proofs::Parts::since_append))]
pub(crate) fn run_parts<W: World, H: Host<W>, J: Jobs>(
    rt: &impl Wait,
    shared: &Shared<'_, W, J>,
    host: &mut H,
    seat: &mut J::Seat,
    turns: &mut Turns,
    cmds: Vec<Planned>,
    answers: &mut Answers,
) -> Result<(), Error>
    requires idle { IsIdle J.fits J.held shared.now.jobs.now seat.old }
    requires few { turns.old.left + turns.old.used < 2 ^ 64 }
    requires dir { shared.now.sources.now.dir
        ≡ probe_folder shared.now.task.set.now shared.now.task.env.now }
    requires name { shared.now.sources.now.name ≡ library_name shared.now.task.output.now }
    requires library { shared.now.sources.now.library ≡ library_of
        shared.now.task.set.now shared.now.task.env.now shared.now.task.output.now }
    requires objects { shared.now.sources.now.objects.items
        ≡ objects_of shared.now.task.set.now shared.now.task.env.now }
    requires reads { shared.now.reads ≡ run_reads shared.now.task.set.now }
    ensures idle { IsIdle J.fits J.held shared.now.jobs.now seat.new }
    ensures total { J.total seat.new ≡ J.total seat.old }
    ensures sum { turns.new.left + turns.new.used ≡ turns.old.left + turns.old.used }
    ensures asks { AsksFor W.steady W.answer shared.now.task H.log H.patience
        host.old host.new answers.old answers.new }
    ensures outcome { ByKnown answers.new
        H.log H.patience J.total J.faults J.taken J.load turns.old.left turns.new.left
        host.old host.new seat.old seat.new (PartsEnd shared.now.task cmds.items result) }
{
    match run_beside(shared.task.reporting, host, shared.jobs, seat, turns, cmds) {
        Ok(()) => {}
        Err(error) => return Err(error),
    }
    match archive_objects(rt, shared, host, seat, turns, answers) {
        Ok(()) => {}
        Err(error) => return Err(error),
    }
    print_links(rt, shared, host, seat, turns, answers)
}

impl<W: World> Build<W> {
    // Plans the run, and does it whole.
    #[tactic(auto, using(cc_host::proofs::Parts::since_append))]
    pub(crate) fn compile<H: Host<W>, J: Jobs>(
        &self,
        rt: &impl Wait,
        host: &mut H,
        jobs: &J,
        seat: &mut J::Seat,
        goal: Goal<'_>,
    ) -> Result<(), Error>
        requires idle { IsIdle J.fits J.held jobs.now seat.old }
        ensures idle { IsIdle J.fits J.held jobs.now seat.new }
        ensures total { J.total seat.new ≡ J.total seat.old }
        ensures patient { H.patience host.new ≡ H.patience host.old }
        ensures extends { H.log host.new ≡ H.log host.old ++ part H.log host.old host.new }
        ensures asked { AsksByRun W.steady W.answer self.now (part H.log host.old host.new) }
        ensures outcome { ByRun H.log H.patience J.total J.faults J.taken J.load goal.entry.turns
            host.old host.new seat.old seat.new
            (RunEnds self.now (H.listens host.old) goal.entry.output.now result) }
    {
        let mut answers = Answers::new(self.alloc);
        let plan = match self.plan_run(rt, host, goal.output, &mut answers) {
            Ok(plan) => plan,
            Err(error) => return Err(error),
        };
        let (turns, output) = (goal.turns, goal.output);
        self.run_plan(rt, host, jobs, seat, turns, output, plan, &[], &mut answers)
    }
}
