// The lines of the variables that a call read, which it prints as its last act.
ghost use Rattle.std.specs.Prelude.{◌≡◌, ◌+◌, ◌<◌, ◌^◌, false, IfOk};
ghost use Rattle.std.specs.List.{list_any};
ghost use Rattle.cc_host.specs.Call.{part};
ghost use Rattle.cc_host.specs.Question.{Holds, Settles};
ghost use Rattle.cc_plan.specs.Asking.{is_of_children};
ghost use Rattle.cc_flags.specs.Given.{probe_folder};
ghost use Rattle.cc_plan.specs.Reruns.{rerun_names};
ghost use Rattle.cc_run.specs.Keeping.{IsIdle};
ghost use Rattle.cc_build.specs.Kept.{Aside, AsksFor, AsksForNames};
ghost use Rattle.cc_build.specs.Phases.{ByKnown, NamesEnd};
ghost use Rattle.cc_build.specs.Questions.{AsksOnly};
ghost use Rattle.cc_build.specs.Told.{LinesTold, NamesTold};
ghost use Rattle.cc_build.specs.Stage.{IsRun};

use crate::Error;
use crate::directives::{first_stages, names_alone};
use crate::phases::plan_names;
use crate::stage::do_stages;
use crate::task::{Shared, Task};
use cc_host::{Host, World};
use cc_jobs::{Jobs, OneCaller};
use cc_plan::{Reads, Sight, probe_folder, rerun_names};
use cc_run::Turns;
use cc_text::{Mem, Words};
use cc_tool::{Answers, Caches};
use std::sync::Wait;

/// Asks what the names of the variables are planned by that a call reads, and plans them.
#[tactic(auto, using(cc_host::proofs::Parts::since_append))]
pub(crate) fn read_names<W: World, H: Host<W>>(
    rt: &impl Wait,
    task: &Task<'_>,
    caches: &Caches<W>,
    reads: Reads,
    host: &mut H,
    answers: &mut Answers,
) -> Mem<Words>
    ensures quiet { AsksOnly (part H.log host.old host.new) }
    ensures asks { AsksForNames W.steady W.answer task.now reads H.log H.patience
        host.old host.new answers.old answers.new }
    ensures planned { IfOk result (λ names. Settles answers.new
        (rerun_names reads task.now.set.now task.now.env.now) names) }
{
    let mut sight = Sight {
        host,
        caches,
        answers,
        dir: probe_folder(task.set, task.env),
    };
    rerun_names(
        rt,
        task.reporting.alloc,
        reads,
        task.set,
        task.env,
        &mut sight,
    )
}

/// Prints the lines of these variables, as the last act of a call that runs no command beside others.
#[tactic(auto, using(crate::proofs::Keeping::aside_none))]
pub(crate) fn tell_names<W: World, H: Host<W>>(
    rt: &impl Wait,
    task: &Task<'_>,
    caches: &Caches<W>,
    host: &mut H,
    names: Words,
) -> Result<(), Error>
    ensures aside { Aside H.log H.patience host.old host.new }
    ensures childless { list_any is_of_children (part H.log host.old host.new) ≡ false }
    ensures told { LinesTold task.now.set.now names result (part H.log host.old host.new) }
{
    let (alloc, reporting) = (task.reporting.alloc, task.reporting);
    let lines = names_alone(alloc, names);
    let stages = first_stages(rt, alloc, caches, task.set, reporting.shows.listens, &lines)?;
    let (jobs, mut seat) = OneCaller::new(1);
    let mut turns = Turns { left: 0, used: 0 };
    do_stages(reporting, host, &jobs, &mut seat, &mut turns, &stages)
}

/// Plans the names of the variables that the call read, and prints their lines, as the last act of a call that runs no
/// command beside others.
#[tactic(auto, using(cc_host::proofs::Parts::since_append))]
pub(crate) fn tell<W: World, H: Host<W>>(
    rt: &impl Wait,
    task: &Task<'_>,
    caches: &Caches<W>,
    reads: Reads,
    host: &mut H,
    answers: &mut Answers,
) -> Result<(), Error>
    ensures asks { AsksForNames W.steady W.answer task.now reads H.log H.patience
        host.old host.new answers.old answers.new }
    ensures childless { list_any is_of_children (part H.log host.old host.new) ≡ false }
    ensures told { Holds answers.new (λ look. NamesTold reads task.now.set.now task.now.env.now
        result look (part H.log host.old host.new)) }
{
    let names = read_names(rt, task, caches, reads, host, answers)?;
    tell_names(rt, task, caches, host, names)
}

/// Asks what the names of the variables that the call read are planned by, and prints their lines, and no link line.
#[tactic(auto, using(cc_host::proofs::Parts::since_append))]
pub(crate) fn print_names<W: World, H: Host<W>, J: Jobs>(
    rt: &impl Wait,
    shared: &Shared<'_, W, J>,
    host: &mut H,
    seat: &mut J::Seat,
    turns: &mut Turns,
    answers: &mut Answers,
) -> Result<(), Error>
    requires idle { IsIdle J.fits J.held shared.now.jobs.now seat.old }
    requires few { turns.old.left + turns.old.used < 2 ^ 64 }
    requires plain { IsRun shared.now.task.set.now shared.now.reads }
    requires dir { shared.now.sources.now.dir
        ≡ probe_folder shared.now.task.set.now shared.now.task.env.now }
    ensures idle { IsIdle J.fits J.held shared.now.jobs.now seat.new }
    ensures total { J.total seat.new ≡ J.total seat.old }
    ensures sum { turns.new.left + turns.new.used ≡ turns.old.left + turns.old.used }
    ensures asks { AsksFor W.steady W.answer shared.now.task H.log H.patience
        host.old host.new answers.old answers.new }
    ensures outcome { ByKnown answers.new
        H.log H.patience J.total J.faults J.taken J.load turns.old.left turns.new.left
        host.old host.new seat.old seat.new (NamesEnd shared.now.task shared.now.reads result) }
{
    let (alloc, reporting) = (shared.task.reporting.alloc, shared.task.reporting);
    let names = plan_names(rt, shared, host, answers)?;
    let lines = names_alone(alloc, names);
    let listens = reporting.shows.listens;
    let stages = first_stages(rt, alloc, shared.caches, shared.task.set, listens, &lines)?;
    do_stages(reporting, host, shared.jobs, seat, turns, &stages)
}
