// The parts of a run behind the folder of the objects. Each asks what it wants to know: the compile commands are
// planned, the library is written, and the lines for Cargo are printed.
ghost use Rattle.std.specs.Prelude.{◌≡◌, ◌⊎◌, ◌+◌, ◌<◌, ◌^◌, None, Some, IfOk, IfErr, false};
ghost use Rattle.std.specs.Option.{option_map};
ghost use Rattle.cc_host.specs.Call.{part};
ghost use Rattle.cc_host.specs.Question.{Holds, Settles};
ghost use Rattle.cc_flags.specs.Given.{probe_folder};
ghost use Rattle.cc_flags.specs.Names.{library_name};
ghost use Rattle.cc_plan.specs.Plan.{objects_of, library_of, archived_of, archived_refusal};
ghost use Rattle.cc_plan.specs.Refusal.{late_refusal, archiver_refusal, link_refusal};
ghost use Rattle.cc_plan.specs.Reruns.{rerun_names};
ghost use Rattle.cc_run.specs.Keeping.{IsIdle};
ghost use Rattle.cc_build.specs.Error.{no_memory};
ghost use Rattle.cc_build.specs.Kept.{AsksFor};
ghost use Rattle.cc_build.specs.Phases.{ByKnown, LibraryEnds, LinkedEnds};
ghost use Rattle.cc_build.specs.Questions.{Plans, Archives, Links, AreLines, IsRefusedBy, AsksOnly};
ghost use Rattle.cc_build.specs.Refusal.{plan_error as error_of_plan};
ghost use Rattle.cc_build.specs.Stage.{IsRun, folder_in};

use crate::Error;
use crate::directives::{Lines, first_stages};
use crate::library::write_library;
use crate::message::or_no_memory;
use crate::refusal::plan_error;
use crate::reruns::read_names;
use crate::stage::do_stages;
use crate::task::{Shared, Task};
use cc_host::{Host, World};
use cc_jobs::Jobs;
use cc_plan::{
    Archiver, Library, LinkPlan, Plan, PlanError, Sight, Sources, archived_paths, archiver_of,
    check_archived, plan_commands, plan_links as plan_of_links, target_info,
};
use cc_run::Turns;
use cc_text::{Mem, Words, parent};
use cc_tool::{Answers, Caches};
use std::alloc::Global;
use std::sync::Wait;

// The error of settings that are refused.
fn refused(task: &Task<'_>, error: PlanError) -> Error
    ensures { (result ≡ no_memory)
        ⊎ (result ≡ error_of_plan task.now.set.now task.now.env.now task.now.output.now error) }
{
    or_no_memory(plan_error(task.reporting.alloc, task.set, task.env, task.output, error))
}

// Plans the warnings and the compile commands.
#[tactic(auto, using(cc_host::proofs::Parts::since_append))]
pub(crate) fn plan_compiles<W: World, H: Host<W>>(
    rt: &impl Wait,
    task: &Task<'_>,
    host: &mut H,
    caches: &Caches<W>,
    answers: &mut Answers,
    sources: &Sources,
) -> Result<Plan, Error>
    requires dir { sources.now.dir ≡ probe_folder task.now.set.now task.now.env.now }
    requires objects { sources.now.objects.items ≡ objects_of task.now.set.now task.now.env.now }
    ensures quiet { AsksOnly (part H.log host.old host.new) }
    ensures asks { AsksFor W.steady W.answer task.now H.log H.patience
        host.old host.new answers.old answers.new }
    ensures planned { IfOk result (λ plan. Holds answers.new (Plans task.now plan)) }
    ensures refused { IfErr result (λ e. Holds answers.new
        (IsRefusedBy (late_refusal task.now.set.now task.now.env.now) task.now e)) }
{
    let mut sight = Sight {
        host,
        caches,
        answers,
        dir: sources.dir.as_str(),
    };
    match plan_commands(rt, task.set, task.env, sources, &mut sight) {
        Ok(plan) => Ok(plan),
        Err(error) => Err(refused(task, error)),
    }
}

// Plans the archiver.
#[tactic(auto, using(cc_host::proofs::Parts::since_append))]
fn plan_archiver<W: World, H: Host<W>>(
    rt: &impl Wait,
    task: &Task<'_>,
    host: &mut H,
    caches: &Caches<W>,
    answers: &mut Answers,
    sources: &Sources,
) -> Result<Archiver, Error>
    requires dir { sources.now.dir ≡ probe_folder task.now.set.now task.now.env.now }
    ensures quiet { AsksOnly (part H.log host.old host.new) }
    ensures asks { AsksFor W.steady W.answer task.now H.log H.patience
        host.old host.new answers.old answers.new }
    ensures planned { IfOk result (λ archiver. Holds answers.new (Archives task.now archiver)) }
    ensures refused { IfErr result (λ e. Holds answers.new
        (IsRefusedBy (archiver_refusal task.now.set.now task.now.env.now) task.now e)) }
{
    let mut sight = Sight {
        host,
        caches,
        answers,
        dir: sources.dir.as_str(),
    };
    match archiver_of(rt, task.reporting.alloc, task.set, task.env, &mut sight) {
        Ok(archiver) => Ok(archiver),
        Err(error) => Err(refused(task, error)),
    }
}

// The paths that the library gets, which the archiver can read and write for the target.
fn read_paths(task: &Task<'_>, archiver: &Archiver, sources: &Sources) -> Result<Words, Error>
    requires objects { sources.now.objects.items ≡ objects_of task.now.set.now task.now.env.now }
    ensures paths { IfOk result (λ paths. paths ≡ archived_of task.now.set.now task.now.env.now) }
    ensures allowed { IfOk result (λ _. archived_refusal task.now.set.now task.now.env.now
        archiver.now (archived_of task.now.set.now task.now.env.now) ≡ None) }
    ensures refused { IfErr result (λ e. (e ≡ no_memory) ⊎ (option_map
        (error_of_plan task.now.set.now task.now.env.now task.now.output.now)
        (archived_refusal task.now.set.now task.now.env.now archiver.now
        (archived_of task.now.set.now task.now.env.now)) ≡ Some e)) }
{
    let paths = archived_paths(task.reporting.alloc, task.set, &sources.objects)?;
    match check_archived(task.reporting.alloc, task.set, task.env, archiver, &paths) {
        Ok(()) => Ok(paths),
        Err(error) => Err(refused(task, error)),
    }
}

// The folder that has the library.
fn folder_of(library: &str) -> &str
    ensures { result.now ≡ folder_in library.now }
{
    match parent(library) {
        Some(folder) => folder,
        None => "",
    }
}

// Plans the link lines, with the warnings of the compiler that decides on the C++ library.
#[tactic(auto, using(cc_host::proofs::Parts::since_append))]
fn plan_links<W: World, H: Host<W>>(
    rt: &impl Wait,
    task: &Task<'_>,
    host: &mut H,
    caches: &Caches<W>,
    answers: &mut Answers,
    sources: &Sources,
) -> Result<LinkPlan, Error>
    requires dir { sources.now.dir ≡ probe_folder task.now.set.now task.now.env.now }
    ensures quiet { AsksOnly (part H.log host.old host.new) }
    ensures asks { AsksFor W.steady W.answer task.now H.log H.patience
        host.old host.new answers.old answers.new }
    ensures planned { IfOk result (λ plan. Holds answers.new
        (Links task.now sources.now.name sources.now.library plan)) }
    ensures refused { IfErr result (λ e. Holds answers.new
        (IsRefusedBy (link_refusal task.now.set.now task.now.env.now) task.now e)) }
{
    let mut sight = Sight {
        host,
        caches,
        answers,
        dir: sources.dir.as_str(),
    };
    let (name, dir) = (sources.name.as_str(), folder_of(sources.library.as_str()));
    match plan_of_links(
        rt,
        task.reporting.alloc,
        task.set,
        task.env,
        name,
        dir,
        &mut sight,
    ) {
        Ok(plan) => Ok(plan),
        Err(error) => Err(refused(task, error)),
    }
}

/// Asks for the archiver, removes the old library, and writes the new one.
#[tactic(auto, using(cc_host::proofs::Parts::since_append))]
pub(crate) fn archive_objects<W: World, H: Host<W>, J: Jobs>(
    rt: &impl Wait,
    shared: &Shared<'_, W, J>,
    host: &mut H,
    seat: &mut J::Seat,
    turns: &mut Turns,
    answers: &mut Answers,
) -> Result<(), Error>
    requires idle { IsIdle J.fits J.held shared.now.jobs.now seat.old }
    requires few { turns.old.left + turns.old.used < 2 ^ 64 }
    requires dir { shared.now.sources.now.dir
        ≡ probe_folder shared.now.task.set.now shared.now.task.env.now }
    requires name { shared.now.sources.now.name ≡ library_name shared.now.task.output.now }
    requires library { shared.now.sources.now.library ≡ library_of
        shared.now.task.set.now shared.now.task.env.now shared.now.task.output.now }
    requires objects { shared.now.sources.now.objects.items
        ≡ objects_of shared.now.task.set.now shared.now.task.env.now }
    ensures idle { IsIdle J.fits J.held shared.now.jobs.now seat.new }
    ensures total { J.total seat.new ≡ J.total seat.old }
    ensures sum { turns.new.left + turns.new.used ≡ turns.old.left + turns.old.used }
    ensures asks { AsksFor W.steady W.answer shared.now.task H.log H.patience
        host.old host.new answers.old answers.new }
    ensures outcome { ByKnown answers.new
        H.log H.patience J.total J.faults J.taken J.load turns.old.left turns.new.left
        host.old host.new seat.old seat.new (LibraryEnds shared.now.task result) }
{
    let archiver = match plan_archiver(
        rt,
        &shared.task,
        host,
        shared.caches,
        answers,
        shared.sources,
    ) {
        Ok(archiver) => archiver,
        Err(error) => return Err(error),
    };
    let (task, sources) = (&shared.task, shared.sources);
    let paths = read_paths(task, &archiver, sources)?;
    let target = target_info(task.set, task.env);
    let name = sources.name.as_str();
    let path = sources.library.as_str();
    let library = Library {
        target: &target,
        archiver: &archiver,
        env: task.env,
        name,
        path,
        paths: &paths,
    };
    write_library(task.reporting, host, shared.jobs, seat, turns, &library)
}

/// Plans of which variables Cargo is told.
#[tactic(auto, using(cc_host::proofs::Parts::since_append))]
pub(crate) fn plan_names<W: World, H: Host<W>, J>(
    rt: &impl Wait,
    shared: &Shared<'_, W, J>,
    host: &mut H,
    answers: &mut Answers,
) -> Mem<Words>
    requires plain { IsRun shared.now.task.set.now shared.now.reads }
    requires dir { shared.now.sources.now.dir
        ≡ probe_folder shared.now.task.set.now shared.now.task.env.now }
    ensures quiet { AsksOnly (part H.log host.old host.new) }
    ensures asks { AsksFor W.steady W.answer shared.now.task H.log H.patience
        host.old host.new answers.old answers.new }
    ensures planned { IfOk result (λ names. Settles answers.new
        (rerun_names shared.now.reads shared.now.task.set.now shared.now.task.env.now) names) }
{
    read_names(rt, &shared.task, shared.caches, shared.reads, host, answers)
}

// Plans the lines for Cargo.
#[tactic(auto, using(cc_host::proofs::Parts::since_append))]
fn plan_lines<W: World, H: Host<W>, J>(
    rt: &impl Wait,
    shared: &Shared<'_, W, J>,
    host: &mut H,
    answers: &mut Answers,
) -> Result<Lines, Error>
    requires plain { IsRun shared.now.task.set.now shared.now.reads }
    requires dir { shared.now.sources.now.dir
        ≡ probe_folder shared.now.task.set.now shared.now.task.env.now }
    ensures quiet { AsksOnly (part H.log host.old host.new) }
    ensures asks { AsksFor W.steady W.answer shared.now.task H.log H.patience
        host.old host.new answers.old answers.new }
    ensures planned { IfOk result (λ lines. Holds answers.new
        (AreLines shared.now.task shared.now.reads
        shared.now.sources.now.name shared.now.sources.now.library lines)) }
    ensures refused { IfErr result (λ e. Holds answers.new
        (IsRefusedBy (link_refusal shared.now.task.set.now shared.now.task.env.now)
        shared.now.task e)) }
{
    let names = plan_names(rt, shared, host, answers)?;
    match plan_links(
        rt,
        &shared.task,
        host,
        shared.caches,
        answers,
        shared.sources,
    ) {
        Ok(links) => Ok(Lines { links, names }),
        Err(error) => Err(error),
    }
}

/// Asks what the link lines are planned by, tells a host that listens of the compiler that decides on the C++ library,
/// and prints the lines, and then those of the variables that the call read.
#[tactic(auto, using(cc_host::proofs::Parts::since_append))]
pub(crate) fn print_links<W: World, H: Host<W>, J: Jobs>(
    rt: &impl Wait,
    shared: &Shared<'_, W, J>,
    host: &mut H,
    seat: &mut J::Seat,
    turns: &mut Turns,
    answers: &mut Answers,
) -> Result<(), Error>
    requires idle { IsIdle J.fits J.held shared.now.jobs.now seat.old }
    requires few { turns.old.left + turns.old.used < 2 ^ 64 }
    requires plain { IsRun shared.now.task.set.now shared.now.reads }
    requires dir { shared.now.sources.now.dir
        ≡ probe_folder shared.now.task.set.now shared.now.task.env.now }
    ensures idle { IsIdle J.fits J.held shared.now.jobs.now seat.new }
    ensures total { J.total seat.new ≡ J.total seat.old }
    ensures sum { turns.new.left + turns.new.used ≡ turns.old.left + turns.old.used }
    ensures asks { AsksFor W.steady W.answer shared.now.task H.log H.patience
        host.old host.new answers.old answers.new }
    ensures outcome { ByKnown answers.new
        H.log H.patience J.total J.faults J.taken J.load turns.old.left turns.new.left
        host.old host.new seat.old seat.new (LinkedEnds shared.now.task shared.now.reads
        shared.now.sources.now.name shared.now.sources.now.library result) }
{
    let lines = match plan_lines(rt, shared, host, answers) {
        Ok(lines) => lines,
        Err(error) => return Err(error),
    };
    let stages = first_stages(
        rt,
        shared.task.reporting.alloc,
        shared.caches,
        shared.task.set,
        shared.task.reporting.shows.listens,
        &lines,
    )?;
    do_stages(
        shared.task.reporting,
        host,
        shared.jobs,
        seat,
        turns,
        &stages,
    )
}
