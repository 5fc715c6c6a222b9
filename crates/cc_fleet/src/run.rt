// The run of the commands of all members.
ghost use Rattle.std.specs.Prelude.{◌≡◌, ◌+◌, ◌<◌, ◌^◌, Err};
ghost use Rattle.cc_run.specs.Keeping.{IsIdle};
ghost use Rattle.cc_build.specs.Course.{OnCourse};
ghost use Rattle.cc_build.specs.Kept.{Aside};
ghost use Rattle.cc_fleet.specs.Run.{FailuresBy, FailuresAfter, RunsAlone, RunsBeside, RunsAll, RunsOn, marks_of, shown_by};

use crate::failures::{Failure, last_failures};
use crate::joined::Joined;
use cc_build::Error;
use cc_host::{Host, OutputKind, World};
use cc_jobs::Jobs;
use cc_run::{Listed, Mark, Planned, RunError, Shows, Turns, run_one, run_queue};
use std::alloc::Global;

// For each member the last of its commands that failed, by what began and ended.
fn failures_by(
    alloc: Global,
    joined: &Joined,
    marks: &[Mark],
) -> Result<Vec<Option<Failure>>, RunError>
    ensures { FailuresBy joined.now marks.now result }
{
    let (count, owners) = (joined.objects.len(), joined.owners.as_slice());
    Ok(last_failures(alloc, count, owners, marks)?)
}

// The same, where one command was run alone and its run ended so: its failure is the end that counts.
fn failures_alone(
    alloc: Global,
    joined: &Joined,
    e: RunError,
) -> Result<Vec<Option<Failure>>, RunError>
    ensures { FailuresAfter joined.now (marks_of (Err e)) result }
{
    match e {
        RunError::Failed(_, status) => failures_by(alloc, joined, &[Mark::Over(0, status)]),
        e => Err(e),
    }
}

// Runs one command alone.
fn run_lone<W: World, H: Host<W>>(
    alloc: Global,
    host: &mut H,
    turns: &mut Turns,
    cmd: &Planned,
    shows: &Shows,
    joined: &Joined,
) -> Result<Vec<Option<Failure>>, RunError>
    requires few { turns.old.left + turns.old.used < 2 ^ 64 }
    ensures aside { Aside H.log H.patience host.old host.new }
    ensures sum { turns.new.left + turns.new.used ≡ turns.old.left + turns.old.used }
    ensures ran { RunsAlone H.log H.patience turns.old.left turns.new.left host.old host.new
        shows.now cmd.now joined.now result }
{
    // (where the host tells its patience it is at least 1: a law of the log that is lent)
    let _least = host.log();
    match run_one(alloc, host, turns, cmd, shows) {
        Ok(()) => failures_by(alloc, joined, &[]),
        Err(e) => failures_alone(alloc, joined, e),
    }
}

// Runs several commands side by side.
fn run_several<W: World, H: Host<W>, J: Jobs>(
    alloc: Global,
    host: &mut H,
    jobs: &J,
    seat: &mut J::Seat,
    turns: &mut Turns,
    shows: &Shows,
    joined: &Joined,
) -> Result<Vec<Option<Failure>>, RunError>
    requires idle { IsIdle J.fits J.held jobs.now seat.old }
    requires few { turns.old.left + turns.old.used < 2 ^ 64 }
    ensures idle { IsIdle J.fits J.held jobs.now seat.new }
    ensures total { J.total seat.new ≡ J.total seat.old }
    ensures aside { Aside H.log H.patience host.old host.new }
    ensures sum { turns.new.left + turns.new.used ≡ turns.old.left + turns.old.used }
    ensures ran { OnCourse H.log H.patience J.total J.faults J.taken J.load
        turns.old.left turns.new.left host.old host.new seat.old seat.new
        (RunsBeside shows.now joined.now result) }
{
    // (where the host tells its patience it is at least 1: a law of the log that is lent)
    let _least = host.log();
    let mut queue = Listed::new(&joined.commands, shows.stop);
    match run_queue(alloc, host, jobs, seat, turns, &mut queue, shows) {
        Ok(marks) => failures_by(alloc, joined, marks.as_slice()),
        Err(e) => Err(e),
    }
}

// Runs the commands: several side by side, one alone.
fn run_commands<W: World, H: Host<W>, J: Jobs>(
    alloc: Global,
    host: &mut H,
    jobs: &J,
    seat: &mut J::Seat,
    turns: &mut Turns,
    shows: &Shows,
    joined: &Joined,
) -> Result<Vec<Option<Failure>>, RunError>
    requires idle { IsIdle J.fits J.held jobs.now seat.old }
    requires few { turns.old.left + turns.old.used < 2 ^ 64 }
    ensures idle { IsIdle J.fits J.held jobs.now seat.new }
    ensures total { J.total seat.new ≡ J.total seat.old }
    ensures aside { Aside H.log H.patience host.old host.new }
    ensures sum { turns.new.left + turns.new.used ≡ turns.old.left + turns.old.used }
    ensures ran { OnCourse H.log H.patience J.total J.faults J.taken J.load
        turns.old.left turns.new.left host.old host.new seat.old seat.new
        (RunsAll shows.now joined.now result) }
{
    match joined.commands.as_slice() {
        [] => failures_by(alloc, joined, &[]),
        [cmd] => run_lone(alloc, host, turns, cmd, shows, joined),
        _ => run_several(alloc, host, jobs, seat, turns, shows, joined),
    }
}

// What is shown of the commands of all members: what the first shows, and no failure stops a command.
fn shows_by(shows: Option<Shows>) -> Shows
    ensures { result ≡ shown_by shows }
{
    match shows {
        Some(shows) => Shows {
            stop: false,
            ..shows
        },
        None => Shows {
            warnings: false,
            debug: false,
            out: OutputKind::Discard,
            listens: false,
            stop: false,
        },
    }
}

/// Runs the commands of all members, and answers for each member which of its commands failed last.
pub(crate) fn run_joined<W: World, H: Host<W>, J: Jobs>(
    alloc: Global,
    host: &mut H,
    jobs: &J,
    seat: &mut J::Seat,
    turns: &mut Turns,
    joined: &Joined,
) -> Result<Vec<Option<Failure>>, Error>
    requires idle { IsIdle J.fits J.held jobs.now seat.old }
    requires few { turns.old.left + turns.old.used < 2 ^ 64 }
    ensures idle { IsIdle J.fits J.held jobs.now seat.new }
    ensures total { J.total seat.new ≡ J.total seat.old }
    ensures aside { Aside H.log H.patience host.old host.new }
    ensures sum { turns.new.left + turns.new.used ≡ turns.old.left + turns.old.used }
    ensures ran { OnCourse H.log H.patience J.total J.faults J.taken J.load
        turns.old.left turns.new.left host.old host.new seat.old seat.new
        (RunsOn joined.now result) }
{
    let shows = shows_by(joined.shows);
    match run_commands(alloc, host, jobs, seat, turns, &shows, joined) {
        Ok(failures) => Ok(failures),
        Err(e) => Err(Error::of_run(alloc, e, &joined.commands)),
    }
}
