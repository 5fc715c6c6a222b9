// Runs a queue, or a list of commands, to its end.
ghost use Rattle.std.specs.Prelude.{◌≡◌, ◌++◌, ◌+◌, ◌<◌, ◌^◌, ◌⊎◌, [], length, true, false, OnOk};
ghost use Rattle.cc_host.specs.Call.{part};
ghost use Rattle.cc_host.specs.Children.{InOrder, running as running_on};
ghost use Rattle.cc_run.specs.Children.{nothing_kept, run_of};
ghost use Rattle.cc_run.specs.Keeping.{IsIdle};
ghost use Rattle.cc_run.specs.Listed.{listed_plan};
ghost use Rattle.cc_run.specs.Marks.{failure_after, last_failure};
ghost use Rattle.cc_run.specs.Outcome.{IsSettled, by_failure as by_failure_of};
ghost use Rattle.cc_run.specs.Printing.{IsPrinted};
ghost use Rattle.cc_run.specs.Rules.{rules, rules_of};
ghost use Rattle.cc_run.specs.Run.{ids, gone};
ghost use Rattle.cc_run.specs.Seat.{seen_by, Returned};
ghost use Rattle.cc_run.specs.State.{Agrees, Moves};
ghost use Rattle.cc_run.specs.Whole.{HasRun, HasRunList};

use crate::planned::{Batch, Pace};
use crate::running::Marks;
use crate::spawn::fill;
use crate::wait::turn;
use crate::{Listed, Mark, Planned, Queue, RunError, Running, Shows, Step, Turns, WaitState};
use cc_host::{Host, Status, World};
use cc_jobs::Jobs;
use std::alloc::Global;

// Whether nothing may be started, and nothing runs.
fn is_over(spawned: Step, running: &Running) -> bool
    ensures yes { result ≡ true → (spawned ≡ Step.Ready) × (running.now.children ≡ []) }
    ensures no { result ≡ false → (spawned ≡ Step.Pending) ⊎ (0 < length running.now.children) }
{
    matches!(spawned, Step::Ready) && running.len() == 0
}

// Starts what may be started and makes a turn, again and again, until nothing runs and nothing may be started.
fn run_on<W: World, H: Host<W>, J: Jobs, Q: Queue>(
    host: &mut H,
    seat: &mut J::Seat,
    pace: &mut Pace,
    queue: &mut Q,
    running: &mut Running,
    batch: &Batch<'_, J>,
) -> Result<(), RunError>
    requires agrees { Agrees J.fits J.held Q.stands batch.now.jobs.now
        seat.old queue.old running.old }
    requires few { pace.old.turns.left + pace.old.turns.used < 2 ^ 64 }
    ensures agrees { Agrees J.fits J.held Q.stands batch.now.jobs.now
        seat.new queue.new running.new }
    ensures plan { Q.plan queue.new ≡ Q.plan queue.old }
    ensures steps { Moves H.log H.patience (seen_by J.held J.total J.taken J.load J.faults)
        (rules_of batch.now (Q.plan queue.old)) (J.total seat.old)
        host.old running.old seat.old pace.old.turns
        result host.new running.new seat.new pace.new.turns }
    ensures settled { OnOk result (IsSettled (Q.plan queue.old) (run_of running.new)) }
    ensures lines { IsPrinted (rules_of batch.now (Q.plan queue.old))
        running.old result (part H.log host.old host.new) }
{
    'passes: loop {
        let spawned = match fill(host, seat, queue, running, batch) {
            Ok(step) => step,
            Err(e) => return Err(e),
        };
        if is_over(spawned, running) {
            break 'passes;
        }
        match turn(host, seat, pace, queue, running, batch) {
            Ok(()) => {}
            Err(e) => return Err(e),
        }
    }
    Ok(())
}

/// Leaves each child alone that runs, and then gives its token back. It takes no memory and can't be refused.
#[tactic(auto, using(crate::proofs::Drops::runs_abandoned))]
pub fn drop_all<W: World, H: Host<W>, J: Jobs>(
    host: &mut H,
    jobs: &J,
    seat: &mut J::Seat,
    running: &Running,
)
    requires fits { J.fits jobs.now seat.old }
    requires one_run { J.held seat.old ≡ length running.now.children }
    requires own { InOrder (ids (run_of running.now).live) (running_on (H.log host.old)) }
    ensures idle { IsIdle J.fits J.held jobs.now seat.new }
    ensures seat { Returned (seen_by J.held J.total J.taken J.load J.faults seat.old)
        (seen_by J.held J.total J.taken J.load J.faults seat.new) }
    ensures patient { H.patience host.new ≡ H.patience host.old }
    ensures adds { H.log host.new ≡ H.log host.old ++ gone (run_of running.now).live }
{
    for child in &running.children {
        host.abandon(child.id);
        jobs.give(seat);
    }
}

// Runs a queue from its start to its end.
pub(crate) fn run_batch<W: World, H: Host<W>, J: Jobs, Q: Queue>(
    alloc: Global,
    host: &mut H,
    seat: &mut J::Seat,
    turns: &mut Turns,
    queue: &mut Q,
    batch: &Batch<'_, J>,
) -> Result<Marks, RunError>
    requires idle { IsIdle J.fits J.held batch.now.jobs.now seat.old }
    requires fresh { Q.stands queue.old [] }
    requires few { turns.old.left + turns.old.used < 2 ^ 64 }
    ensures idle { IsIdle J.fits J.held batch.now.jobs.now seat.new }
    ensures plan { Q.plan queue.new ≡ Q.plan queue.old }
    ensures ran { HasRun H.log H.patience (seen_by J.held J.total J.taken J.load J.faults)
        (rules_of batch.now (Q.plan queue.old)) (J.total seat.old)
        host.old seat.old turns.old result host.new seat.new turns.new }
    ensures lines { IsPrinted (rules_of batch.now (Q.plan queue.old))
        nothing_kept result (part H.log host.old host.new) }
{
    let mut running = Running::new(alloc);
    let mut pace = Pace {
        turns: *turns,
        wait: WaitState::new(),
    };
    let result = run_on(host, seat, &mut pace, queue, &mut running, batch);
    *turns = pace.turns;
    drop_all(host, batch.jobs, seat, &running);
    match result {
        Ok(()) => Ok(running.into_marks()),
        Err(e) => Err(e),
    }
}

/// Runs the commands of a queue to their ends, each under a token, and as many side by side as there are tokens. The
/// next command is the least that may be started, and its start carries how many tokens the seat then holds. It answers
/// what began and what ended, in order; a failed command ends no run.
///
/// Refused are a missing program; a fault of the host or of the pool; want of memory; and want of turns, where `turns`
/// are used up and a command runs or may be started. They end the run at once: the children that run are abandoned.
/// After each answer the seat holds nothing, and no child of the run is left. Both counts of the seat rose by the
/// starts; where a start ended the run, the token of that start stands in them too.
///
/// What is printed and said is as for `run_all`.
pub fn run_queue<W: World, H: Host<W>, J: Jobs, Q: Queue>(
    alloc: Global,
    host: &mut H,
    jobs: &J,
    seat: &mut J::Seat,
    turns: &mut Turns,
    queue: &mut Q,
    shows: &Shows,
) -> Result<Marks, RunError>
    requires idle { IsIdle J.fits J.held jobs.now seat.old }
    requires fresh { Q.stands queue.old [] }
    requires few { turns.old.left + turns.old.used < 2 ^ 64 }
    ensures idle { IsIdle J.fits J.held jobs.now seat.new }
    ensures plan { Q.plan queue.new ≡ Q.plan queue.old }
    ensures ran { HasRun H.log H.patience (seen_by J.held J.total J.taken J.load J.faults)
        (rules (Q.plan queue.old) shows.now) (J.total seat.old)
        host.old seat.old turns.old result host.new seat.new turns.new }
    ensures lines { IsPrinted (rules (Q.plan queue.old) shows.now)
        nothing_kept result (part H.log host.old host.new) }
{
    // (where the host tells its patience it is at least 1: a law of the log that is lent)
    let _least = host.log();
    let batch = Batch {
        jobs,
        shows,
        warns: true,
        counted: true,
    };
    run_batch(alloc, host, seat, turns, queue, &batch)
}

// The last failure, after one mark more.
fn after(last: Option<(usize, Status)>, mark: Mark) -> Option<(usize, Status)>
    ensures { result ≡ failure_after last mark }
{
    match mark {
        Mark::Began(_) => last,
        Mark::Over(place, status) => {
            if status.is_success() {
                last
            } else {
                Some((place, status))
            }
        }
    }
}

/// The last end with another status than 0, by its place, and none where there is none. It takes no memory.
pub fn failure_of(marks: &[Mark]) -> Option<(usize, Status)>
    ensures { result ≡ last_failure marks.now }
{
    let mut last = None;
    for mark in marks {
        last = after(last, *mark);
    }
    last
}

// The answer by the last failure.
pub(crate) fn by_failure(failure: Option<(usize, Status)>) -> Result<(), RunError>
    ensures { result ≡ by_failure_of failure }
{
    match failure {
        Some((place, status)) => Err(RunError::Failed(place as u64, status)),
        None => Ok(()),
    }
}

/// Runs a list of commands to their ends, each under a token, and as many side by side as there are tokens. They start
/// in list order, and each start carries how many tokens the seat then holds. A failed command stops no other, unless
/// `shows.stop` is on: then no command is started after one failed, and those that run are waited for.
///
/// Refused are a failed command, by the one that ended last; a missing program; a fault of the host or of the pool;
/// want of memory; and want of turns, where `turns` are used up and a command runs or may be started. All but the first
/// end the run at once: the children that run are abandoned. After each answer the seat holds nothing, and no child of
/// the run is left. Both counts of the seat rose by the starts; where a start ended the run, the token of that start
/// stands in them too.
///
/// Printed are, as `shows` says, a line before each command, the lines of each standard error as they come, a line with
/// the status of each that ended, and a warning of each that failed. To a host that listens is said, just before the
/// start of a command with a message, that it compiles; each line of each standard error; that one can't be read; and
/// each failure, also where no warnings are shown. A refused line, message or memory leaves the first of these.
///
/// Where one caller owns the pool, no more turns are made than the host's patience for each command.
pub fn run_all<W: World, H: Host<W>, J: Jobs>(
    alloc: Global,
    host: &mut H,
    jobs: &J,
    seat: &mut J::Seat,
    turns: &mut Turns,
    cmds: &[Planned],
    shows: &Shows,
) -> Result<(), RunError>
    requires idle { IsIdle J.fits J.held jobs.now seat.old }
    requires few { turns.old.left + turns.old.used < 2 ^ 64 }
    ensures idle { IsIdle J.fits J.held jobs.now seat.new }
    ensures ran { HasRunList H.log H.patience (seen_by J.held J.total J.taken J.load J.faults)
        (rules (listed_plan shows.now.stop cmds.now) shows.now) (J.total seat.old)
        host.old seat.old turns.old result host.new seat.new turns.new }
    ensures lines { IsPrinted (rules (listed_plan shows.now.stop cmds.now) shows.now)
        nothing_kept result (part H.log host.old host.new) }
{
    let mut queue = Listed::new(cmds, shows.stop);
    match run_queue(alloc, host, jobs, seat, turns, &mut queue, shows) {
        Ok(marks) => by_failure(failure_of(marks.as_slice())),
        Err(e) => Err(e),
    }
}
