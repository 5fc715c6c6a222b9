// Starts the commands of a run.
ghost use Rattle.std.specs.Prelude.{◌≡◌, ◌++◌, ◌+◌, ◌<◌, ◌^◌, IfOk, IfErr, Some, length, if◌then◌else◌};
ghost use Rattle.cc_host.specs.Call.{part};
ghost use Rattle.cc_run.specs.Keeping.{IsOneRun};
ghost use Rattle.cc_run.specs.Life.{IsNewcomer};
ghost use Rattle.cc_run.specs.Listed.{listed_plan};
ghost use Rattle.cc_run.specs.Plan.{IsNext};
ghost use Rattle.cc_run.specs.Printing.{IsPrinted};
ghost use Rattle.cc_run.specs.Rules.{rules, rules_of};
ghost use Rattle.cc_run.specs.Seat.{seen_by, MissesBy};
ghost use Rattle.cc_run.specs.Started.{IsStart, IsFilled, StartsOne};
ghost use Rattle.cc_run.specs.State.{Agrees, Moves};
ghost use Rattle.cc_run.specs.declared.planned.Turns.{Turns as TurnsSeen};

use crate::error::start_error;
use crate::messages::before;
use crate::planned::{Batch, pipes_of};
use crate::print::print_all;
use crate::running::Child;
use crate::{Forwarder, Listed, Mark, Planned, Queue, RunError, Running, Shows, Step};
use cc_host::{Host, Start, World};
use cc_jobs::{JobFault, Jobs, Take};

// Starts the command at a place, for a caller that holds so many tokens, and gives the id of its child.
#[tactic(auto, using(crate::proofs::StartLemmas::start_unprinted, crate::proofs::MarkLemmas::begins_began, crate::proofs::MarkLemmas::failed_began, crate::proofs::MarkLemmas::begins_within))]
pub(crate) fn start<W: World, H: Host<W>>(
    host: &mut H,
    planned: &Planned,
    place: usize,
    held: u64,
    running: &mut Running,
    shows: &Shows,
) -> Result<u64, RunError>
    ensures extends { H.log host.new ≡ H.log host.old ++ part H.log host.old host.new }
    ensures patient { H.patience host.new ≡ H.patience host.old }
    ensures part { IsStart shows.now planned.now place held running.old result running.new
        (part H.log host.old host.new) }
    ensures fresh { IfOk result (λ id. IsNewcomer (H.log host.old) id) }
{
    let alloc = running.alloc();
    let more = running.children.len().saturating_add(2);
    running.children.reserve(1)?;
    running.marks.reserve(more)?;
    let lines = before(alloc, shows, planned)?;
    if let Err(e) = print_all(host, &lines) {
        return Err(e);
    }
    match host.start(planned.role, &planned.cmd, pipes_of(shows), held) {
        Ok(Start::Child(id)) => {
            let rest = Forwarder::new(alloc);
            running.children.push_reserved(Child { id, place, rest });
            running.marks.push_reserved(Mark::Began(place));
            running.begun += 1;
            Ok(id)
        }
        Ok(Start::Missing) => Err(RunError::ToolNotFound(place as u64)),
        Err(e) => Err(start_error(e, place as u64)),
    }
}

// How many tokens a start carries.
fn carried<J: Jobs>(batch: &Batch<'_, J>, seat: &J::Seat) -> u64
    requires { J.fits batch.now.jobs.now seat.now }
    ensures { result ≡ (if batch.now.counted then J.held seat.now else 0) }
{
    if batch.counted {
        batch.jobs.held(seat)
    } else {
        0
    }
}

// Takes a token and starts the next command under it.
fn start_next<W: World, H: Host<W>, J: Jobs, Q: Queue>(
    host: &mut H,
    seat: &mut J::Seat,
    queue: &mut Q,
    running: &mut Running,
    place: usize,
    batch: &Batch<'_, J>,
) -> Result<Step, RunError>
    requires agrees { Agrees J.fits J.held Q.stands batch.now.jobs.now
        seat.old queue.old running.old }
    requires next { IsNext (Q.plan queue.old) running.old.marks (Some place) }
    ensures agrees { Agrees J.fits J.held Q.stands batch.now.jobs.now
        seat.new queue.new running.new }
    ensures plan { Q.plan queue.new ≡ Q.plan queue.old }
    ensures steps { (turns : TurnsSeen) → Moves H.log H.patience
        (seen_by J.held J.total J.taken J.load J.faults)
        (rules_of batch.now (Q.plan queue.old)) (J.total seat.old)
        host.old running.old seat.old turns result host.new running.new seat.new turns }
    ensures missed { MissesBy result (J.misses seat.old) (J.misses seat.new) }
    ensures started { IfOk result (StartsOne (Q.plan queue.old) (J.total seat.old)
        running.old running.new) }
    ensures lines { IsPrinted (rules_of batch.now (Q.plan queue.old))
        running.old result (part H.log host.old host.new) }
{
    // (as many children as a list can have are fewer than the greatest u64)
    let _few = running.len();
    match batch.jobs.take(seat) {
        Ok(Take::Token) => {}
        Ok(Take::Pending) => return Ok(Step::Pending),
        Err(JobFault) => return Err(RunError::JobFault),
    }
    let held = carried(batch, seat);
    let Some(planned) = queue.command(place) else {
        // (the next place is one of the queue's)
        unreachable!();
    };
    match start(host, planned, place, held, running, batch.shows) {
        Ok(_) => {
            queue.begin(place);
            Ok(Step::Ready)
        }
        Err(e) => {
            batch.jobs.give(seat);
            Err(e)
        }
    }
}

// Takes a token and starts the next command under it, again and again, until none may be started or no token comes.
pub(crate) fn fill<W: World, H: Host<W>, J: Jobs, Q: Queue>(
    host: &mut H,
    seat: &mut J::Seat,
    queue: &mut Q,
    running: &mut Running,
    batch: &Batch<'_, J>,
) -> Result<Step, RunError>
    requires agrees { Agrees J.fits J.held Q.stands batch.now.jobs.now
        seat.old queue.old running.old }
    ensures agrees { Agrees J.fits J.held Q.stands batch.now.jobs.now
        seat.new queue.new running.new }
    ensures plan { Q.plan queue.new ≡ Q.plan queue.old }
    ensures steps { (turns : TurnsSeen) → Moves H.log H.patience
        (seen_by J.held J.total J.taken J.load J.faults)
        (rules_of batch.now (Q.plan queue.old)) (J.total seat.old)
        host.old running.old seat.old turns result host.new running.new seat.new turns }
    ensures filled { IfOk result (IsFilled (Q.plan queue.old) (J.total seat.old) running.new) }
    ensures missed { MissesBy result (J.misses seat.old) (J.misses seat.new) }
    ensures lines { IsPrinted (rules_of batch.now (Q.plan queue.old))
        running.old result (part H.log host.old host.new) }
{
    'starts: loop {
        let place = match queue.next() {
            Some(place) => place,
            None => return Ok(Step::Ready),
        };
        match start_next(host, seat, queue, running, place, batch) {
            Ok(Step::Ready) => {}
            Ok(Step::Pending) => return Ok(Step::Pending),
            Err(e) => return Err(e),
        }
    }
}

/// The poll that starts the commands of a run. What it has started stands in `Running`.
#[derive(Clone, Copy, Debug, PartialEq, Eq)]
pub struct SpawnState;

impl SpawnState {
    /// The poll of a run that begins. It takes no memory.
    pub fn new() -> SpawnState {
        SpawnState
    }

    /// Takes a token and starts the next command under it, again and again, until no token comes or none may be
    /// started. It is ready exactly where all are started, or where `shows.stop` is on and a child of the run failed;
    /// else, over a pool that one caller owns, the seat holds the pool's total.
    ///
    /// Refused are a missing program, a fault of the host or of the pool, and want of memory: no command more is
    /// started then, and the token of the start that ended it was given back. Those that were started before run on.
    pub fn poll<W: World, H: Host<W>, J: Jobs>(
        &mut self,
        host: &mut H,
        jobs: &J,
        seat: &mut J::Seat,
        cmds: &[Planned],
        running: &mut Running,
        shows: &Shows,
    ) -> Result<Step, RunError>
        requires one_run { IsOneRun J.fits J.held jobs.now seat.old running.old }
        ensures one_run { IsOneRun J.fits J.held jobs.now seat.new running.new }
        ensures steps { (turns : TurnsSeen) → Moves H.log H.patience
            (seen_by J.held J.total J.taken J.load J.faults)
            (rules (listed_plan shows.now.stop cmds.now) shows.now) (J.total seat.old)
            host.old running.old seat.old turns result host.new running.new seat.new turns }
        ensures filled { IfOk result (IsFilled (listed_plan shows.now.stop cmds.now)
            (J.total seat.old) running.new) }
        ensures missed { MissesBy result (J.misses seat.old) (J.misses seat.new) }
        ensures lines { IsPrinted (rules (listed_plan shows.now.stop cmds.now) shows.now)
            running.old result (part H.log host.old host.new) }
    {
        let batch = Batch {
            jobs,
            shows,
            warns: true,
            counted: true,
        };
        let mut queue = Listed::at(cmds, shows.stop, running.begun(), running.has_failed());
        fill(host, seat, &mut queue, running, &batch)
    }
}
