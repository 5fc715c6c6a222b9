// Waits for the children of a run.
ghost use Rattle.std.specs.Prelude.{◌≡◌, ◌++◌, ◌∷◌, [], ◌+◌, ◌<◌, ◌^◌, ℕ, Option, IfOk, IfErr, OnOk, MatchResult, length, true, false};
ghost use Rattle.cc_host.specs.Call.{part};
ghost use Rattle.cc_host.specs.Event.{reported};
ghost use Rattle.cc_host.specs.Children.{IsNews, Waits};
ghost use Rattle.cc_host.specs.declared.event.Event.TheVariants.{Turn as OneTurn};
ghost use Rattle.cc_run.specs.Children.{run_of};
ghost use Rattle.cc_run.specs.Hearing.{children_from, owed_from, reports};
ghost use Rattle.cc_run.specs.Keeping.{IsOneRun, IsOneFewer};
ghost use Rattle.cc_run.specs.Listed.{listed_plan};
ghost use Rattle.cc_run.specs.Outcome.{IsSettled, IsUnturned};
ghost use Rattle.cc_run.specs.Part.{Busy};
ghost use Rattle.cc_run.specs.Printing.{IsPrinted};
ghost use Rattle.cc_run.specs.Prints.{ArePrinted, IsPrintError};
ghost use Rattle.cc_run.specs.Rules.{rules, rules_of};
ghost use Rattle.cc_run.specs.Run.{ended_run, run_from};
ghost use Rattle.cc_run.specs.Seat.{seen_by, Returned};
ghost use Rattle.cc_run.specs.Started.{IsLeft};
ghost use Rattle.cc_run.specs.State.{Agrees, Moves};

use crate::error::turn_error;
use crate::hearing::{hear, push_end};
use crate::planned::{Batch, Pace};
use crate::print::{Notice, print_all};
use crate::{Listed, Planned, Queue, RunError, Running, Shows, Step, Turns};
use cc_host::{Host, News, World};
use cc_jobs::Jobs;
use cc_text::Mem;

/// The poll that waits for the children of a run. It keeps for how many passes nothing was started and nothing ended,
/// by which a turn rests: as many milliseconds, at most 10.
#[derive(Clone, Copy, Debug, PartialEq, Eq)]
pub struct WaitState {
    idle: u64,
    marks: usize,
}

// Takes the news of one child. One that ended is taken out of the run, the queue is told, and its token given back, in
// any case.
fn settle<J: Jobs, Q: Queue>(
    seat: &mut J::Seat,
    queue: &mut Q,
    running: &mut Running,
    news: &News,
    batch: &Batch<'_, J>,
    lines: &mut Vec<Notice>,
) -> Mem<()>
    requires agrees { Agrees J.fits J.held Q.stands batch.now.jobs.now
        seat.old queue.old running.old }
    ensures agrees { Agrees J.fits J.held Q.stands batch.now.jobs.now
        seat.new queue.new running.new }
    ensures plan { Q.plan queue.new ≡ Q.plan queue.old }
    ensures seat { Returned (seen_by J.held J.total J.taken J.load J.faults seat.old)
        (seen_by J.held J.total J.taken J.load J.faults seat.new) }
    ensures run { run_of running.new ≡ ended_run (run_of running.old) news.now.id news.now.ended }
    ensures children { OnOk result (running.new.children
        ≡ children_from running.old.children (reported news.now)) }
    ensures lines { OnOk result (lines.new.items ≡ lines.old.items
        ++ owed_from batch.now.shows.now batch.now.warns (Q.plan queue.old).cmds
        running.old.children (reported news.now)) }
{
    let heard = hear(running, news, queue, batch.shows, lines);
    let Some(status) = news.ended else {
        return heard;
    };
    let Some(mut child) = running.end(news.id, status) else {
        return heard;
    };
    queue.end(child.place, status);
    batch.jobs.give(seat);
    heard?;
    let Some(planned) = queue.command(child.place) else {
        return Ok(());
    };
    push_end(&mut child, planned, status, batch.shows, batch.warns, lines)
}

// Does so for each piece of news, in order.
#[tactic(auto, using(crate::proofs::Runs::news_run))]
fn settle_all<J: Jobs, Q: Queue>(
    seat: &mut J::Seat,
    queue: &mut Q,
    running: &mut Running,
    news: &[News],
    batch: &Batch<'_, J>,
    lines: &mut Vec<Notice>,
) -> Mem<()>
    requires agrees { Agrees J.fits J.held Q.stands batch.now.jobs.now
        seat.old queue.old running.old }
    ensures agrees { Agrees J.fits J.held Q.stands batch.now.jobs.now
        seat.new queue.new running.new }
    ensures plan { Q.plan queue.new ≡ Q.plan queue.old }
    ensures seat { Returned (seen_by J.held J.total J.taken J.load J.faults seat.old)
        (seen_by J.held J.total J.taken J.load J.faults seat.new) }
    ensures run { run_of running.new
        ≡ run_from (Q.plan queue.old) (run_of running.old) (reports news.now) }
    ensures children { OnOk result (running.new.children
        ≡ children_from running.old.children (reports news.now)) }
    ensures lines { OnOk result (lines.new.items ≡ lines.old.items
        ++ owed_from batch.now.shows.now batch.now.warns (Q.plan queue.old).cmds
        running.old.children (reports news.now)) }
{
    let mut done = Ok(());
    for item in news {
        let one = settle(seat, queue, running, item, batch, lines);
        done = done.and(one);
    }
    done
}

// Makes one turn, where one is left.
#[tactic(auto, using(cc_host::proofs::Parts::since_append))]
fn turn_once<W: World, H: Host<W>>(
    host: &mut H,
    turns: &mut Turns,
    rest_ms: u64,
) -> Result<Vec<News>, RunError>
    requires few { turns.old.left + turns.old.used < 2 ^ 64 }
    ensures patient { H.patience host.new ≡ H.patience host.old }
    ensures ok { IfOk result (λ news.
        H.log host.new ≡ H.log host.old ++ OneTurn 1 ∷ reports news.items) }
    ensures err { IfErr result (λ e. IsUnturned (H.log host.old) (H.log host.new) e) }
    ensures news { IfOk result (λ news. IsNews (H.log host.old) news.items) }
    ensures waits { OnOk result (Waits (H.patience host.new) (H.log host.new)) }
    ensures spent { result ≡ Err RunError.TurnsSpent → turns.old.left ≡ 0 }
    ensures turns { MatchResult result
        (λ _. IsOneFewer turns.old turns.new) (λ _. turns.new ≡ turns.old) }
{
    if turns.left == 0 {
        return Err(RunError::TurnsSpent);
    }
    match host.turn(rest_ms) {
        Ok(news) => {
            turns.left -= 1;
            turns.used += 1;
            Ok(news)
        }
        Err(e) => Err(turn_error(e)),
    }
}

// Takes the news of a turn, and prints the lines that they give.
fn take_news<W: World, H: Host<W>, J: Jobs, Q: Queue>(
    host: &mut H,
    seat: &mut J::Seat,
    queue: &mut Q,
    running: &mut Running,
    news: &[News],
    batch: &Batch<'_, J>,
) -> Result<(), RunError>
    requires agrees { Agrees J.fits J.held Q.stands batch.now.jobs.now
        seat.old queue.old running.old }
    ensures agrees { Agrees J.fits J.held Q.stands batch.now.jobs.now
        seat.new queue.new running.new }
    ensures plan { Q.plan queue.new ≡ Q.plan queue.old }
    ensures seat { Returned (seen_by J.held J.total J.taken J.load J.faults seat.old)
        (seen_by J.held J.total J.taken J.load J.faults seat.new) }
    ensures run { run_of running.new
        ≡ run_from (Q.plan queue.old) (run_of running.old) (reports news.now) }
    ensures host { (H.patience host.new ≡ H.patience host.old)
        × (H.log host.new ≡ H.log host.old ++ part H.log host.old host.new) }
    ensures children { OnOk result (running.new.children
        ≡ children_from running.old.children (reports news.now)) }
    ensures lines { IfErr result IsPrintError × ArePrinted (owed_from batch.now.shows.now
        batch.now.warns (Q.plan queue.old).cmds running.old.children (reports news.now))
        result (part H.log host.old host.new) }
{
    let mut lines = Vec::new(running.alloc());
    let settled = settle_all(seat, queue, running, news, batch, &mut lines);
    if settled.is_err() {
        return Err(RunError::NoMemory);
    }
    print_all(host, &lines)
}

// Makes one turn, forwards what it gives, and gives back the token of each child that ended.
#[tactic(auto, using(cc_host::proofs::Parts::since_append))]
pub(crate) fn turn<W: World, H: Host<W>, J: Jobs, Q: Queue>(
    host: &mut H,
    seat: &mut J::Seat,
    pace: &mut Pace,
    queue: &mut Q,
    running: &mut Running,
    batch: &Batch<'_, J>,
) -> Result<(), RunError>
    requires agrees { Agrees J.fits J.held Q.stands batch.now.jobs.now
        seat.old queue.old running.old }
    requires unsettled { IsSettled (Q.plan queue.old) (run_of running.old) → ⊥ }
    requires few { pace.old.turns.left + pace.old.turns.used < 2 ^ 64 }
    ensures agrees { Agrees J.fits J.held Q.stands batch.now.jobs.now
        seat.new queue.new running.new }
    ensures plan { Q.plan queue.new ≡ Q.plan queue.old }
    ensures steps { (total : Option ℕ) → Busy (Q.plan queue.old) total (run_of running.old)
        → Moves H.log H.patience (seen_by J.held J.total J.taken J.load J.faults)
        (rules_of batch.now (Q.plan queue.old)) total
        host.old running.old seat.old pace.old.turns
        result host.new running.new seat.new pace.new.turns }
    ensures fewer { OnOk result (pace.new.turns.left + 1 ≡ pace.old.turns.left) }
    ensures lines { IsPrinted (rules_of batch.now (Q.plan queue.old))
        running.old result (part H.log host.old host.new) }
{
    let news = match turn_once(host, &mut pace.turns, pace.wait.idle) {
        Ok(news) => news,
        Err(e) => return Err(e),
    };
    let taken = take_news(host, seat, queue, running, &news, batch);
    pace.wait.note(running.marks().len());
    taken
}

impl WaitState {
    /// The poll of a run that begins. It takes no memory.
    pub fn new() -> WaitState {
        WaitState { idle: 0, marks: 0 }
    }

    // Notes whether a command was started or ended since the turn before: whether there are other marks.
    fn note(&mut self, marks: usize) {
        if marks != self.marks {
            self.idle = 0;
        } else if self.idle < 10 {
            self.idle += 1;
        }
        self.marks = marks;
    }

    /// Makes one turn, forwards what it gives, and gives back the token of each child that ended. It is ready exactly
    /// where no child of the run is left. Where none is and no further command may be started, it makes no turn.
    ///
    /// Refused are a fault of the turn or of a print, want of memory, and no turn being left. A turn that was made is
    /// counted, and its children that ended are out of the run with their tokens given back, however it answers. Lines
    /// that were refused are not printed later.
    pub fn poll<W: World, H: Host<W>, J: Jobs>(
        &mut self,
        host: &mut H,
        jobs: &J,
        seat: &mut J::Seat,
        turns: &mut Turns,
        cmds: &[Planned],
        running: &mut Running,
        shows: &Shows,
    ) -> Result<Step, RunError>
        requires one_run { IsOneRun J.fits J.held jobs.now seat.old running.old }
        requires few { turns.old.left + turns.old.used < 2 ^ 64 }
        ensures one_run { IsOneRun J.fits J.held jobs.now seat.new running.new }
        ensures steps { (total : Option ℕ)
            → Busy (listed_plan shows.now.stop cmds.now) total (run_of running.old)
            → Moves H.log H.patience (seen_by J.held J.total J.taken J.load J.faults)
            (rules (listed_plan shows.now.stop cmds.now) shows.now) total
            host.old running.old seat.old turns.old
            result host.new running.new seat.new turns.new }
        ensures one_turn { (IsSettled (listed_plan shows.now.stop cmds.now) (run_of running.old) → ⊥)
            → OnOk result (turns.new.left + 1 ≡ turns.old.left) }
        ensures done { IsSettled (listed_plan shows.now.stop cmds.now) (run_of running.old)
            → (result ≡ Ok Step.Ready) × (H.log host.new ≡ H.log host.old) }
        ensures step { IfOk result (IsLeft running.new) }
        ensures lines { IsPrinted (rules (listed_plan shows.now.stop cmds.now) shows.now)
            running.old result (part H.log host.old host.new) }
    {
        let batch = Batch {
            jobs,
            shows,
            warns: true,
            counted: true,
        };
        let mut queue = Listed::at(cmds, shows.stop, running.begun(), running.has_failed());
        if is_settled(&queue, running) {
            return Ok(Step::Ready);
        }
        let mut pace = Pace {
            turns: *turns,
            wait: *self,
        };
        let taken = turn(host, seat, &mut pace, &mut queue, running, &batch);
        *turns = pace.turns;
        *self = pace.wait;
        match taken {
            Ok(()) => Ok(step_of(running)),
            Err(e) => Err(e),
        }
    }
}

// Whether children of the run are left.
fn step_of(running: &Running) -> Step
    ensures { IsLeft running.now result }
{
    if running.len() == 0 {
        Step::Ready
    } else {
        Step::Pending
    }
}

// Whether nothing runs and nothing may be started.
fn is_settled<Q: Queue>(queue: &Q, running: &Running) -> bool
    requires { Q.stands queue.now running.now.marks }
    ensures yes { result ≡ true → IsSettled (Q.plan queue.now) (run_of running.now) }
    ensures no { result ≡ false → IsSettled (Q.plan queue.now) (run_of running.now) → ⊥ }
{
    if running.len() != 0 {
        return false;
    }
    match queue.next() {
        Some(_) => false,
        None => true,
    }
}
