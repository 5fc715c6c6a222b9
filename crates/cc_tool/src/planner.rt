// One loop that asks what a plan wants.
ghost use Rattle.std.specs.Prelude.{◌≡◌, ◌<◌, ◌&&◌, IfOk, OnOk, length};
ghost use Rattle.cc_host.specs.Call.{part};
ghost use Rattle.cc_host.specs.Question.{is_yes as yes};
ghost use Rattle.cc_tool.specs.Own.{AllCaused, OnlyWithFiles, WordsUsed};
ghost use Rattle.cc_tool.specs.Plans.{IsFound, Passes, Plan, PlanAsks, Wants};
ghost use Rattle.cc_tool.specs.AsksAmong.{AsksAmong};

use crate::{Answers, Caches, Notes, Planned, Want, ask};
use cc_host::{Host, Question, Verdict, World, is_yes};
use cc_text::{Mem, NoMemory};
use std::alloc::Global;
use std::sync::Wait;

/// What makes a plan, pass by pass.
pub trait Planner {
    /// What is planned.
    type Value: Drop;

    /// What it means.
    ghost plan: { Self → Plan Self.Value };

    /// A pass over the plan. It asks nothing.
    fn pass(&self, seen: &Answers, notes: &mut Notes) -> Planned<Self::Value>
        ensures { Passes seen.now notes.old notes.new (plan self.now) result };
}

/// What came of a plan: its value, and what was noted for it.
#[derive(Drop, Debug)]
pub struct Found<X> {
    /// The value.
    pub value: X,
    /// What was noted.
    pub notes: Notes,
}

// A search ends at the first that says yes.
fn ends_search(first: bool, verdict: &Verdict) -> bool
    ensures { result ≡ (first && yes verdict.now) }
{
    first && is_yes(verdict)
}

// Asks the questions that a pass wants, in order.
#[tactic(auto, using(crate::proofs::CauseLemmas::asks_caused))]
fn ask_each<W: World, H: Host<W>, P: Planner>(
    rt: &impl Wait,
    alloc: Global,
    host: &mut H,
    caches: &Caches<W>,
    answers: &mut Answers,
    dir: &str,
    planner: &P,
    questions: &[Question],
    first: bool,
) -> Mem<()>
    requires { Wants answers.old (P.plan planner.now) first questions.now }
    ensures asks { AsksAmong W.steady W.answer dir.now (PlanAsks (P.plan planner.now))
        (H.log host.old) (H.log host.new) answers.old answers.new }
    ensures more { OnOk result (length answers.old < length answers.new) }
    ensures cause { AllCaused (part H.log host.old host.new) }
    ensures bare { OnOk result (OnlyWithFiles (part H.log host.old host.new)) }
    ensures used { OnOk result (WordsUsed (part H.log host.old host.new)) }
    ensures patient { H.patience host.new ≡ H.patience host.old }
{
    let _ = planner;
    for question in questions {
        let verdict = ask(rt, alloc, host, caches, answers, question, dir)?;
        if ends_search(first, &verdict) {
            break;
        }
    }
    Ok(())
}

/// Makes a plan: asks what it wants, in the order in which it wants it, and makes it again, until it wants nothing. What is noted is what
/// the last pass noted. A question without an answer had one before, or stands behind its cause; words are drawn and the folder of files
/// made only for questions that need files. Only want of memory refuses; the answers until then stay.
#[tactic(auto, using(crate::proofs::CauseLemmas::asks_caused))]
pub fn settle<W: World, H: Host<W>, P: Planner>(
    rt: &impl Wait,
    alloc: Global,
    host: &mut H,
    caches: &Caches<W>,
    answers: &mut Answers,
    dir: &str,
    planner: &P,
) -> Mem<Found<P::Value>>
    ensures asks { AsksAmong W.steady W.answer dir.now (PlanAsks (P.plan planner.now))
        (H.log host.old) (H.log host.new) answers.old answers.new }
    ensures found { IfOk result (IsFound answers.new (P.plan planner.now)) }
    ensures cause { AllCaused (part H.log host.old host.new) }
    ensures bare { OnOk result (OnlyWithFiles (part H.log host.old host.new)) }
    ensures used { OnOk result (WordsUsed (part H.log host.old host.new)) }
    ensures patient { H.patience host.new ≡ H.patience host.old }
{
    loop {
        let _count = answers.len();
        let mut notes = Notes::new(alloc);
        match planner.pass(&*answers, &mut notes) {
            Ok(value) => return Ok(Found { value, notes }),
            Err(Want::NoMemory) => return Err(NoMemory),
            Err(Want::Ask(wanted)) => {
                let open = wanted.open();
                ask_each(
                    rt,
                    alloc,
                    host,
                    caches,
                    answers,
                    dir,
                    planner,
                    open,
                    wanted.first,
                )?
            }
        }
    }
}
