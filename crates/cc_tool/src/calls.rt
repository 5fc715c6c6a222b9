// Calls that ask for one thing of a tool: each settles its plan.
ghost use Rattle.std.specs.Prelude.{◌≡◌, IfOk, OnOk};
ghost use Rattle.cc_host.specs.Call.{part};
ghost use Rattle.cc_host.specs.Question.{Settles};
ghost use Rattle.cc_tool.specs.Asks.{Asks};
ghost use Rattle.cc_tool.specs.AsksAmong.{AsksAmong};
ghost use Rattle.cc_tool.specs.Family.{family_in};
ghost use Rattle.cc_tool.specs.Known.{asked};
ghost use Rattle.cc_tool.specs.Libcxx.{uses_libcxx};
ghost use Rattle.cc_tool.specs.Own.{AllCaused, AnswersOnly, OnlyForFiles, OnlyWithFiles, WhyUnanswered, WordsUsed};
ghost use Rattle.cc_tool.specs.Plans.{PlanAsks};

use crate::{Answers, Caches, Notes, Planned, Planner, Tool, ask, family_of, settle, uses_libcxx};
use cc_env::BuildEnv;
use cc_host::{Host, Question, Verdict, World};
use cc_text::{Detected, Mem, ToolFamily, Words};
use std::alloc::Global;
use std::sync::Wait;

// The plan of a family.
#[derive(Drop)]
struct FamilyPlanner<'a> {
    alloc: Global,
    path: &'a str,
    args: &'a Words,
    env: &'a BuildEnv,
}

impl<'a> Planner for FamilyPlanner<'a> {
    type Value = (ToolFamily, Detected);

    ghost plan = { λ p. family_in p.path.now p.args.now p.env.now };

    fn pass(&self, seen: &Answers, notes: &mut Notes) -> Planned<(ToolFamily, Detected)> {
        family_of(self.alloc, self.path, self.args, self.env, seen, notes)
    }
}

/// The family of the compiler at a path, and how it was detected, as `family_of` plans it; what the plan wants is asked, and nothing else.
/// Files for the questions are made in `dir`, and dropped. Nothing but memory is refused: a question without an answer tells nothing. The
/// answers keep each question that was answered before a refusal.
#[tactic(auto, using(crate::proofs::PlannerLemmas::settles_value))]
pub fn ask_family<W: World, H: Host<W>>(
    rt: &impl Wait,
    alloc: Global,
    host: &mut H,
    caches: &Caches<W>,
    answers: &mut Answers,
    path: &str,
    args: &Words,
    env: &BuildEnv,
    dir: &str,
) -> Mem<(ToolFamily, Detected)>
    ensures asks { AsksAmong W.steady W.answer dir.now
        (PlanAsks (family_in path.now args.now env.now))
        (H.log host.old) (H.log host.new) answers.old answers.new }
    ensures settles { IfOk result (Settles answers.new
        (family_in path.now args.now env.now).value) }
    ensures cause { AllCaused (part H.log host.old host.new) }
    ensures bare { OnOk result (OnlyWithFiles (part H.log host.old host.new)) }
    ensures used { OnOk result (WordsUsed (part H.log host.old host.new)) }
    ensures patient { H.patience host.new ≡ H.patience host.old }
{
    let planner = FamilyPlanner {
        alloc,
        path,
        args,
        env,
    };
    let found = settle(rt, alloc, host, caches, answers, dir, &planner)?;
    Ok(found.value)
}

// The plan of the C++ library.
#[derive(Drop)]
struct LibcxxPlanner<'a> {
    alloc: Global,
    tool: &'a Tool,
}

impl<'a> Planner for LibcxxPlanner<'a> {
    type Value = bool;

    ghost plan = { λ p. uses_libcxx p.tool.now };

    fn pass(&self, seen: &Answers, notes: &mut Notes) -> Planned<bool> {
        uses_libcxx(self.alloc, self.tool, seen, notes)
    }
}

/// Whether the C++ library of a compiler is libc++, as `uses_libcxx` plans it; what the plan wants is asked, and nothing else. The file for
/// the question is made in `dir`, and dropped. Nothing but memory is refused: without an answer it isn't libc++. The answers keep the
/// question where it was answered before a refusal.
#[tactic(auto, using(crate::proofs::PlannerLemmas::settles_value))]
pub fn ask_libcxx<W: World, H: Host<W>>(
    rt: &impl Wait,
    alloc: Global,
    host: &mut H,
    caches: &Caches<W>,
    answers: &mut Answers,
    tool: &Tool,
    dir: &str,
) -> Mem<bool>
    ensures asks { AsksAmong W.steady W.answer dir.now (PlanAsks (uses_libcxx tool.now))
        (H.log host.old) (H.log host.new) answers.old answers.new }
    ensures settles { IfOk result (Settles answers.new (uses_libcxx tool.now).value) }
    ensures cause { AllCaused (part H.log host.old host.new) }
    ensures bare { OnOk result (OnlyWithFiles (part H.log host.old host.new)) }
    ensures used { OnOk result (WordsUsed (part H.log host.old host.new)) }
    ensures patient { H.patience host.new ≡ H.patience host.old }
{
    let planner = LibcxxPlanner { alloc, tool };
    let found = settle(rt, alloc, host, caches, answers, dir, &planner)?;
    Ok(found.value)
}

/// The verdict of a question on a flag, as `ask` gives it, with all that it promises.
pub fn ask_flag<W: World, H: Host<W>>(
    rt: &impl Wait,
    alloc: Global,
    host: &mut H,
    caches: &Caches<W>,
    answers: &mut Answers,
    q: &Question,
    dir: &str,
) -> Mem<Verdict>
    ensures asks { Asks W.steady W.answer dir.now (H.log host.old) (H.log host.new)
        answers.old answers.new }
    ensures settles { IfOk result (Settles answers.new (λ look. look (asked q.now))) }
    ensures own { AnswersOnly (asked q.now) answers.old (part H.log host.old host.new) result }
    ensures cause { IfOk result (WhyUnanswered (asked q.now) answers.old
        (part H.log host.old host.new)) }
    ensures bare { OnlyForFiles (asked q.now) (part H.log host.old host.new) }
    ensures used { OnOk result (WordsUsed (part H.log host.old host.new)) }
    ensures patient { H.patience host.new ≡ H.patience host.old }
{
    ask(rt, alloc, host, caches, answers, q, dir)
}
