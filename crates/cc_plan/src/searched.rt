// Programs where a compiler looks for those that it runs, as Clang's driver prints it (`--print-search-dirs`, Clang's
// "Clang command line argument reference").
ghost use Rattle.std.specs.Prelude.{◌≡◌, IfOk};
ghost use Rattle.cc_plan.specs.Searched as spec;
ghost use Rattle.cc_tool.specs.Plans.{Passes};

use crate::search::which_in;
use cc_env::BuildEnv;
use cc_host::{Ask, Question, Verdict};
use cc_text::{Mem, Text, Words};
use cc_tool::{Answers, Notes, Planned, question_of, verdict};
use std::alloc::Global;

fn search_question(alloc: Global, env: &BuildEnv, path: &str) -> Mem<Question>
    ensures { IfOk result (λ q. q ≡ spec.search_question env.now path.now) }
{
    let vars = env.child_vars(alloc)?;
    question_of(alloc, Ask::SearchDirs, path, &Words::new(alloc), &vars)
}

// A program in the folders that a compiler names, where it names some.
#[tactic(auto, using(crate::proofs::PassBy::pass_by), unfolding(crate::specs::Searched::in_dirs))]
fn in_dirs(
    alloc: Global,
    env: &BuildEnv,
    name: &str,
    verdict: &Verdict,
    seen: &Answers,
    notes: &mut Notes,
) -> Planned<Option<Text>>
    ensures { Passes seen.now notes.old notes.new (spec.in_dirs env.now name.now verdict.now) result }
{
    match verdict {
        Verdict::Unanswered => Ok(None),
        Verdict::Missing => Ok(None),
        Verdict::No => Ok(None),
        Verdict::Yes => Ok(None),
        Verdict::Marks(_) => Ok(None),
        Verdict::Dirs(list) => which_in(alloc, env, Some(list.as_str()), name, seen, notes),
    }
}

/// A program in the folders that the compiler of a path names, and then in those in which a shell looks; none where the
/// compiler names no folders, or the program is in none of them.
#[tactic(auto, using(crate::proofs::PassBy::pass_by), unfolding(crate::specs::Searched::searched))]
pub(crate) fn searched(
    alloc: Global,
    env: &BuildEnv,
    path: &str,
    name: &str,
    seen: &Answers,
    notes: &mut Notes,
) -> Planned<Option<Text>>
    ensures { Passes seen.now notes.old notes.new (spec.searched env.now path.now name.now) result }
{
    let question = search_question(alloc, env, path)?;
    let verdict = verdict(alloc, question, seen, notes)?;
    in_dirs(alloc, env, name, &verdict, seen, notes)
}
