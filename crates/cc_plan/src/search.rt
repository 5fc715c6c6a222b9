// Where programs are.
ghost use Rattle.std.specs.Option.{option_copied};
ghost use Rattle.cc_plan.specs.Search as spec;
ghost use Rattle.cc_tool.specs.Plans.{Passes};

use cc_env::BuildEnv;
use cc_flags::{listed_folders, path_folders, places_of};
use cc_host::{exists_of, is_yes};
use cc_text::Text;
use cc_tool::{Answers, Notes, Planned, first_there, verdict};
use std::alloc::Global;

// A file of this path is there.
#[tactic(auto, using(crate::proofs::PassBy::pass_by), unfolding(crate::specs::Search::is_there))]
pub(crate) fn is_there(
    alloc: Global,
    path: &str,
    seen: &Answers,
    notes: &mut Notes,
) -> Planned<bool>
    ensures { Passes seen.now notes.old notes.new (spec.is_there path.now) result }
{
    let question = exists_of(alloc, path)?;
    let verdict = verdict(alloc, question, seen, notes)?;
    Ok(is_yes(&verdict))
}

// Where a tool is.
#[tactic(auto, using(crate::proofs::PassBy::pass_by), unfolding(crate::specs::Search::which))]
pub(crate) fn which(
    alloc: Global,
    env: &BuildEnv,
    tool: &str,
    seen: &Answers,
    notes: &mut Notes,
) -> Planned<Option<Text>>
    ensures { Passes seen.now notes.old notes.new (spec.which env.now tool.now) result }
{
    let folders = path_folders(alloc, env)?;
    let paths = places_of(alloc, folders.as_slice(), tool)?;
    first_there(alloc, paths.as_slice(), seen, notes)
}

// Where a tool is in the folders of a list, where one is given, and then in those in which a shell looks.
#[tactic(auto, using(crate::proofs::PassBy::pass_by), unfolding(crate::specs::Search::which_in))]
pub(crate) fn which_in(
    alloc: Global,
    env: &BuildEnv,
    list: Option<&str>,
    tool: &str,
    seen: &Answers,
    notes: &mut Notes,
) -> Planned<Option<Text>>
    ensures { Passes seen.now notes.old notes.new
        (spec.which_in env.now (option_copied list.entry) tool.now) result }
{
    let folders = listed_folders(alloc, env, list)?;
    let paths = places_of(alloc, folders.as_slice(), tool)?;
    first_there(alloc, paths.as_slice(), seen, notes)
}
