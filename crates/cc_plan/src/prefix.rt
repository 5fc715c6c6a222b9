// The prefix of the GNU tools' names for a target.
ghost use Rattle.cc_text.specs.Words.{texts};
ghost use Rattle.cc_flags.specs.Prefixes.{known_prefix as known};
ghost use Rattle.cc_plan.specs.Prefix as spec;
ghost use Rattle.cc_tool.specs.Plans.{Passes};

use cc_env::BuildEnv;
use cc_flags::{BuildConfig, first_text, known_prefix, path_folders, tried_compilers};
use cc_target::gnu_candidates;
use cc_text::Text;
use cc_tool::{Answers, Notes, Planned, first_shown, note_name};
use std::alloc::Global;

// The candidate of the first compiler that is there, else the first candidate.
#[tactic(auto, using(crate::proofs::PassBy::pass_by), unfolding(crate::specs::Prefix::candidate_prefix))]
fn candidate_prefix(
    alloc: Global,
    set: &BuildConfig,
    env: &BuildEnv,
    candidates: &[&str],
    seen: &Answers,
    notes: &mut Notes,
) -> Planned<Option<Text>>
    ensures { Passes seen.now notes.old notes.new
        (spec.candidate_prefix set.now env.now (texts candidates.now)) result }
{
    let folders = path_folders(alloc, env)?;
    let tries = tried_compilers(alloc, set.cpp, folders.as_slice(), candidates)?;
    match first_shown(alloc, tries.as_slice(), seen, notes)? {
        Some(candidate) => Ok(Some(candidate)),
        None => Ok(first_text(alloc, candidates)?),
    }
}

// The one that is known, else that of a candidate.
#[tactic(auto, using(crate::proofs::PassBy::pass_by), unfolding(crate::specs::Prefix::known_or_candidate))]
fn known_or_candidate(
    alloc: Global,
    set: &BuildConfig,
    env: &BuildEnv,
    name: &str,
    seen: &Answers,
    notes: &mut Notes,
) -> Planned<Option<Text>>
    ensures { Passes seen.now notes.old notes.new
        (spec.known_or_candidate set.now env.now name.now (known env.now name.now)) result }
{
    match known_prefix(env, name) {
        Some(prefix) => Ok(Some(Text::of(alloc, prefix)?)),
        None => candidate_prefix(alloc, set, env, gnu_candidates(name), seen, notes),
    }
}

// The prefix of the GNU tools' names for a target, where there is one.
#[tactic(auto, using(crate::proofs::PassBy::pass_by), unfolding(crate::specs::Prefix::gnu_prefix))]
pub(crate) fn prefix_for(
    alloc: Global,
    set: &BuildConfig,
    env: &BuildEnv,
    name: &str,
    seen: &Answers,
    notes: &mut Notes,
) -> Planned<Option<Text>>
    ensures { Passes seen.now notes.old notes.new (spec.gnu_prefix set.now env.now name.now) result }
{
    note_name("CROSS_COMPILE", seen, notes)?;
    known_or_candidate(alloc, set, env, name, seen, notes)
}
