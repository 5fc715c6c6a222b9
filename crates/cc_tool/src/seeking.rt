// Searches for a file among several, which stop at the first that is there.
ghost use Rattle.std.specs.Prelude.{◌≡◌, map, drop, true, IfOk};
ghost use Rattle.cc_host.specs.Question.{exists_question};
ghost use Rattle.cc_tool.specs.Plans.{IsKnown, Passes, seek};
ghost use Rattle.cc_tool.specs.Seeking.{by_first, first_shown as shown};

use crate::{Answers, Notes, Planned, Want, Wanted};
use cc_host::{Question, exists_of, is_yes};
use cc_text::{Mem, Text};
use std::alloc::Global;

// The questions for the files of some paths, from a place on.
fn exists_from(alloc: Global, paths: &[Text], from: usize) -> Mem<Vec<Question>>
    ensures { IfOk result (λ questions. questions.items ≡ map exists_question (drop from paths.now)) }
{
    let mut questions = Vec::new(alloc);
    for place in from..paths.len() {
        questions.push(exists_of(alloc, paths[place].as_str())?)?;
    }
    Ok(questions)
}

// What is wanted of a search: these questions, up to the first that says yes.
fn wanted_of(questions: Vec<Question>) -> Wanted
    ensures first { result.first ≡ true }
    ensures from { result.from ≡ 0 }
    ensures questions { result.questions.items ≡ questions.items }
{
    Wanted {
        questions,
        from: 0,
        first: true,
    }
}

// Whether a file of a path is there, where that is known.
fn known_there(alloc: Global, path: &str, seen: &Answers) -> Mem<Option<bool>>
    ensures { IfOk result (λ there. IsKnown seen.now (exists_question path.now) there) }
{
    let question = exists_of(alloc, path)?;
    match seen.get(&question) {
        Some(verdict) => Ok(Some(is_yes(verdict))),
        None => Ok(None),
    }
}

/// The first of some paths at which a file is, or none. Where that isn't known the search goes on from there: none behind the first that
/// is there is asked for.
pub fn first_there(
    alloc: Global,
    paths: &[Text],
    seen: &Answers,
    notes: &mut Notes,
) -> Planned<Option<Text>>
    ensures { Passes seen.now notes.old notes.new (seek exists_question paths.now) result }
{
    let _ = notes;
    for place in 0..paths.len() {
        let path = &paths[place];
        match known_there(alloc, path.as_str(), seen)? {
            Some(true) => return Ok(Some(path.try_clone()?)),
            Some(false) => {}
            None => return Err(Want::Ask(wanted_of(exists_from(alloc, paths, place)?))),
        }
    }
    Ok(None)
}

// The same for the first of each pair.
fn exists_from_pairs(alloc: Global, pairs: &[(Text, Text)], from: usize) -> Mem<Vec<Question>>
    ensures { IfOk result (λ questions. questions.items ≡ map by_first (drop from pairs.now)) }
{
    let mut questions = Vec::new(alloc);
    for place in from..pairs.len() {
        questions.push(exists_of(alloc, pairs[place].0.as_str())?)?;
    }
    Ok(questions)
}

/// The second of the first pair whose first is the path of a file, or none; it goes on as `first_there` does.
#[tactic(auto, unfolding(crate::specs::Seeking::first_shown))]
pub fn first_shown(
    alloc: Global,
    pairs: &[(Text, Text)],
    seen: &Answers,
    notes: &mut Notes,
) -> Planned<Option<Text>>
    ensures { Passes seen.now notes.old notes.new (shown pairs.now) result }
{
    let _ = notes;
    for place in 0..pairs.len() {
        let pair = &pairs[place];
        match known_there(alloc, pair.0.as_str(), seen)? {
            Some(true) => return Ok(Some(pair.1.try_clone()?)),
            Some(false) => {}
            None => return Err(Want::Ask(wanted_of(exists_from_pairs(alloc, pairs, place)?))),
        }
    }
    Ok(None)
}
