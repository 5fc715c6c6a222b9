// Plans that ask nothing themselves: what a pass over a plan sees of the answers so far.
ghost use Rattle.std.specs.Prelude.{◌≡◌, ◌∷◌, []};
ghost use Rattle.cc_tool.specs.Known.{asked};
ghost use Rattle.cc_tool.specs.Notes.{named, warned};
ghost use Rattle.cc_tool.specs.Plans.{Passes, ask, note};

use crate::asking::is_exists;
use crate::{Answers, Notes, Planned, Want, Wanted};
use cc_host::{Question, Verdict};
use cc_text::{Vars, Words};
use std::alloc::Global;

// A question as it is asked: one for a file has neither words nor variables.
fn as_asked(alloc: Global, question: Question) -> Question
    ensures { result ≡ asked question }
{
    if is_exists(question.ask) {
        Question {
            ask: question.ask,
            program: question.program,
            words: Words::new(alloc),
            vars: Vars::new(alloc),
        }
    } else {
        question
    }
}

/// The verdict of a question, or that it is wanted.
#[tactic(auto, using(crate::proofs::SeenLemmas::seen_laws))]
pub fn verdict(
    alloc: Global,
    question: Question,
    seen: &Answers,
    notes: &mut Notes,
) -> Planned<Verdict>
    ensures { Passes seen.now notes.old notes.new (ask question) result }
{
    let _ = notes;
    let question = as_asked(alloc, question);
    match seen.get(&question) {
        Some(verdict) => Ok(verdict.try_clone()?),
        None => {
            let mut questions = Vec::new(alloc);
            questions.push(question)?;
            Err(Want::Ask(Wanted {
                questions,
                from: 0,
                first: false,
            }))
        }
    }
}

/// Notes the names of variables that are read.
#[tactic(auto, using(crate::proofs::PassLemmas::pass_note, crate::proofs::PassLemmas::pass_memory))]
pub fn note_names(names: &Words, seen: &Answers, notes: &mut Notes) -> Planned<()>
    ensures { Passes seen.now notes.old notes.new (note (named names.now)) result }
{
    let _ = seen;
    notes.names(names)?;
    Ok(())
}

/// Notes the name of a variable that is read.
#[tactic(auto, using(crate::proofs::PassLemmas::pass_note, crate::proofs::PassLemmas::pass_memory))]
pub fn note_name(name: &str, seen: &Answers, notes: &mut Notes) -> Planned<()>
    ensures { Passes seen.now notes.old notes.new (note (named (name.now ∷ []))) result }
{
    let _ = seen;
    notes.name(name)?;
    Ok(())
}

/// Notes what a user is warned of.
#[tactic(auto, using(crate::proofs::PassLemmas::pass_note, crate::proofs::PassLemmas::pass_memory))]
pub fn note_warnings(texts: &Words, seen: &Answers, notes: &mut Notes) -> Planned<()>
    ensures { Passes seen.now notes.old notes.new (note (warned texts.now)) result }
{
    let _ = seen;
    notes.warnings(texts)?;
    Ok(())
}
