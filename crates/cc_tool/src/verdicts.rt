// Verdicts of questions that wait for none of each other.
ghost use Rattle.std.specs.Prelude.{◌≡◌, ◌++◌, ◌∷◌, [], OnOk};
ghost use Rattle.cc_tool.specs.Plans.{ArePlain, Passes, ask_all};

use crate::{Answers, Notes, Planned, Want, Wanted};
use cc_host::{Question, Verdict};
use cc_text::Mem;
use std::alloc::Global;
use std::marker::Model;

/// Verdicts, in the order of their questions. They are seen as a list.
#[derive(Drop, Debug)]
pub struct Verdicts {
    list: Vec<Verdict>,
}

impl Model for Verdicts {
    ghost use Rattle.std.specs.Prelude.{List};
    ghost use Rattle.cc_host.specs.declared.question.Verdict.{Verdict};

    ghost Value = { List Verdict };

    ghost view = { λ v. v.list.items };
}

impl Verdicts {
    fn new(alloc: Global) -> Verdicts
        ensures { result ≡ [] }
    {
        Verdicts {
            list: Vec::new(alloc),
        }
    }

    fn push(&mut self, verdict: &Verdict) -> Mem<()>
        ensures { OnOk result (self.new ≡ self.old ++ verdict.now ∷ []) }
    {
        self.list.push(verdict.try_clone()?)?;
        Ok(())
    }

    /// The verdicts, lent.
    pub fn as_slice(&self) -> &[Verdict]
        ensures { result.now ≡ self.now }
    {
        self.list.as_slice()
    }
}

/// The verdicts of questions, none of which is for a file, or that those from the first without an answer on are wanted, all at once.
pub fn verdicts_of(
    alloc: Global,
    questions: Vec<Question>,
    seen: &Answers,
    notes: &mut Notes,
) -> Planned<Verdicts>
    requires { ArePlain questions.items }
    ensures { Passes seen.now notes.old notes.new (ask_all questions.items) result }
{
    let _ = notes;
    let mut verdicts = Verdicts::new(alloc);
    for place in 0..questions.len() {
        match seen.get(&questions[place]) {
            Some(verdict) => verdicts.push(verdict)?,
            None => {
                return Err(Want::Ask(Wanted {
                    questions,
                    from: place,
                    first: false,
                }));
            }
        }
    }
    Ok(verdicts)
}
