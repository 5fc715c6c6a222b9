// What a pass over a plan answers in place of a value.
ghost use Rattle.std.specs.Prelude.{◌≡◌, drop};
ghost use Rattle.cc_tool.specs.declared.want.Want.TheVariants.{NoMemory as WantsMemory};

use cc_host::Question;
use cc_text::NoMemory;
use std::alloc::{AllocError, AllocFailed};

/// Questions whose verdicts are wanted: those from a place on, all of them or each up to the first that says yes.
#[derive(Drop, Debug)]
pub struct Wanted {
    /// The questions, of which those before the place have their answers.
    pub questions: Vec<Question>,
    /// The place of the first that is wanted.
    pub from: usize,
    /// None behind the first that says yes is asked.
    pub first: bool,
}

impl Wanted {
    // Those from the place on.
    pub(crate) fn open(&self) -> &[Question]
        ensures { result.now ≡ drop self.now.from self.now.questions.items }
    {
        let questions = self.questions.as_slice();
        if self.from <= questions.len() {
            &questions[self.from..]
        } else {
            &[]
        }
    }
}

/// What a pass over a plan wants.
#[derive(Drop, Debug)]
pub enum Want {
    /// The verdicts of some questions.
    Ask(Wanted),
    /// Memory.
    NoMemory,
}

/// A planned value, or what is wanted for it.
pub type Planned<X> = Result<X, Want>;

impl From<NoMemory> for Want {
    ghost from_gives = { λ _ e. e ≡ WantsMemory };

    fn from(_: NoMemory) -> Self {
        Want::NoMemory
    }
}

impl From<AllocError> for Want {
    ghost from_gives = { λ _ e. e ≡ WantsMemory };

    fn from(_: AllocError) -> Self {
        Want::NoMemory
    }
}

impl<T: Drop> From<AllocFailed<T>> for Want {
    ghost from_gives = { λ _ e. e ≡ WantsMemory };

    fn from(_: AllocFailed<T>) -> Self {
        Want::NoMemory
    }
}
