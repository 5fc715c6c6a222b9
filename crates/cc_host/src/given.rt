// The outcomes that a host in memory was given for questions.
ghost use Rattle.std.specs.Prelude.{◌≡◌, ◌≢◌, [], ◌∷◌, ◌++◌, true, find, reverse, IfOk, OnOk, OnErr, Some, None};
ghost use Rattle.std.specs.List.{list_all};
ghost use Rattle.std.specs.Option.{option_copied};
ghost use Rattle.cc_host.specs.Given.{same_family, same_ask, is_answered, fits_question, default_outcome, outcome_of};
ghost use Rattle.cc_host.specs.declared.question.Outcome.TheVariants.{Unanswered, Done};
ghost use Rattle.cc_host.specs.declared.event.Status.TheVariants.{Code};

use crate::{Ask, Outcome, Question, Status};
use cc_text::{Bytes, Mem, Text, ToolFamily};
use std::alloc::Global;
use std::marker::Model;

/// An outcome, with what it is asked of which program.
#[derive(Drop, Debug)]
pub struct Given {
    pub ask: Ask,
    pub program: Text,
    pub outcome: Outcome,
}

fn is_same_family(a: ToolFamily, b: ToolFamily) -> bool
    ensures { result ≡ same_family a b }
{
    a == b
}

// Whether the same is asked.
fn is_same_ask(a: Ask, b: Ask) -> bool
    ensures { result ≡ same_ask a b }
{
    match (a, b) {
        (Ask::Flag { cpp, family }, Ask::Flag { cpp: c, family: f }) => {
            cpp == c && is_same_family(family, f)
        }
        _ => a == b,
    }
}

fn fits(given: &Given, q: &Question) -> bool
    ensures { result ≡ fits_question q.now given.now }
{
    is_same_ask(given.ask, q.ask) && given.program == q.program
}

// The outcome that was given last for a question.
fn last_given<'a>(given: &'a [Given], q: &Question) -> Option<&'a Given>
    ensures { option_copied result ≡ find (fits_question q.now) (reverse given.now) }
{
    given.iter().rev().find(|g| fits(g, q))
}

fn ended(alloc: Global, code: i32, out: &str) -> Mem<Outcome>
    ensures { IfOk result (λ o. o ≡ Done (Code code) out.now []) }
{
    Ok(Outcome::Done {
        status: Status::Code(code),
        out: Bytes::of(alloc, out.as_bytes())?,
        err: Bytes::of(alloc, &[])?,
    })
}

// What a question comes to where no outcome was given.
fn default_outcome(alloc: Global, ask: Ask) -> Mem<Outcome>
    ensures { IfOk result (λ o. o ≡ default_outcome ask) }
{
    match ask {
        Ask::Preprocess => ended(alloc, 0, "\"gcc\""),
        Ask::PreprocessDashes => ended(alloc, 0, "\"gcc\""),
        Ask::HelpFlag => ended(alloc, 1, ""),
        Ask::Version => ended(alloc, 1, ""),
        Ask::Flag { .. } => ended(alloc, 0, ""),
        Ask::Libcxx => ended(alloc, 1, ""),
        Ask::SearchDirs => ended(alloc, 1, ""),
        Ask::ToolVersion => ended(alloc, 0, ""),
        Ask::Starts => ended(alloc, 0, ""),
        Ask::Exists => Ok(Outcome::Exists(false)),
    }
}

/// The outcomes that were given, oldest first. None of them is `Unanswered`.
#[derive(Drop)]
pub struct GivenList {
    alloc: Global,
    list: Vec<Given>,
}

impl Model for GivenList {
    ghost use Rattle.std.specs.Prelude.{◌≡◌, true, List, reverse};
    ghost use Rattle.std.specs.List.{list_all};
    ghost use Rattle.cc_host.specs.Given.{is_answered};
    ghost use Rattle.cc_host.specs.declared.given.Given.{Given};

    ghost Value = { List Given };

    ghost view = { λ g. g.list.items };

    ghost invariant = { λ g. list_all (λ x. is_answered x.outcome) (reverse g.list.items) ≡ true };
}

impl GivenList {
    /// No outcome. It takes no memory.
    pub fn new(alloc: Global) -> GivenList
        ensures { result ≡ [] }
    {
        GivenList {
            alloc,
            list: Vec::new(alloc),
        }
    }

    /// Adds an outcome last. Refused for memory, the list stays as it was.
    pub fn give(&mut self, ask: Ask, program: &str, outcome: Outcome) -> Mem<()>
        requires { outcome ≢ Unanswered }
        ensures ok { OnOk result (self.new ≡ self.old
            ++ record { ask = ask; program = program.now; outcome = outcome } ∷ []) }
        ensures err { OnErr result (self.new ≡ self.old) }
    {
        let program = Text::of(self.alloc, program)?;
        self.list.push(Given {
            ask,
            program,
            outcome,
        })?;
        Ok(())
    }

    /// The outcome of a question: the one that was given last for it, or the host's own.
    pub fn outcome_of(&self, q: &Question) -> Mem<Outcome>
        ensures is { IfOk result (λ o. o ≡ outcome_of self.now q.now) }
        ensures answered { IfOk result (λ o. is_answered o ≡ true) }
    {
        match last_given(&self.list, q) {
            Some(given) => given.outcome.try_clone(),
            None => default_outcome(self.alloc, q.ask),
        }
    }
}
