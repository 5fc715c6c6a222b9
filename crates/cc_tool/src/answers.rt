// The questions of one public call, with their verdicts.
ghost use Rattle.std.specs.Prelude.{◌≡◌, ◌++◌, ◌∷◌, [], List, OnOk, OnErr, MatchOption, length};
ghost use Rattle.cc_host.specs.Question.{Answer, Lacks};
ghost use Rattle.cc_host.specs.declared.question.Verdict.TheVariants.{Unanswered};
ghost use Rattle.cc_tool.specs.Known.{Has};

use crate::digest::Keyed;
use crate::entries::Entries;
use cc_host::{Question, Verdict};
use cc_text::Mem;
use std::alloc::Global;
use std::marker::Model;

/// The questions of one public call with their verdicts, in the order in which they were asked. It is seen as a list of pairs. A
/// question that is there isn't asked again in this call, whatever its verdict.
#[derive(Drop, Debug)]
pub struct Answers {
    entries: Entries,
}

impl Model for Answers {
    ghost use Rattle.std.specs.Prelude.{List};
    ghost use Rattle.cc_host.specs.Question.{Answer};

    ghost Value = { List Answer };

    ghost view = { λ a. a.entries.items };
}

impl Answers {
    /// No answers. It takes no memory.
    pub fn new(alloc: Global) -> Answers
        ensures { result ≡ [] }
    {
        Answers {
            entries: Entries::new(alloc),
        }
    }

    /// The verdict of a question, the first that was told, or none where it wasn't asked. It takes no memory.
    pub fn get(&self, q: &Question) -> Option<&Verdict>
        ensures { MatchOption result (Lacks self.now q.now) (λ v. Has self.now q.now v.now) }
    {
        self.get_keyed(&Keyed::of(q))
    }

    // The same, by a digest that is known.
    pub(crate) fn get_keyed(&self, key: &Keyed<'_>) -> Option<&Verdict>
        ensures { MatchOption result (Lacks self.now key.now.question.now)
            (λ v. Has self.now key.now.question.now v.now) }
    {
        self.entries.find(key)
    }

    /// How many questions there are. It takes no memory.
    pub fn len(&self) -> usize
        ensures { result ≡ length self.now }
    {
        self.entries.len()
    }

    pub(crate) fn allocator(&self) -> Global {
        self.entries.allocator()
    }

    // Makes room for the verdict of a question, which has none until it comes.
    pub(crate) fn begin(&mut self, key: &Keyed<'_>) -> Mem<()>
        ensures ok { OnOk result (self.new ≡ self.old ++ (key.now.question.now, Unanswered) ∷ []) }
        ensures err { OnErr result (self.new ≡ self.old) }
    {
        self.entries.push(key, Verdict::Unanswered)
    }

    // Takes back the question that was begun last.
    pub(crate) fn give_up(&mut self)
        ensures { (known : List Answer) (a : Answer) → self.old ≡ known ++ a ∷ []
            → self.new ≡ known }
    {
        self.entries.pop();
    }

    // Sets the verdict of the question that was begun last.
    pub(crate) fn end(&mut self, verdict: Verdict)
        ensures { (known : List Answer) (a : Answer) → self.old ≡ known ++ a ∷ []
            → self.new ≡ known ++ (a.0, verdict) ∷ [] }
    {
        self.entries.set_last(verdict);
    }
}
