// Verdicts of a world, kept in a type that no false one enters.
ghost use Rattle.cc_tool.specs.Known.{AllSteady, AllKept};

use crate::Places;
use crate::digest::Keyed;
use crate::entries::Entries;
use cc_host::{Question, Verdict, World};
use cc_text::Mem;
use std::alloc::Global;
use std::marker::PhantomData;

/// Questions with their verdicts, in the order in which they were kept. Where the world is steady, each verdict is that of the
/// world. None is of a question that had no answer or of a program that wasn't found, since these may change, and none of a file.
#[derive(Drop)]
pub struct Known<W: World> {
    pub(crate) entries: Entries,
    of: PhantomData<W>,
    ghost all_steady: { AllSteady W.steady W.answer entries.items },
    ghost all_kept: { AllKept entries.items },
}

impl<W: World> Known<W> {
    ghost use Rattle.std.specs.Prelude.{◌≡◌, true, [], ◌∷◌, ◌++◌, MatchOption, IfSome, OnOk, OnErr};
    ghost use Rattle.cc_host.specs.Question.{Lacks};
    ghost use Rattle.std.specs.Option.{option_copied};
    ghost use Rattle.cc_tool.specs.Known.{Has, IsSteady, MayKeep};
    ghost use Rattle.cc_tool.specs.Places.{bucket};

    /// Nothing kept. It takes no memory.
    pub fn new(alloc: Global) -> Known<W>
        ensures { result.entries.items ≡ [] }
    {
        Known {
            entries: Entries::new(alloc),
            of: PhantomData,
        }
    }

    /// The verdict of a question, or none where none is kept. The first that was kept counts. It takes no memory.
    pub fn find_on(&self, q: &Question) -> Option<&Verdict>
        ensures found { MatchOption result (Lacks self.now.entries.items q.now)
            (λ v. Has self.now.entries.items q.now v.now) }
        ensures steady { IfSome result (λ v. IsSteady W.steady W.answer q.now v.now) }
        ensures kept { IfSome result (λ v. MayKeep q.now v.now) }
    {
        self.find_keyed(&Keyed::of(q))
    }

    // The same, by a digest that is known.
    pub(crate) fn find_keyed(&self, key: &Keyed<'_>) -> Option<&Verdict>
        ensures found { MatchOption result (Lacks self.now.entries.items key.now.question.now)
            (λ v. Has self.now.entries.items key.now.question.now v.now) }
        ensures steady { IfSome result
            (λ v. IsSteady W.steady W.answer key.now.question.now v.now) }
        ensures kept { IfSome result (λ v. MayKeep key.now.question.now v.now) }
    {
        self.entries.find(key)
    }

    /// The ascending places of the entries whose questions have this digest, among all that are kept, or none exactly where there is
    /// none. It takes no memory.
    pub fn bucket_on(&self, digest: u64) -> Option<&Places>
        ensures { option_copied result ≡ bucket digest self.now.entries.items }
    {
        self.entries.bucket_on(digest)
    }

    /// Keeps the verdict of a question that isn't for a file, last. The verdict is neither `Unanswered` nor `Missing`. Refused for
    /// memory, what is kept stays as it was.
    pub fn keep_on(&mut self, q: &Question, v: &Verdict) -> Mem<()>
        requires steady { IsSteady W.steady W.answer q.now v.now }
        requires kept { MayKeep q.now v.now }
        ensures ok { OnOk result
            (self.new.entries.items ≡ self.old.entries.items ++ (q.now, v.now) ∷ []) }
        ensures err { OnErr result (self.new.entries.items ≡ self.old.entries.items) }
    {
        self.keep_keyed(&Keyed::of(q), v)
    }

    // The same, by a digest that is known.
    pub(crate) fn keep_keyed(&mut self, key: &Keyed<'_>, v: &Verdict) -> Mem<()>
        requires steady { IsSteady W.steady W.answer key.now.question.now v.now }
        requires kept { MayKeep key.now.question.now v.now }
        ensures ok { OnOk result (self.new.entries.items
            ≡ self.old.entries.items ++ (key.now.question.now, v.now) ∷ []) }
        ensures err { OnErr result (self.new.entries.items ≡ self.old.entries.items) }
    {
        self.entries.push(key, v.try_clone()?)
    }
}
