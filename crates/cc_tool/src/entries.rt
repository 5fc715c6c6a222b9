// Questions with their verdicts, and an index by digest beside them.
ghost use Rattle.std.specs.Prelude.{◌≡◌, ◌<◌, ◌++◌, ◌∷◌, [], List, OnOk, OnErr, MatchOption, length, vec_len, vec_capacity};
ghost use Rattle.std.specs.Option.{option_copied};
ghost use Rattle.cc_host.specs.Question.{Answer, Lacks};
ghost use Rattle.cc_tool.specs.Known.{Has};
ghost use Rattle.cc_tool.specs.Places.{bucket, places_from};

use crate::digest::{Keyed, question_digest};
use crate::places::{Places, add_place, drop_place};
use cc_host::{Question, Verdict};
use cc_text::Mem;
use std::alloc::Global;
use std::collections::BTreeMap;
use std::marker::Model;

type Entry = (Question, Verdict);

/// Questions with their verdicts, in the order in which they came. They are looked up by an index from the digest of a question to the
/// places of the entries with that digest. Contracts see the list.
#[derive(Drop, Debug)]
pub(crate) struct Entries {
    list: Vec<Entry>,
    index: BTreeMap<u64, Places>,
}

impl Model for Entries {
    ghost use Rattle.std.specs.BTreeMap.{get};
    ghost use Rattle.std.specs.Ordering.{nat_cmp};
    ghost use Rattle.cc_tool.specs.Places.{Listed, IsIndexed};

    ghost Value = { Listed };

    ghost view = { λ e. record { items = e.list.items } };

    ghost invariant = { λ e. IsIndexed e.list.items (λ digest. get nat_cmp e.index digest) };
}

// Adds an entry for which there is room.
fn push_reserved(list: &mut Vec<Entry>, entry: Entry)
    requires { vec_len list.old < vec_capacity list.old }
    ensures { list.new.items ≡ list.old.items ++ entry ∷ [] }
{
    let Ok(()) = list.push(entry) else {
        unreachable!();
    };
}

// Puts another verdict in the place of that of an entry.
fn set_verdict(entry: &mut Entry, verdict: Verdict)
    ensures { entry.new ≡ (entry.old.0, verdict) }
{
    entry.1 = verdict;
}

impl Entries {
    pub fn new(alloc: Global) -> Entries
        ensures { result.items ≡ [] }
    {
        Entries {
            list: Vec::new(alloc),
            index: BTreeMap::new(alloc),
        }
    }

    pub fn len(&self) -> usize
        ensures { result ≡ length self.now.items }
    {
        self.list.len()
    }

    pub fn allocator(&self) -> Global {
        *self.list.allocator()
    }

    // The ascending places of the entries with a digest.
    pub fn bucket_on(&self, digest: u64) -> Option<&Places>
        ensures { option_copied result ≡ bucket digest self.now.items }
    {
        self.index.get(&digest)
    }

    // The verdict of the first entry of a question.
    pub fn find(&self, key: &Keyed<'_>) -> Option<&Verdict>
        ensures { MatchOption result (Lacks self.now.items key.now.question.now)
            (λ v. Has self.now.items key.now.question.now v.now) }
    {
        match self.bucket_on(key.digest) {
            Some(places) => self.find_among(key, places),
            None => None,
        }
    }

    // The same, among the entries with its digest.
    fn find_among(&self, key: &Keyed<'_>, places: &Places) -> Option<&Verdict>
        requires { places.now ≡ places_from 0 key.now.digest self.now.items }
        ensures { MatchOption result (Lacks self.now.items key.now.question.now)
            (λ v. Has self.now.items key.now.question.now v.now) }
    {
        for place in places.as_slice() {
            let entry = &self.list[*place as usize];
            if entry.0.same_as(key.question) {
                return Some(&entry.1);
            }
        }
        None
    }

    // Adds an entry last. Memory is taken for the list and for the index before either is changed.
    pub fn push(&mut self, key: &Keyed<'_>, verdict: Verdict) -> Mem<()>
        ensures ok { OnOk result
            (self.new.items ≡ self.old.items ++ (key.now.question.now, verdict) ∷ []) }
        ensures err { OnErr result (self.new.items ≡ self.old.items) }
    {
        let entry = (key.question.try_clone()?, verdict);
        self.list.reserve(1)?;
        let place = self.list.len() as u64;
        add_place(*self.list.allocator(), &mut self.index, key.digest, place)?;
        push_reserved(&mut self.list, entry);
        Ok(())
    }

    // Takes back the last entry.
    pub fn pop(&mut self)
        ensures { (known : List Answer) (a : Answer) → self.old.items ≡ known ++ a ∷ []
            → self.new.items ≡ known }
    {
        if let Some((question, _)) = self.list.pop() {
            drop_place(&mut self.index, question_digest(&question));
        }
    }

    // Sets the verdict of the last entry.
    pub fn set_last(&mut self, verdict: Verdict)
        ensures { (known : List Answer) (a : Answer) → self.old.items ≡ known ++ a ∷ []
            → self.new.items ≡ known ++ (a.0, verdict) ∷ [] }
    {
        let count = self.list.len();
        if 0 < count {
            set_verdict(&mut self.list[count - 1], verdict);
        }
    }
}
