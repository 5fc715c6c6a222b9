// Ascending places in a list, and an index of them.
ghost use Rattle.std.specs.Prelude.{◌≡◌, ◌≢◌, ℕ, List, ◌++◌, ◌∷◌, [], Some, IfOk, OnOk, OnErr};
ghost use Rattle.std.specs.BTreeMap.{get};
ghost use Rattle.std.specs.Ordering.{nat_cmp};
ghost use Rattle.cc_tool.specs.Places.{if_any, with_place};

use cc_text::{Mem, NoMemory};
use std::alloc::Global;
use std::collections::BTreeMap;
use std::marker::Model;

/// The places of some entries in their list, counted from 0 and ascending. Contracts see a list of numbers.
#[derive(Drop, Debug)]
pub struct Places {
    items: Vec<u64>,
}

impl Model for Places {
    ghost use Rattle.std.specs.Prelude.{List, ℕ};

    ghost Value = { List ℕ };

    ghost view = { λ p. p.items.items };
}

impl Places {
    ghost use Rattle.std.specs.Prelude.{length, slice_get};

    /// The number at a place among these, counted from 0, or none past the end. It takes no memory.
    pub fn get(&self, place: usize) -> Option<u64>
        ensures { result ≡ slice_get self.now place }
    {
        self.items.get(place).copied()
    }

    pub(crate) fn as_slice(&self) -> &[u64]
        ensures { result.now ≡ self.now }
    {
        self.items.as_slice()
    }

    // How many there are.
    pub(crate) fn len(&self) -> usize
        ensures { result ≡ length self.now }
    {
        self.items.len()
    }

    fn one(alloc: Global, place: u64) -> Mem<Places>
        ensures { IfOk result (λ places. places ≡ place ∷ []) }
    {
        let mut items = Vec::new(alloc);
        items.push(place)?;
        Ok(Places { items })
    }

    fn push(&mut self, place: u64) -> Mem<()>
        ensures ok { OnOk result (self.new ≡ self.old ++ place ∷ []) }
        ensures err { OnErr result (self.new ≡ self.old) }
    {
        self.items.push(place)?;
        Ok(())
    }

    fn pop(&mut self)
        ensures { (places : List ℕ) (place : ℕ) → self.old ≡ places ++ place ∷ []
            → self.new ≡ places }
    {
        let _ = self.items.pop();
    }
}

// Adds a place behind those of its digest. Refused for memory, the index stays as it was.
pub(crate) fn add_place(
    alloc: Global,
    index: &mut BTreeMap<u64, Places>,
    digest: u64,
    place: u64,
) -> Mem<()>
    ensures here { OnOk result
        (get nat_cmp index.new digest ≡ with_place (get nat_cmp index.old digest) place) }
    ensures err { OnErr result (get nat_cmp index.new digest ≡ get nat_cmp index.old digest) }
    ensures others { (d : ℕ) → d ≢ digest → get nat_cmp index.new d ≡ get nat_cmp index.old d }
{
    if let Some(places) = index.get_mut(&digest) {
        return places.push(place);
    }
    match index.insert(digest, Places::one(alloc, place)?) {
        Ok(_) => Ok(()),
        Err(_) => Err(NoMemory),
    }
}

// Takes the last place of a digest from an index.
pub(crate) fn drop_place(index: &mut BTreeMap<u64, Places>, digest: u64)
    ensures here { (places : List ℕ) (place : ℕ)
        → get nat_cmp index.old digest ≡ Some (places ++ place ∷ [])
        → get nat_cmp index.new digest ≡ if_any places }
    ensures others { (d : ℕ) → d ≢ digest → get nat_cmp index.new d ≡ get nat_cmp index.old d }
{
    if let Some(places) = index.get_mut(&digest) {
        if places.len() > 1 {
            places.pop();
            return;
        }
    }
    let _ = index.remove(&digest);
}
