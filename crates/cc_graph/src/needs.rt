// Places in a list of commands.
ghost use Rattle.std.specs.Prelude.{◌≡◌, ◌++◌, [], ◌∷◌, List, ℕ, length, slice_get, OnOk, OnErr};
ghost use Rattle.std.specs.Option.{option_copied};

use cc_text::Mem;
use std::alloc::Global;
use std::marker::Model;

/// Places in a list of commands, in the order in which they were added. Contracts see the list of them.
#[derive(Drop, Debug)]
pub struct Needs {
    places: Vec<u64>,
}

impl Model for Needs {
    ghost Value = { List ℕ };

    ghost view = { λ n. n.places.items };
}

impl Needs {
    /// No place. It takes no memory; the first push may.
    pub fn new(alloc: Global) -> Needs
        ensures { result ≡ [] }
    {
        Needs {
            places: Vec::new(alloc),
        }
    }

    /// Adds a place last. Refused for memory, the list stays as it was.
    pub fn push(&mut self, place: u64) -> Mem<()>
        ensures ok { OnOk result (self.new ≡ self.old ++ place ∷ []) }
        ensures err { OnErr result (self.new ≡ self.old) }
    {
        self.places.push(place)?;
        Ok(())
    }

    /// How many places there are. It takes no memory.
    pub fn len(&self) -> usize
        ensures { result ≡ length self.now }
    {
        self.places.len()
    }

    /// The place that stands there, counted from 0, or none past the end. It takes no memory.
    pub fn get(&self, place: usize) -> Option<u64>
        ensures { result ≡ slice_get self.now place }
    {
        self.places.get(place).copied()
    }

    // Takes all places out, and keeps their room.
    pub(crate) fn clear(&mut self)
        ensures { self.new ≡ [] }
    {
        self.places.clear();
    }

    /// The places in order, lent. It takes no memory.
    pub fn as_slice(&self) -> &[u64]
        ensures { result.now ≡ self.now }
    {
        self.places.as_slice()
    }
}
