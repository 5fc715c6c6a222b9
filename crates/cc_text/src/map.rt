// A small map: a list of pairs, which is searched from its front.
ghost use Rattle.std.specs.Prelude.{◌≡◌, ◌<◌, [], length, slice_get, IsSome, IsOk, OnOk, OnErr};
ghost use Rattle.std.specs.Borrow.{sem};
ghost use Rattle.std.specs.List.{position};
ghost use Rattle.std.specs.Option.{option_copied, option_copied_mut, option_map};

use crate::Mem;
use std::alloc::Global;
use std::marker::Model;

/// A map from keys to values, for few keys: each look-up goes through them all. Contracts see a list of pairs with
/// distinct keys, in the order in which the keys came.
#[derive(Drop)]
pub struct VecMap<K: PartialEq, V> {
    entries: Vec<(K, V)>,
}

impl<K: PartialEq, V> Model for VecMap<K, V> {
    ghost use Rattle.std.specs.Prelude.{List};
    ghost use Rattle.cc_text.specs.Map.{HasDistinctKeys};

    ghost Value = { List (K × V) };

    ghost view = { λ m. m.entries.items };

    ghost invariant = { λ m. HasDistinctKeys K.eq m.entries.items };
}

impl<K: PartialEq + Drop, V: Drop> VecMap<K, V> {
    ghost use Rattle.cc_text.specs.Map.{is_key, value_of, with_pair, HasDistinctKeys};
    ghost use Rattle.cc_text.specs.MapLends.{lends_at, lends_value};

    /// The map without pairs. It takes no memory.
    pub fn new(alloc: Global) -> Self
        ensures { result ≡ [] }
    {
        VecMap {
            entries: Vec::new(alloc),
        }
    }

    /// The pairs, in the order in which their keys came, lent; no key is there twice. It takes no memory.
    pub fn as_slice(&self) -> &[(K, V)]
        ensures pairs { result.now ≡ self.now }
        ensures distinct { HasDistinctKeys K.eq self.now }
    {
        self.entries.as_slice()
    }

    /// The place of a key, or none.
    fn place_of(&self, key: &K) -> Option<usize>
        ensures { result ≡ position (is_key K.eq key.now) self.now }
    {
        self.entries.iter().position(|pair| pair.0 == *key)
    }

    /// The value of a key, lent, or none. It takes no memory.
    pub fn get(&self, key: &K) -> Option<&V>
        ensures { option_copied result ≡ value_of K.eq self.now key.now }
    {
        let (_, value) = self.entries.iter().find(|pair| pair.0 == *key)?;
        Some(value)
    }

    /// The value at a place, to be written.
    fn value_mut_at(&mut self, place: usize) -> &mut V
        requires { place < length self.old }
        ensures* writes_back { sem 𝓛 (lends_at K.row V.row K.PartialEq self.entry place result) }
        ensures value { option_map (λ pair. pair.1) (slice_get self.old place) ≡ Some result.now }
    {
        let pair = &mut self.entries[place];
        &mut pair.1
    }

    /// The value of a key, lent to be written, or none. The other pairs stay as they are. It takes no memory.
    pub fn get_mut(&mut self, key: &K) -> Option<&mut V>
        ensures* writes_back { sem 𝓛 (lends_value K.row V.row K.PartialEq self.entry key.now result) }
        ensures value { option_copied_mut result ≡ value_of K.eq self.old key.now }
    {
        match self.place_of(key) {
            Some(place) => Some(self.value_mut_at(place)),
            None => None,
        }
    }

    /// Gives a key a value: in its place where the key is there, which takes no memory and isn't refused, else in a
    /// pair that is added last. Refused for memory, the map stays as it was, and `key` and `value` are dropped.
    pub fn insert(&mut self, key: K, value: V) -> Mem<()>
        ensures ok { OnOk result (self.new ≡ with_pair K.eq self.old key value) }
        ensures err { OnErr result (self.new ≡ self.old) }
        ensures there { IsSome (value_of K.eq self.old key) → IsOk result }
    {
        match self.place_of(&key) {
            Some(place) => {
                self.entries[place].1 = value;
                Ok(())
            }
            None => {
                self.entries.push((key, value))?;
                Ok(())
            }
        }
    }
}
