// The place of each object, by its path.
ghost use Rattle.std.specs.Prelude.{◌≡◌, IfOk, OnOk, Some, None, List, ℕ, reverse};
ghost use Rattle.std.specs.Map.{update};
ghost use Rattle.std.specs.Str.{bytes_eq};
ghost use Rattle.cc_text.specs.Places.{place_at};

use crate::Mem;
use std::alloc::Global;
use std::collections::BTreeMap;

/// The places of objects by their paths.
///
/// A path is kept from its end on: objects mostly lie in one folder and begin with one number, so two paths differ soonest from there, and
/// a search compares few bytes of each.
#[derive(Drop)]
pub struct PathPlaces {
    by_path: BTreeMap<Vec<u8>, u64, Global>,
}
// The bytes of a text, from the last on.
fn reversed(alloc: Global, text: &str) -> Mem<Vec<u8>>
    ensures { IfOk result (λ bytes. bytes.items ≡ reverse text.now) }
{
    let mut bytes = Vec::from_slice(alloc, text.as_bytes())?;
    bytes.reverse();
    Ok(bytes)
}

impl PathPlaces {
    /// No place.
    #[tactic(auto, unfolding(crate::specs::Places::place_at))]
    pub fn new(alloc: Global) -> PathPlaces
        ensures { (path : List ℕ) → place_at result path ≡ None }
    {
        PathPlaces {
            by_path: BTreeMap::new(alloc),
        }
    }

    /// Gives a path this place, and answers the place that it had.
    #[tactic(auto, unfolding(crate::specs::Places::place_at))]
    pub fn put(&mut self, alloc: Global, path: &str, place: u64) -> Mem<Option<u64>>
        ensures old { IfOk result (λ old. old ≡ place_at self.old path.now) }
        ensures new { OnOk result ((text : List ℕ)
            → place_at self.new text
            ≡ update bytes_eq (place_at self.old) path.now (Some place) text) }
    {
        let old = self.by_path.insert(reversed(alloc, path)?, place)?;
        Ok(old)
    }
}
