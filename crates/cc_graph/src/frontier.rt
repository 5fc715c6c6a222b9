// The places that wait for others, and those that may be started.
ghost use Rattle.std.specs.Prelude.{◌≡◌, ◌+◌, ◌<◌, ◌≤◌, ◌++◌, ◌∷◌, ◌==◌, ◌&&◌, ℕ, [], length, IfOk, OnOk, Some};
ghost use Rattle.std.specs.BinaryHeap.{heap_items, heap_len, heap_capacity};
ghost use Rattle.cc_run.specs.Book.{one_where};
ghost use Rattle.cc_graph.specs.Frontier.{Sound, Freed, Lowers, Takes, AreOpen, IsFirstReady, open_at, ready_at};

use cc_text::Mem;
use std::alloc::Global;
use std::cmp::Reverse;
use std::collections::BinaryHeap;

/// Places that are counted down: for each how many of its needs are open, and a heap of those that have none and
/// weren't taken, the least first.
#[derive(Drop)]
pub(crate) struct Frontier {
    pub counts: Vec<usize>,
    pub ready: BinaryHeap<Reverse<usize>>,
}

impl Frontier {
    /// No place, with room for so many.
    pub(crate) fn new(alloc: Global, count: usize) -> Mem<Frontier>
        ensures sound { IfOk result (λ f. Sound f) }
        ensures empty { IfOk result (λ f. f.counts.items ≡ []) }
        ensures none { IfOk result (λ f. (q : ℕ) → ready_at f q ≡ 0) }
        ensures room { IfOk result (λ f. count ≤ heap_capacity f.ready) }
    {
        let ready = BinaryHeap::with_capacity(alloc, count)?;
        Ok(Frontier {
            counts: Vec::new(alloc),
            ready,
        })
    }

    // Makes a place ready. It takes no memory where there is room for it.
    fn free(&mut self, place: usize)
        ensures { heap_len self.old.ready < heap_capacity self.old.ready
            → Freed self.old self.new place }
    {
        match self.ready.push(Reverse(place)) {
            Ok(()) => {}
            Err(_) => {}
        }
    }

    /// Adds a place with so many needs last.
    pub(crate) fn add(&mut self, needs: usize) -> Mem<()>
        requires sound { Sound self.old }
        requires room { length self.old.counts.items < heap_capacity self.old.ready }
        ensures sound { OnOk result (Sound self.new) }
        ensures open { OnOk result (self.new.counts.items ≡ self.old.counts.items ++ needs ∷ []) }
        ensures ready { OnOk result ((q : ℕ) → ready_at self.new q ≡ ready_at self.old q
            + one_where (q == length self.old.counts.items && needs == 0)) }
        ensures room { heap_capacity self.old.ready ≤ heap_capacity self.new.ready }
    {
        let place = self.counts.len();
        self.counts.push(needs)?;
        if needs == 0 {
            self.free(place);
        }
        Ok(())
    }

    // Counts a need less of a place.
    fn lower(&mut self, place: usize)
        ensures { Sound self.old → 0 < open_at self.old place
            → Lowers self.old self.new (place ∷ []) }
    {
        if place < self.counts.len() && 0 < self.counts[place] {
            let left = self.counts[place] - 1;
            self.counts[place] = left;
            if left == 0 {
                self.free(place);
            }
        }
    }

    /// Counts a need less of each of these places, as often as it stands there.
    pub(crate) fn lower_all(&mut self, places: &[u64])
        ensures { Sound self.old → AreOpen self.old places.now
            → Lowers self.old self.new places.now }
    {
        for place in places {
            self.lower(*place as usize);
        }
    }

    /// The least place that is ready.
    pub(crate) fn first(&self) -> Option<usize>
        ensures { Sound self.now → IsFirstReady self.now result }
    {
        match self.ready.peek() {
            Some(place) => Some(place.0),
            None => None,
        }
    }

    /// Takes the least place that is ready.
    pub(crate) fn take(&mut self)
        ensures sound { Sound self.old → Sound self.new }
        ensures counts { self.new.counts ≡ self.old.counts }
        ensures taken { Sound self.old → Takes self.old self.new }
    {
        match self.ready.pop() {
            Some(_) => {}
            None => {}
        }
    }
}
