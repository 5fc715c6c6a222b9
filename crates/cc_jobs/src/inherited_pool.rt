// A client's tokens behind a lock, as a pool.
ghost use Rattle.std.specs.Prelude.{◌≡◌, ◌-◌, ℕ, ◌<◌, ◌≤◌, ◌^◌};
ghost use Rattle.cc_jobs.specs.Inherited.{after_give, after_take};

use crate::inherited::{Inherited, InheritedSeat};
use crate::{JobClient, JobFault, Jobs, Take};
use std::sync::{Mutex, Wait};

/// A pool whose tokens a client hands out. Callers on any threads share it: taking and giving lock it, and may wait
/// for another caller. Every seat of the type is one of it.
#[derive(Drop)]
pub struct InheritedPool<C: JobClient, R: Wait + Drop> {
    state: Mutex<Inherited<C>>,
    rt: R,
}

impl<C: JobClient, R: Wait + Drop> InheritedPool<C, R> {
    /// A pool that begins with this state and locks by this handle. It takes no memory.
    pub fn new(rt: R, state: Inherited<C>) -> InheritedPool<C, R> {
        InheritedPool {
            state: Mutex::new(state),
            rt,
        }
    }

    /// A seat that holds nothing, with all counts at 0. It takes no memory and no lock.
    pub fn seat(&self) -> InheritedSeat
        ensures none { (result.held ≡ 0) × (result.faults ≡ 0) × (result.misses ≡ 0)
            × (result.taken ≡ 0) × (result.load ≡ 0) × (result.given ≡ 0) }
    {
        InheritedSeat {
            held: 0,
            faults: 0,
            misses: 0,
            taken: 0,
            load: 0,
            given: 0,
        }
    }
}

impl<C: JobClient, R: Wait + Drop> Jobs for InheritedPool<C, R> {
    ghost use Rattle.std.specs.Prelude.{None};

    type Seat = InheritedSeat;

    ghost fits = { λ _ _. Unit {0} };

    ghost held = { λ s. s.held };

    ghost faults = { λ s. s.faults };

    ghost total = { λ _. None };

    ghost taken = { λ s. s.taken };

    ghost load = { λ s. s.load };

    ghost given = { λ s. s.given };

    ghost misses = { λ s. s.misses };

    /// Takes the implicit token, else asks the client, under the lock.
    fn take(&self, seat: &mut InheritedSeat) -> Result<Take, JobFault>
        requires room { seat.old.held < 2 ^ 64 - 1 }
        ensures seat { seat.new ≡ after_take seat.old result }
        ensures later { (seat.old.faults ≤ seat.new.faults) × (seat.old.misses ≤ seat.new.misses) }
    {
        let mut state = self.state.lock(&self.rt);
        state.take_on(seat)
    }

    /// Brings the implicit token home, else gives one to the client, under the lock.
    fn give(&self, seat: &mut InheritedSeat)
        requires one { 0 < seat.old.held }
        ensures seat { seat.new ≡ after_give seat.old }
    {
        let mut state = self.state.lock(&self.rt);
        state.give_on(seat);
    }

    fn held(&self, seat: &InheritedSeat) -> u64 {
        seat.held
    }
}
