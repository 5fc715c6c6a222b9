// A pool that one caller owns: a count up to a total. Its calls take no memory and wait for nobody.
ghost use Rattle.std.specs.Prelude.{◌≡◌, ◌≤◌, Some};

use crate::{JobFault, Jobs, Take};

/// A pool that one caller owns. It has nothing of its own: its seat counts, and every seat is one of it.
#[derive(Clone, Copy, Debug)]
pub struct OneCaller;

/// The seat of such a pool: the pool's total, how many tokens are taken, the two counts of what was taken, how often
/// one was given back, and how often there was none. It holds at most the total. Its counts stand still at the
/// greatest u64.
#[derive(Drop, Debug)]
pub struct OneSeat {
    total: u32,
    held: u32,
    taken: u64,
    load: u64,
    given: u64,
    misses: u64,
    ghost within: { (1 ≤ total) × (held ≤ total) },
}

impl OneCaller {
    /// A pool of `total` tokens, and its seat, which holds none. The caller sees to it that `total` is at least 1.
    /// It takes no memory.
    pub fn new(total: u32) -> (OneCaller, OneSeat)
        requires { 1 ≤ total }
        ensures total { result.1.total ≡ total }
        ensures none { (result.1.held ≡ 0) × (result.1.taken ≡ 0) × (result.1.load ≡ 0) }
        ensures unused { (result.1.given ≡ 0) × (result.1.misses ≡ 0) }
    {
        let seat = OneSeat {
            total,
            held: 0,
            taken: 0,
            load: 0,
            given: 0,
            misses: 0,
        };
        (OneCaller, seat)
    }
}

impl Jobs for OneCaller {
    type Seat = OneSeat;

    ghost fits = { λ _ _. Unit {0} };

    ghost held = { λ s. s.held };

    ghost faults = { λ _. 0 };

    ghost total = { λ s. Some s.total };

    ghost taken = { λ s. s.taken };

    ghost load = { λ s. s.load };

    ghost given = { λ s. s.given };

    ghost misses = { λ s. s.misses };

    fn take(&self, seat: &mut OneSeat) -> Result<Take, JobFault> {
        if seat.held == seat.total {
            seat.misses = seat.misses.saturating_add(1);
            return Ok(Take::Pending);
        }
        seat.held += 1;
        seat.taken = seat.taken.saturating_add(1);
        seat.load = seat.load.saturating_add(u64::from(seat.held));
        Ok(Take::Token)
    }

    fn give(&self, seat: &mut OneSeat) {
        seat.held -= 1;
        seat.given = seat.given.saturating_add(1);
    }

    fn held(&self, seat: &OneSeat) -> u64 {
        u64::from(seat.held)
    }
}
