// What a seat of a shared pool knows, and the kinds of step on the pool's word.
ghost use Rattle.cc_jobs.specs.Shared.{Balanced, fresh, spent, looked, traded, returned};

use atomic_table::{Join, Play, Split, TableRule};

/// What a seat of a shared pool knows. It stands in contracts alone, and no value of it is made. `total` is the
/// pool's, or 0 once the seat was joined to another. `saw` is what the seat's last load read, or 0 once an exchange
/// has used it. `misses` counts the loads that read 0 and the exchanges that lost, `loads` all loads, `given` the
/// tokens that were given back.
pub struct SeatView {
    pub total: u64,
    pub held: u64,
    pub saw: u64,
    pub misses: u64,
    pub taken: u64,
    pub load: u64,
    pub loads: u64,
    pub given: u64,
}

// The rule of a pool of so many tokens.
pub struct Sharing;

impl TableRule<(), SeatView, u32> for Sharing {
    ghost holds = { Balanced };

    ghost first = { fresh };
}

// A load, which reads 0 or above.
pub struct Look;

impl Play<(), SeatView> for Look {
    ghost then = { looked };
}

// An exchange of what was seen by one less, won or lost.
pub struct Trade;

impl Play<(), SeatView> for Trade {
    ghost then = { traded };
}

// An add of one token that the seat held.
pub struct Return;

impl Play<(), SeatView> for Return {
    ghost then = { returned };
}

// A new seat beside one that stays as it is, and its end.
pub struct Beside;

impl Split<SeatView> for Beside {
    ghost left = { λ v. v };

    ghost right = { λ v. fresh v.total };
}

impl Join<SeatView> for Beside {
    ghost both = { λ v _. v };

    ghost spent = { spent };
}
