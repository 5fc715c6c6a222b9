// A pool that threads share: one atomic word, the number of free tokens, and a seat for each caller.
ghost use Rattle.std.specs.Prelude.{◌≡◌, ℕ, ◌+◌, ◌-◌, ◌<◌, ◌≤◌, ◌^◌, [], IfOk};

use crate::sharing::{Beside, Look, Return, SeatView, Sharing, Trade};
use crate::{JobFault, Jobs, Take};
use atomic_table::{Seat, Table};
use cc_text::Mem;
use std::alloc::Global;

/// A pool that callers on any threads share. Over every schedule of all its seats, the free tokens and those that
/// the seats hold are the total. Taking and giving take no memory and wait for nobody.
#[derive(Drop)]
pub struct SharedPool {
    table: Table<(), SeatView, u32, Sharing, Global>,
    ghost sized: { (table.shared.table_id.words ≡ 1) × (table.shared.table_id.slots ≡ 0) },
}

/// A caller's seat at a shared pool. Between two calls it has no load that an exchange could use.
#[derive(Drop)]
pub struct SharedSeat {
    seat: Seat<(), SeatView>,
    held: u64,
    ghost counted: { held ≡ seat.me.0.held },
    ghost idle: { seat.me.0.saw ≡ 0 },
    ghost live: { 1 ≤ seat.me.0.total },
    ghost plain: { seat.me.1 ≡ [] },
}

impl SharedPool {
    ghost use Rattle.cc_jobs.specs.Shared.{fresh};
    ghost use Rattle.cc_jobs.specs.SharedSeat.{view, IsSeatOf};

    /// A pool of `total` tokens, and its first seat, which holds none. The caller sees to it that `total` is at
    /// least 1. Want of memory leaves nothing.
    pub fn new(alloc: Global, total: u32) -> Mem<(SharedPool, SharedSeat)>
        requires { 1 ≤ total }
        ensures fits { IfOk result (λ r. IsSeatOf r.1 r.0) }
        ensures fresh { IfOk result (λ r. view r.1 ≡ fresh total) }
    {
        let (table, seat) = Table::of_words(alloc, &[u64::from(total)], &total)?;
        Ok((SharedPool { table }, SharedSeat { seat, held: 0 }))
    }

    /// A further seat of the pool, for another caller: it holds nothing and its counts begin at 0. The seat that is
    /// handed in holds nothing, and stays as it is. It takes no memory and waits for nobody.
    pub fn split(&self, seat: &mut SharedSeat) -> SharedSeat
        requires fits { IsSeatOf seat.old self.now }
        requires empty { (view seat.old).held ≡ 0 }
        ensures fits { IsSeatOf seat.new self.now × IsSeatOf result self.now }
        ensures same { view seat.new ≡ view seat.old }
        ensures fresh { view result ≡ fresh (view seat.old).total }
    {
        let other = self.table.shared.split_seat::<Beside>(&mut seat.seat);
        SharedSeat {
            seat: other,
            held: 0,
        }
    }

    /// Ends the seat `other`, which holds nothing. The seat beside it stays as it is. It takes no memory and waits
    /// for nobody.
    pub fn join(&self, seat: &mut SharedSeat, other: SharedSeat)
        requires fits { IsSeatOf seat.old self.now × IsSeatOf other self.now }
        requires empty { (view other).held ≡ 0 }
        ensures fits { IsSeatOf seat.new self.now }
        ensures same { view seat.new ≡ view seat.old }
    {
        let SharedSeat {
            seat: other,
            held: _,
        } = other;
        self.table.shared.join_seat::<Beside>(&mut seat.seat, other);
    }

    /// The number of tokens that were free at the end: with what the seat holds at most the total, and the whole of
    /// it where every other seat was joined. It takes no memory and waits for nobody.
    pub fn close(self, seat: SharedSeat) -> u64
        requires { IsSeatOf seat self }
        ensures { result + (view seat).held ≤ (view seat).total }
    {
        let SharedPool { table } = self;
        let SharedSeat { seat, held: _ } = seat;
        let closed = table.close_with(seat);
        let word = closed.word(0);
        closed.free();
        word
    }
}

impl Jobs for SharedPool {
    ghost use Rattle.std.specs.Prelude.{None, ◌≢◌};
    ghost use Rattle.cc_jobs.specs.Shared.{gave, missed, took};
    ghost use Rattle.cc_jobs.specs.SharedSeat.{view, IsSeatOf};

    type Seat = SharedSeat;

    ghost fits = { λ p s. IsSeatOf s p };

    ghost held = { λ s. (view s).held };

    ghost faults = { λ _. 0 };

    ghost total = { λ _. None };

    ghost taken = { λ s. (view s).taken };

    ghost load = { λ s. (view s).load };

    ghost given = { λ s. (view s).given };

    ghost misses = { λ s. (view s).misses };

    /// One load, and at most one exchange. `Pending` comes only where the load read 0 or the exchange lost to
    /// another seat, which the seat's count of misses tells. It never answers a fault.
    fn take(&self, seat: &mut SharedSeat) -> Result<Take, JobFault>
        requires fits { IsSeatOf seat.old self.now }
        requires room { (view seat.old).held < 2 ^ 64 - 1 }
        ensures fits { IsSeatOf seat.new self.now }
        ensures token { result ≡ Ok Take.Token → view seat.new ≡ took (view seat.old) }
        ensures pending { result ≢ Ok Take.Token → result ≡ Ok Take.Pending }
        ensures missed { result ≢ Ok Take.Token → view seat.new ≡ missed (view seat.old) }
    {
        let shared = &self.table.shared;
        let seen = shared.load::<Look>(&mut seat.seat, 0);
        if seen == 0 {
            return Ok(Take::Pending);
        }
        let found = shared.compare_exchange::<Trade>(&mut seat.seat, 0, seen, seen - 1);
        if found == seen {
            seat.held += 1;
            Ok(Take::Token)
        } else {
            Ok(Take::Pending)
        }
    }

    /// One add.
    fn give(&self, seat: &mut SharedSeat)
        requires fits { IsSeatOf seat.old self.now }
        requires one { 0 < (view seat.old).held }
        ensures fits { IsSeatOf seat.new self.now }
        ensures gave { view seat.new ≡ gave (view seat.old) }
    {
        self.table.shared.fetch_add::<Return>(&mut seat.seat, 0, 1);
        seat.held -= 1;
    }

    fn held(&self, seat: &SharedSeat) -> u64 {
        seat.held
    }
}
