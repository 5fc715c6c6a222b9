// Tokens that a client hands out, and the one that every caller has from the start.
ghost use Rattle.std.specs.Prelude.{◌≡◌, ◌≢◌, ℕ, ◌+◌, ◌-◌, ◌<◌, ◌≤◌, ◌^◌, true, false, Ok, IfErr, IfOk, IfSome};
ghost use Rattle.cc_jobs.specs.Inherited.{after_give, after_take};
ghost use Rattle.cc_jobs.specs.Out.{IsOut, RoseWith};
ghost use Rattle.cc_jobs.specs.Seats.{Rose, stands};

use crate::{JobClient, JobFault, Take};

/// A seat of an inherited pool: how many tokens it holds, how often its pool failed it, how often there was no token,
/// the two counts of what was taken, and how often a token was given back. All but the first stand still at the
/// greatest u64.
#[derive(Drop, Debug)]
pub struct InheritedSeat {
    pub(crate) held: u64,
    pub(crate) faults: u64,
    pub(crate) misses: u64,
    pub(crate) taken: u64,
    pub(crate) load: u64,
    pub(crate) given: u64,
}

/// A client, and whether the implicit token is home, the one that a process has from its job server without asking
/// (GNU make, "POSIX Jobserver"). The number of tokens out is that of those taken from the client less those given
/// to it, and one more while the implicit token is out, as long as its counts are below the greatest u64.
#[derive(Drop)]
pub struct Inherited<C: JobClient> {
    client: C,
    is_home: bool,
    taken: u64,
    given: u64,
    out: u64,
    ghost counted: { taken < 2 ^ 64 - 1 → IsOut out is_home taken given },
}

impl<C: JobClient> Inherited<C> {
    /// Nothing is out, and the implicit token is home. It takes no memory.
    pub fn new(client: C) -> Inherited<C>
        ensures client { result.client ≡ client }
        ensures home { result.is_home ≡ true }
        ensures none { (result.out ≡ 0) × (result.taken ≡ 0) × (result.given ≡ 0) }
    {
        Inherited {
            client,
            is_home: true,
            taken: 0,
            given: 0,
            out: 0,
        }
    }

    /// Takes the implicit token where it is home, else asks the client. The caller sees to it that the seat holds
    /// fewer than the greatest u64. `Pending` comes exactly where the client was asked in vain, a fault exactly
    /// where the client faulted. A token that isn't the implicit one is one that the client handed out in this call.
    pub fn take_on(&mut self, seat: &mut InheritedSeat) -> Result<Take, JobFault>
        requires room { seat.old.held < 2 ^ 64 - 1 }
        ensures seat { seat.new ≡ after_take seat.old result }
        ensures later { (seat.old.faults ≤ seat.new.faults) × (seat.old.misses ≤ seat.new.misses) }
        ensures out { result ≡ Ok Take.Token → self.new.out ≡ stands (self.old.out + 1) }
        ensures left { result ≢ Ok Take.Token → self.new.out ≡ self.old.out }
        ensures home { self.old.is_home ≡ true
            → (result ≡ Ok Take.Token) × (self.new.client ≡ self.old.client) }
        ensures away { self.new.is_home ≡ false }
        ensures pending { result ≡ Ok Take.Pending
            → (self.old.is_home ≡ false) × Rose (C.empties self.old.client) (C.empties self.new.client) }
        ensures asked { result ≢ Ok Take.Pending
            → C.empties self.new.client ≡ C.empties self.old.client }
        ensures told { result ≡ Ok Take.Pending → IfSome (C.tokens self.old.client) (λ n. n ≡ 0) }
        ensures fault { IfErr result (λ _. Rose (C.faults self.old.client) (C.faults self.new.client)) }
        ensures sound { IfOk result (λ _. C.faults self.new.client ≡ C.faults self.old.client) }
        ensures came { result ≡ Ok Take.Token → self.old.is_home ≡ false
            → C.acquired self.new.client ≡ stands (C.acquired self.old.client + 1) }
        ensures none { result ≢ Ok Take.Token
            → C.acquired self.new.client ≡ C.acquired self.old.client }
        ensures taken { RoseWith self.old.taken self.new.taken
            (C.acquired self.old.client) (C.acquired self.new.client) }
        ensures given { (self.new.given ≡ self.old.given)
            × (C.released self.new.client ≡ C.released self.old.client) }
    {
        if self.is_home {
            self.is_home = false;
        } else {
            match self.client.try_acquire() {
                Ok(true) => self.taken = self.taken.saturating_add(1),
                Ok(false) => {
                    seat.misses = seat.misses.saturating_add(1);
                    return Ok(Take::Pending);
                }
                Err(JobFault) => {
                    seat.faults = seat.faults.saturating_add(1);
                    return Err(JobFault);
                }
            }
        }
        self.out = self.out.saturating_add(1);
        seat.held += 1;
        seat.taken = seat.taken.saturating_add(1);
        seat.load = seat.load.saturating_add(seat.held);
        Ok(Take::Token)
    }

    /// Brings the implicit token home where it is out, else gives one to the client. A client that fails then counts
    /// as one that took it. The caller sees to it that the seat holds one. Where no token is out, as with a seat of
    /// another pool, only the seat's count falls.
    pub fn give_on(&mut self, seat: &mut InheritedSeat)
        requires one { 0 < seat.old.held }
        ensures seat { seat.new ≡ after_give seat.old }
        ensures none { self.old.out ≡ 0 → self.new ≡ self.old }
        ensures out { 0 < self.old.out → self.new.out + 1 ≡ self.old.out }
        ensures home { 0 < self.old.out → self.new.is_home ≡ true }
        ensures away { self.old.is_home ≡ false → self.new.client ≡ self.old.client }
        ensures gave { 0 < self.old.out → self.old.is_home ≡ true
            → C.released self.new.client ≡ stands (C.released self.old.client + 1) }
        ensures given { RoseWith self.old.given self.new.given
            (C.released self.old.client) (C.released self.new.client) }
        ensures taken { (self.new.taken ≡ self.old.taken)
            × (C.acquired self.new.client ≡ C.acquired self.old.client) }
    {
        seat.held -= 1;
        seat.given = seat.given.saturating_add(1);
        if self.out == 0 {
            return;
        }
        self.out -= 1;
        if self.is_home {
            let _ = self.client.release_raw();
            self.given = self.given.saturating_add(1);
        } else {
            self.is_home = true;
        }
    }
}
