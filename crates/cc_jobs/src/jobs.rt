// What a pool of tokens promises, whatever it is made of.
ghost use Rattle.std.specs.Prelude.{◌≡◌, ℕ, ◌+◌, ◌-◌, ◌<◌, ◌≤◌, ◌^◌, ◌≢◌, Option, IfSome, IfErr, ◌↔◌};
ghost use Rattle.cc_jobs.specs.Seats.{Rose, stands, IsBounded};

/// What a pool answers where it didn't fail.
#[derive(Clone, Copy, PartialEq, Eq, Debug)]
pub enum Take {
    /// The seat holds one token more: one more command may run.
    Token,
    /// There is no token now. The caller asks again once one may have come back.
    Pending,
}

/// The pool itself failed, and the seat holds what it held. `OneCaller` never answers it.
#[derive(Clone, Copy, PartialEq, Eq, Debug)]
pub struct JobFault;

/// A pool of tokens, which bounds how many commands run at once. Every meaning is of the seat that the caller keeps
/// and hands in.
pub trait Jobs {
    /// What a caller keeps at the pool: how many tokens it holds, and counts of what was taken and given back.
    type Seat;

    /// Whether a seat is one of this pool. Each call is for such seats alone.
    ghost fits: { Self → Self.Seat → Type 0 };

    /// How many tokens the seat holds.
    ghost held: { Self.Seat → ℕ };

    /// How often the pool failed this seat. It never falls.
    ghost faults: { Self.Seat → ℕ };

    /// How many tokens the whole pool has, known where one caller owns it.
    ghost total: { Self.Seat → Option ℕ };

    /// How many tokens the seat took so far. It stands still at the greatest u64.
    ghost taken: { Self.Seat → ℕ };

    /// The sum of what the seat held right after each token that it took: over `taken`, it says how many commands
    /// ran side by side. It stands still at the greatest u64.
    ghost load: { Self.Seat → ℕ };

    /// How often the seat gave a token back. It stands still at the greatest u64.
    ghost given: { Self.Seat → ℕ };

    /// How often the seat asked for a token in vain. It never falls.
    ghost misses: { Self.Seat → ℕ };

    /// Asks for a token. `Token` raises what the seat holds by one; `Pending` and a fault leave it. Where the total
    /// is known, `Pending` comes exactly where the seat holds them all; it comes only where the seat's misses rise.
    /// The caller sees to it that the seat holds fewer than the greatest u64.
    fn take(&self, seat: &mut Self::Seat) -> Result<Take, JobFault>
        requires fits { fits self.now seat.old }
        requires room { held seat.old < 2 ^ 64 - 1 }
        ensures fits { fits self.now seat.new }
        ensures total { total seat.new ≡ total seat.old }
        ensures bounded { IsBounded (total seat.old) (held seat.old)
            × IsBounded (total seat.new) (held seat.new) }
        ensures token { result ≡ Ok Take.Token
            → (held seat.new ≡ held seat.old + 1) × (taken seat.new ≡ stands (taken seat.old + 1))
            × (load seat.new ≡ stands (load seat.old + held seat.new)) }
        ensures other { result ≢ Ok Take.Token
            → (held seat.new ≡ held seat.old) × (taken seat.new ≡ taken seat.old)
            × (load seat.new ≡ load seat.old) }
        ensures full { IfSome (total seat.old) (λ t. result ≡ Ok Take.Pending ↔ held seat.old ≡ t) }
        ensures missed { result ≡ Ok Take.Pending → Rose (misses seat.old) (misses seat.new) }
        ensures misses { misses seat.old ≤ misses seat.new }
        ensures given { given seat.new ≡ given seat.old }
        ensures later { faults seat.old ≤ faults seat.new }
        ensures fault { IfErr result (λ _. Rose (faults seat.old) (faults seat.new)) };

    /// Gives one token of the seat back, which is counted, and can't fail. The caller sees to it that the seat holds
    /// one.
    fn give(&self, seat: &mut Self::Seat)
        requires fits { fits self.now seat.old }
        requires one { 0 < held seat.old }
        ensures fits { fits self.now seat.new }
        ensures held { held seat.new + 1 ≡ held seat.old }
        ensures total { total seat.new ≡ total seat.old }
        ensures bounded { IsBounded (total seat.new) (held seat.new) }
        ensures counts { (taken seat.new ≡ taken seat.old) × (load seat.new ≡ load seat.old) }
        ensures given { given seat.new ≡ stands (given seat.old + 1) }
        ensures misses { misses seat.new ≡ misses seat.old }
        ensures later { faults seat.old ≤ faults seat.new };

    /// How many tokens the seat holds.
    fn held(&self, seat: &Self::Seat) -> u64
        requires { fits self.now seat.now }
        ensures held { result ≡ held seat.now }
        ensures bounded { IsBounded (total seat.now) (held seat.now) };
}
