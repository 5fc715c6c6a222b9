// Who hands out the tokens of an inherited pool.
ghost use Rattle.std.specs.Prelude.{◌≡◌, ◌≢◌, ℕ, ◌+◌, ◌≤◌, true, false, Option, IfErr, IfOk, IfSome};
ghost use Rattle.cc_jobs.specs.Seats.{Rose, stands};

use crate::JobFault;

/// A client of a job server, which hands out tokens beside the one that every caller has from the start (GNU make,
/// "POSIX Jobserver"). Its four counts never fall.
pub trait JobClient {
    /// How many of its calls faulted.
    ghost faults: { Self → ℕ };

    /// How often a token was asked for in vain.
    ghost empties: { Self → ℕ };

    /// How many tokens were taken from it. It stands still at the greatest u64.
    ghost acquired: { Self → ℕ };

    /// How often a token was given to it, also where that faulted. It stands still at the greatest u64.
    ghost released: { Self → ℕ };

    /// How many tokens it has, known of a client that tells them.
    ghost tokens: { Self → Option ℕ };

    /// Asks for a token and doesn't wait: whether there was one. One that there was is counted once.
    fn try_acquire(&mut self) -> Result<bool, JobFault>
        ensures fault { IfErr result (λ _. Rose (faults self.old) (faults self.new)) }
        ensures sound { IfOk result (λ _. faults self.new ≡ faults self.old) }
        ensures empty { result ≡ Ok false → Rose (empties self.old) (empties self.new) }
        ensures other { result ≢ Ok false → empties self.new ≡ empties self.old }
        ensures token { result ≡ Ok true → acquired self.new ≡ stands (acquired self.old + 1) }
        ensures none { result ≢ Ok true → acquired self.new ≡ acquired self.old }
        ensures released { released self.new ≡ released self.old }
        ensures later { (faults self.old ≤ faults self.new) × (empties self.old ≤ empties self.new)
            × (acquired self.old ≤ acquired self.new) }
        ensures told { result ≡ Ok false → IfSome (tokens self.old) (λ n. n ≡ 0) };

    /// Gives a token to it, which is counted once.
    fn release_raw(&mut self) -> Result<(), JobFault>
        ensures fault { IfErr result (λ _. Rose (faults self.old) (faults self.new)) }
        ensures sound { IfOk result (λ _. faults self.new ≡ faults self.old) }
        ensures released { released self.new ≡ stands (released self.old + 1) }
        ensures taken { (empties self.new ≡ empties self.old) × (acquired self.new ≡ acquired self.old) }
        ensures later { (faults self.old ≤ faults self.new) × (released self.old ≤ released self.new) };
}
