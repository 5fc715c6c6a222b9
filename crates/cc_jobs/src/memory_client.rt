// A client in memory, for tests.
ghost use Rattle.std.specs.Prelude.{◌≡◌, ◌<◌, ◌≤◌, ◌++◌, [], ◌∷◌, true, Some, OnOk, OnErr, IfOk, IsErr, ◌↔◌};
ghost use Rattle.cc_jobs.specs.Client.{after_acquire, after_release, names};

use crate::{JobClient, JobFault};
use cc_text::Mem;
use std::alloc::Global;

/// A client with tokens of its own, which it tells. Its counts stand still at the greatest u64.
#[derive(Drop)]
pub struct MemoryClient {
    tokens: u64,
    asked: u64,
    faults: u64,
    empties: u64,
    acquired: u64,
    released: u64,
    failing_acquires: Vec<u64>,
    failing_releases: Vec<u64>,
}

impl MemoryClient {
    /// A client that has so many tokens, and of which no call faults. It takes no memory.
    pub fn new(alloc: Global, tokens: u64) -> MemoryClient
        ensures tokens { result.tokens ≡ tokens }
        ensures none { (result.asked ≡ 0) × (result.faults ≡ 0) × (result.empties ≡ 0)
            × (result.acquired ≡ 0) × (result.released ≡ 0) }
        ensures sound { (result.failing_acquires.items ≡ []) × (result.failing_releases.items ≡ []) }
    {
        MemoryClient {
            tokens,
            asked: 0,
            faults: 0,
            empties: 0,
            acquired: 0,
            released: 0,
            failing_acquires: Vec::new(alloc),
            failing_releases: Vec::new(alloc),
        }
    }

    /// Makes the nth call of `try_acquire`, from 1, fault. 0 names none. Want of memory leaves the client.
    pub fn fail_acquire(&mut self, nth: u64) -> Mem<()>
        ensures ok { OnOk result (self.new.failing_acquires.items ≡ self.old.failing_acquires.items ++ nth ∷ []) }
        ensures same { self.new ≡ record self.old { failing_acquires = self.new.failing_acquires } }
        ensures err { OnErr result (self.new.failing_acquires.items ≡ self.old.failing_acquires.items) }
    {
        self.failing_acquires.push(nth)?;
        Ok(())
    }

    /// Makes the nth call of `release_raw`, from 1, fault. 0 names none. Want of memory leaves the client.
    pub fn fail_release(&mut self, nth: u64) -> Mem<()>
        ensures ok { OnOk result (self.new.failing_releases.items ≡ self.old.failing_releases.items ++ nth ∷ []) }
        ensures same { self.new ≡ record self.old { failing_releases = self.new.failing_releases } }
        ensures err { OnErr result (self.new.failing_releases.items ≡ self.old.failing_releases.items) }
    {
        self.failing_releases.push(nth)?;
        Ok(())
    }
}

impl JobClient for MemoryClient {
    ghost faults = { λ c. c.faults };

    ghost empties = { λ c. c.empties };

    ghost acquired = { λ c. c.acquired };

    ghost released = { λ c. c.released };

    ghost tokens = { λ c. Some c.tokens };

    /// Faults exactly where this call was named. Else there is a token exactly where the client has one, which it
    /// then has no more.
    fn try_acquire(&mut self) -> Result<bool, JobFault>
        ensures client { self.new ≡ after_acquire self.old result }
        ensures named { IsErr result ↔ names self.old.failing_acquires.items self.new.asked ≡ true }
        ensures later { (self.old.faults ≤ self.new.faults) × (self.old.empties ≤ self.new.empties)
            × (self.old.acquired ≤ self.new.acquired) }
        ensures had { IfOk result (λ got. got ≡ true ↔ 0 < self.old.tokens) }
    {
        self.asked = self.asked.saturating_add(1);
        if self.failing_acquires.contains(&self.asked) {
            self.faults = self.faults.saturating_add(1);
            return Err(JobFault);
        }
        if self.tokens == 0 {
            self.empties = self.empties.saturating_add(1);
            return Ok(false);
        }
        self.tokens -= 1;
        self.acquired = self.acquired.saturating_add(1);
        Ok(true)
    }

    /// Faults exactly where this call was named. Else the client has one token more.
    fn release_raw(&mut self) -> Result<(), JobFault>
        ensures client { self.new ≡ after_release self.old result }
        ensures named { IsErr result ↔ names self.old.failing_releases.items self.new.released ≡ true }
        ensures later { (self.old.faults ≤ self.new.faults) × (self.old.released ≤ self.new.released) }
    {
        self.released = self.released.saturating_add(1);
        if self.failing_releases.contains(&self.released) {
            self.faults = self.faults.saturating_add(1);
            return Err(JobFault);
        }
        self.tokens = self.tokens.saturating_add(1);
        Ok(())
    }
}
