// How long a pipe is heard on behind the end of its child, where another process still holds it.
ghost use Rattle.std.specs.Prelude.{◌≡◌, None, true, false, is_some};

use crate::waiting::now_ms;

// In milliseconds.
const LATE_MS: u64 = 2000;

// After how many reads in a row it is asked whether the child ended: a pipe that is never silent may be another process's.
const READS: u32 = 64;

// How many reads follow where the time is over. A pipe holds no more of what a child wrote before its end.
const LAST_READS: u32 = 128;

/// Whether the child of a pipe ended, and until when the pipe is heard on then.
#[derive(Clone, Copy)]
pub struct Late {
    until_ms: Option<u64>,
    reads: u32,
    left: u32,
}

impl Late {
    /// Of a child that runs.
    pub const fn new() -> Late
        ensures { result.until_ms ≡ None }
    {
        Late {
            until_ms: None,
            reads: 0,
            left: LAST_READS,
        }
    }

    /// Whether the child is to be asked whether it ended, behind a wait for its pipe that was silent or gave a read.
    pub fn asks(&mut self, is_silent: bool) -> bool
        ensures end { self.new.until_ms ≡ self.old.until_ms }
        ensures once { is_some self.old.until_ms ≡ true → result ≡ false }
        ensures silent { is_silent ≡ true → self.old.until_ms ≡ None → result ≡ true }
    {
        self.reads = if is_silent {
            0
        } else {
            self.reads.saturating_add(1)
        };
        let is_due = is_silent || self.reads >= READS;
        if is_due {
            self.reads = 0;
        }
        is_due && self.until_ms.is_none()
    }

    /// Notes that the child ended.
    pub fn begin(&mut self) {
        self.until_ms = Some(now_ms().saturating_add(LATE_MS));
    }

    /// Whether the child ended.
    pub fn has_begun(&self) -> bool
        ensures { result ≡ is_some self.now.until_ms }
    {
        self.until_ms.is_some()
    }

    fn is_over(&self) -> bool
        ensures { self.now.until_ms ≡ None → result ≡ false }
    {
        match self.until_ms {
            Some(until_ms) => now_ms() >= until_ms,
            None => false,
        }
    }

    /// Whether the pipe is to be left, behind a wait for it that was silent or gave a read.
    pub fn leaves(&mut self, is_silent: bool) -> bool
        ensures end { self.new.until_ms ≡ self.old.until_ms }
        ensures runs { self.old.until_ms ≡ None → result ≡ false }
    {
        if !self.is_over() {
            return false;
        }
        self.left = self.left.saturating_sub(1);
        is_silent || self.left == 0
    }
}
