// A list of commands as a queue.
ghost use Rattle.std.specs.Prelude.{◌≡◌, ◌&&◌, false};

use crate::{Planned, Queue};
use cc_host::Status;

/// A list of commands, which are started in order. Where it stops, none is started after one ended with another status
/// than 0.
#[derive(Drop)]
pub struct Listed<'a> {
    cmds: &'a [Planned],
    stop: bool,
    begun: usize,
    failed: bool,
}

impl<'a> Listed<'a> {
    /// A list of which none was started. It takes no memory.
    pub fn new(cmds: &'a [Planned], stop: bool) -> Listed<'a>
        ensures cmds { result.cmds.now ≡ cmds.now }
        ensures stop { result.stop ≡ stop }
        ensures fresh { (result.begun ≡ 0) × (result.failed ≡ false) }
    {
        Listed::at(cmds, stop, 0, false)
    }

    // A list of which so many were started, and whether one of these failed.
    pub(crate) fn at(cmds: &'a [Planned], stop: bool, begun: usize, failed: bool) -> Listed<'a>
        ensures cmds { result.cmds.now ≡ cmds.now }
        ensures stop { result.stop ≡ stop }
        ensures begun { (result.begun ≡ begun) × (result.failed ≡ failed) }
    {
        Listed {
            cmds,
            stop,
            begun,
            failed,
        }
    }

    fn is_halted(&self) -> bool
        ensures { result ≡ (self.now.stop && self.now.failed) }
    {
        self.stop && self.failed
    }
}

impl Queue for Listed<'_> {
    ghost use Rattle.cc_run.specs.Listed.{listed_plan, StandsAt};

    ghost plan = { λ q. listed_plan q.stop q.cmds.now };

    ghost stands = { λ q marks. StandsAt q.begun q.failed marks };

    #[tactic(auto, using(crate::proofs::ListedLaws::next_some_listed, crate::proofs::ListedLaws::next_none_listed))]
    fn next(&self) -> Option<usize> {
        if self.is_halted() {
            return None;
        }
        if self.begun < self.cmds.len() {
            Some(self.begun)
        } else {
            None
        }
    }

    fn command(&self, place: usize) -> Option<&Planned> {
        self.cmds.get(place)
    }

    #[tactic(auto, using(crate::proofs::ListedLaws::begin_listed))]
    fn begin(&mut self, _place: usize) {
        if self.begun < self.cmds.len() {
            self.begun += 1;
        }
    }

    #[tactic(auto, using(crate::proofs::ListedLaws::end_listed))]
    fn end(&mut self, _place: usize, status: Status) {
        if !status.is_success() {
            self.failed = true;
        }
    }
}
