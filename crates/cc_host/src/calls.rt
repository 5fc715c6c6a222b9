// The calls of a host, counted by kind, and those that are to fail.
ghost use Rattle.std.specs.Prelude.{◌≡◌};
ghost use Rattle.cc_host.specs.declared.event.HostCall.{HostCall};
ghost use Rattle.cc_host.specs.Calls.{same_call, no_calls, plus_one, counted, count_of, is_due};

use crate::{HostCall, Scope};

/// A call that is to fail: its kind, and its number among the calls of that kind, from 1.
#[derive(Clone, Copy, Debug)]
pub struct Failure {
    pub call: HostCall,
    pub nth: u64,
}

/// How many calls of each kind there were. A count that stands at its last value stays there.
#[derive(Clone, Copy, Debug)]
pub struct Counts {
    pub starts: u64,
    pub turns: u64,
    pub outputs: u64,
    pub probes: u64,
    pub build_dirs: u64,
    pub probe_dirs: u64,
    pub probe_files: u64,
    pub writes: u64,
    pub copies: u64,
    pub removals: u64,
    pub folders: u64,
    pub prints: u64,
    pub sayings: u64,
    pub listings: u64,
}

/// One more, up to the last value of a count.
pub fn plus_one(count: u64) -> u64
    ensures { result ≡ plus_one count }
{
    count.saturating_add(1)
}

impl Counts {
    /// No call of any kind.
    pub fn new() -> Counts
        ensures { result ≡ no_calls }
    {
        Counts {
            starts: 0,
            turns: 0,
            outputs: 0,
            probes: 0,
            build_dirs: 0,
            probe_dirs: 0,
            probe_files: 0,
            writes: 0,
            copies: 0,
            removals: 0,
            folders: 0,
            prints: 0,
            sayings: 0,
            listings: 0,
        }
    }

    /// How many calls of the kind there were.
    pub fn get(&self, call: HostCall) -> u64
        ensures { result ≡ count_of call self.now }
    {
        match call {
            HostCall::Start => self.starts,
            HostCall::Turn => self.turns,
            HostCall::Output => self.outputs,
            HostCall::Probe => self.probes,
            HostCall::MakeDir(Scope::Build) => self.build_dirs,
            HostCall::MakeDir(Scope::Probe) => self.probe_dirs,
            HostCall::CreateProbe => self.probe_files,
            HostCall::Write => self.writes,
            HostCall::Copy => self.copies,
            HostCall::Remove => self.removals,
            HostCall::CurrentDir => self.folders,
            HostCall::Print => self.prints,
            HostCall::Say => self.sayings,
            HostCall::Vars => self.listings,
        }
    }

    /// Counts a call of the kind.
    pub fn count(&mut self, call: HostCall)
        ensures { self.new ≡ counted call self.old }
    {
        match call {
            HostCall::Start => self.starts = plus_one(self.starts),
            HostCall::Turn => self.turns = plus_one(self.turns),
            HostCall::Output => self.outputs = plus_one(self.outputs),
            HostCall::Probe => self.probes = plus_one(self.probes),
            HostCall::MakeDir(Scope::Build) => self.build_dirs = plus_one(self.build_dirs),
            HostCall::MakeDir(Scope::Probe) => self.probe_dirs = plus_one(self.probe_dirs),
            HostCall::CreateProbe => self.probe_files = plus_one(self.probe_files),
            HostCall::Write => self.writes = plus_one(self.writes),
            HostCall::Copy => self.copies = plus_one(self.copies),
            HostCall::Remove => self.removals = plus_one(self.removals),
            HostCall::CurrentDir => self.folders = plus_one(self.folders),
            HostCall::Print => self.prints = plus_one(self.prints),
            HostCall::Say => self.sayings = plus_one(self.sayings),
            HostCall::Vars => self.listings = plus_one(self.listings),
        }
    }
}

fn is_same_call(a: HostCall, b: HostCall) -> bool
    ensures { result ≡ same_call a b }
{
    a == b
}

/// Whether a call of the kind is to fail, before which there were so many of its kind.
pub fn is_due(failures: &[Failure], call: HostCall, before: u64) -> bool
    ensures { result ≡ is_due call before failures.now }
{
    failures.iter().any(|f| is_same_call(f.call, call) && f.nth.checked_sub(1) == Some(before))
}
