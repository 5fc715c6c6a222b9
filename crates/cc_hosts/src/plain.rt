// A host in memory on which nothing is set.
ghost use Rattle.std.specs.Prelude.{◌≡◌, Some, IfOk};
ghost use Rattle.cc_host.specs.Bench.{BenchSeen, fresh, has_file, IsPlain};
ghost use Rattle.cc_hosts.specs.Plain.{IsPlainLog, IsPlainHost};

use cc_host::{
    Bench, BenchHost, Command, Created, Event, Host, HostError, LineKind, Message, News, Outcome,
    Pipes, ProbeFiles, Question, Ran, Removal, Role, Scope, Start, Verdict,
};
use cc_text::{Mem, Text, Vars};
use std::alloc::Global;
use std::marker::Model;

/// A host in memory on which nothing is set. So none of its calls faults, no program is missing, and each command ends with 0 at its
/// first turn. All else is as in `BenchHost`.
#[derive(Drop)]
pub struct PlainHost {
    bench: BenchHost,
}

impl Model for PlainHost {
    ghost Value = { BenchSeen };

    ghost view = { λ h. h.bench };

    ghost invariant = { λ h. IsPlainHost h.bench };
}

impl PlainHost {
    /// A host before its first call. It takes no memory.
    pub fn new(alloc: Global) -> Mem<PlainHost>
        ensures { IfOk result (λ h. h ≡ fresh) }
    {
        Ok(PlainHost {
            bench: BenchHost::new(alloc)?,
        })
    }

    /// The host with its log, as one on which something may be set.
    pub fn into_bench(self) -> BenchHost
        ensures same { result ≡ self }
        ensures plain { IsPlain result }
        ensures log { IsPlainLog result.log }
    {
        self.bench
    }
}

impl Host<Bench> for PlainHost {
    ghost log = { λ h. h.log };

    ghost faults = { λ h. h.faults };

    ghost patience = { λ h. Some 1 };

    ghost listens = { λ h. h.listens };

    ghost stands = { λ h. Some (λ path. has_file path h) };

    fn start(
        &mut self,
        role: Role,
        cmd: &Command,
        pipes: Pipes,
        held: u64,
    ) -> Result<Start, HostError> {
        self.bench.start(role, cmd, pipes, held)
    }

    fn turn(&mut self, rest_ms: u64) -> Result<Vec<News>, HostError> {
        self.bench.turn(rest_ms)
    }

    fn abandon(&mut self, id: u64) {
        self.bench.abandon(id);
    }

    fn probe(&mut self, q: &Question, files: &ProbeFiles) -> Mem<Outcome> {
        self.bench.probe(q, files)
    }

    fn reused(&mut self, q: &Question, verdict: &Verdict) -> Mem<()> {
        self.bench.reused(q, verdict)
    }

    fn unasked(&mut self, q: &Question) -> Mem<()> {
        self.bench.unasked(q)
    }

    fn exists(&mut self, path: &str) -> Mem<bool> {
        self.bench.exists(path)
    }

    fn create_probe(&mut self, path: &str, contents: &[u8]) -> Result<Created, HostError> {
        self.bench.create_probe(path, contents)
    }

    fn drop_probe(&mut self, path: &str) {
        self.bench.drop_probe(path);
    }

    fn random(&mut self) -> Mem<u64> {
        self.bench.random()
    }

    fn output(&mut self, role: Role, cmd: &Command, pipes: Pipes) -> Result<Ran, HostError> {
        self.bench.output(role, cmd, pipes)
    }

    fn make_dir(&mut self, scope: Scope, path: &str) -> Result<(), HostError> {
        self.bench.make_dir(scope, path)
    }

    fn write_file(&mut self, path: &str, contents: &[u8]) -> Result<(), HostError> {
        self.bench.write_file(path, contents)
    }

    fn copy_file(&mut self, from: &str, to: &str) -> Result<(), HostError> {
        self.bench.copy_file(from, to)
    }

    fn remove_file(&mut self, path: &str) -> Result<Removal, HostError> {
        self.bench.remove_file(path)
    }

    fn current_dir(&mut self) -> Result<Text, HostError> {
        self.bench.current_dir()
    }

    fn print(&mut self, kind: LineKind, bytes: &[u8]) -> Result<(), HostError> {
        self.bench.print(kind, bytes)
    }

    fn say(&mut self, message: &Message) -> Result<(), HostError> {
        self.bench.say(message)
    }

    fn vars(&mut self) -> Result<Vars, HostError> {
        self.bench.vars()
    }

    fn listens(&self) -> bool {
        self.bench.listens()
    }

    fn log(&self) -> &[Event] {
        self.bench.log()
    }
}
