// A host in memory and a pool that share counts, so that a test sees what a run does between two calls of either.
ghost use Rattle.std.specs.Prelude.{Some};
ghost use Rattle.cc_host.specs.Bench.{has_file};
ghost use Rattle.cc_host.specs.Script.{patience_of};

use cc_host::{
    Bench, BenchHost, Command, Created, Event, Host, HostError, LineKind, Message, News, Outcome,
    Pipes, ProbeFiles, Question, Ran, Removal, Role, Scope, Start, Verdict,
};
use cc_jobs::{JobFault, Jobs, OneCaller, OneSeat, Take};
use cc_text::{Mem, Text, Vars};
use std::cell::Cell;

/// What is seen of a run: the tokens that are out, the children that run, the starts under another number of tokens than one for each child, the tokens that
/// came back before their child ended or was left alone; and the rest that the next turn is to have, whether a child was started since the last turn, the turns after another rest, and the longest rest.
#[derive(Drop)]
pub(crate) struct Watch {
    out: Cell<u64>,
    running: Cell<u64>,
    odd_starts: Cell<u64>,
    early: Cell<u64>,
    rest: Cell<u64>,
    started: Cell<bool>,
    odd_rests: Cell<u64>,
    longest: Cell<u64>,
}

impl Watch {
    pub(crate) fn new() -> Watch {
        Watch {
            out: Cell::new(0),
            running: Cell::new(0),
            odd_starts: Cell::new(0),
            early: Cell::new(0),
            rest: Cell::new(0),
            started: Cell::new(false),
            odd_rests: Cell::new(0),
            longest: Cell::new(0),
        }
    }

    /// The tokens that are out, the odd starts and the odd rests.
    pub(crate) fn odd(&self) -> (u64, u64, u64) {
        (self.out.get(), self.odd_starts.get(), self.odd_rests.get())
    }

    /// The tokens that came back before their child ended or was left alone.
    pub(crate) fn early(&self) -> u64 {
        self.early.get()
    }

    /// The longest rest, in milliseconds.
    pub(crate) fn longest(&self) -> u64 {
        self.longest.get()
    }

    fn start(&self) {
        add(&self.running);
        if self.out.get() != self.running.get() {
            add(&self.odd_starts);
        }
        self.started.set(true);
    }

    // A token comes back: as many are left as children run, or more.
    fn back(&self) {
        take_off(&self.out);
        if self.out.get() < self.running.get() {
            add(&self.early);
        }
    }

    // A turn after this rest. Where nothing was started since the last one and nothing ends in it, the next rest is a millisecond longer, up to ten.
    fn turn(&self, rest_ms: u64, ended: u64) {
        if rest_ms != self.rest.get() {
            add(&self.odd_rests);
        }
        self.longest.set(self.longest.get().max(rest_ms));
        let moved = self.started.replace(false) || ended > 0;
        let next = if moved {
            0
        } else {
            rest_ms.saturating_add(1).min(10)
        };
        self.rest.set(next);
        self.running.set(self.running.get().saturating_sub(ended));
    }
}

fn add(count: &Cell<u64>) {
    count.set(count.get().saturating_add(1));
}

fn take_off(count: &Cell<u64>) {
    count.set(count.get().saturating_sub(1));
}

fn ends_in(news: &[News]) -> u64 {
    let mut ends: u64 = 0;
    for item in news {
        if item.ended.is_some() {
            ends = ends.saturating_add(1);
        }
    }
    ends
}

/// A pool of one caller that counts the tokens that are out.
#[derive(Drop)]
pub(crate) struct WatchedPool<'a> {
    pub(crate) watch: &'a Watch,
}

impl Jobs for WatchedPool<'_> {
    type Seat = OneSeat;

    ghost fits = { λ _ _. Unit {0} };

    ghost held = { λ s. s.held };

    ghost faults = { λ _. 0 };

    ghost total = { λ s. Some s.total };

    ghost taken = { λ s. s.taken };

    ghost load = { λ s. s.load };

    ghost given = { λ s. s.given };

    ghost misses = { λ s. s.misses };

    fn take(&self, seat: &mut OneSeat) -> Result<Take, JobFault> {
        let taken = OneCaller.take(seat);
        if taken == Ok(Take::Token) {
            add(&self.watch.out);
        }
        taken
    }

    fn give(&self, seat: &mut OneSeat) {
        self.watch.back();
        OneCaller.give(seat);
    }

    fn held(&self, seat: &OneSeat) -> u64 {
        OneCaller.held(seat)
    }
}

/// A host in memory that counts the children that run.
#[derive(Drop)]
pub(crate) struct WatchedHost<'a> {
    pub(crate) bench: BenchHost,
    pub(crate) watch: &'a Watch,
}

impl Host<Bench> for WatchedHost<'_> {
    ghost log = { λ h. h.bench.log };

    ghost faults = { λ h. h.bench.faults };

    ghost patience = { λ h. patience_of h.bench.scripts };

    ghost listens = { λ h. h.bench.listens };

    ghost stands = { λ h. Some (λ path. has_file path h.bench) };

    fn start(
        &mut self,
        role: Role,
        cmd: &Command,
        pipes: Pipes,
        held: u64,
    ) -> Result<Start, HostError> {
        let start = self.bench.start(role, cmd, pipes, held);
        if matches!(start, Ok(Start::Child(_))) {
            self.watch.start();
        }
        start
    }

    fn turn(&mut self, rest_ms: u64) -> Result<Vec<News>, HostError> {
        let news = self.bench.turn(rest_ms)?;
        self.watch.turn(rest_ms, ends_in(&news));
        Ok(news)
    }

    fn abandon(&mut self, id: u64) {
        self.bench.abandon(id);
        take_off(&self.watch.running);
    }

    fn probe(&mut self, q: &Question, files: &ProbeFiles) -> Mem<Outcome> {
        self.bench.probe(q, files)
    }

    fn reused(&mut self, q: &Question, verdict: &Verdict) -> Mem<()> {
        self.bench.reused(q, verdict)
    }

    fn unasked(&mut self, q: &Question) -> Mem<()> {
        self.bench.unasked(q)
    }

    fn exists(&mut self, path: &str) -> Mem<bool> {
        self.bench.exists(path)
    }

    fn create_probe(&mut self, path: &str, contents: &[u8]) -> Result<Created, HostError> {
        self.bench.create_probe(path, contents)
    }

    fn drop_probe(&mut self, path: &str) {
        self.bench.drop_probe(path);
    }

    fn random(&mut self) -> Mem<u64> {
        self.bench.random()
    }

    fn output(&mut self, role: Role, cmd: &Command, pipes: Pipes) -> Result<Ran, HostError> {
        self.bench.output(role, cmd, pipes)
    }

    fn make_dir(&mut self, scope: Scope, path: &str) -> Result<(), HostError> {
        self.bench.make_dir(scope, path)
    }

    fn write_file(&mut self, path: &str, contents: &[u8]) -> Result<(), HostError> {
        self.bench.write_file(path, contents)
    }

    fn copy_file(&mut self, from: &str, to: &str) -> Result<(), HostError> {
        self.bench.copy_file(from, to)
    }

    fn remove_file(&mut self, path: &str) -> Result<Removal, HostError> {
        self.bench.remove_file(path)
    }

    fn current_dir(&mut self) -> Result<Text, HostError> {
        self.bench.current_dir()
    }

    fn print(&mut self, kind: LineKind, bytes: &[u8]) -> Result<(), HostError> {
        self.bench.print(kind, bytes)
    }

    fn say(&mut self, message: &Message) -> Result<(), HostError> {
        self.bench.say(message)
    }

    fn vars(&mut self) -> Result<Vars, HostError> {
        self.bench.vars()
    }

    fn listens(&self) -> bool {
        self.bench.listens()
    }

    fn log(&self) -> &[Event] {
        self.bench.log()
    }
}
