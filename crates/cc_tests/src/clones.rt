// Two clones of a build that ask what their compiler is at the same time, each on a thread and a host of its own.
ghost use Rattle.std.specs.Prelude.{Some};
ghost use Rattle.cc_host.specs.Bench.{has_file};
ghost use Rattle.cc_host.specs.Script.{patience_of};

use crate::same::holds;
use crate::setup::set_all;
use cc_build::Build;
use cc_host::{
    Command, Created, Event, Host, HostCall, HostError, LineKind, Message, News, Outcome, Pipes,
    ProbeFiles, Question, Ran, Removal, Role, Scope, Start, Verdict,
};
use cc_hosts::{Fixed, FixedHost};
use cc_text::{Mem, Text, ToolFamily, Vars};
use cc_tool::Tool;
use std::alloc::AllocGlobal;
use std::process::Abort;
use std::sync::Wait;
use std::sync::atomic::Ordering::SeqCst;
use std::sync::atomic::{AtomicBool, AtomicU64};
use std::thread;
use std::thread::Threads;

const LOOKS: u64 = 1_000_000_000;

// A host that waits at its first question for that of the other host. Where it never comes, the question is a fault.
#[derive(Drop)]
struct MeetingHost<'a> {
    inner: FixedHost,
    mine: &'a AtomicBool,
    other: &'a AtomicBool,
    has_met: bool,
}

// Raises a flag, and tells whether the other one is raised too.
fn meets(mine: &AtomicBool, other: &AtomicBool) -> bool {
    mine.store(true, SeqCst);
    for _ in 0..LOOKS {
        if other.load(SeqCst) {
            return true;
        }
    }
    false
}

impl Host<Fixed> for MeetingHost<'_> {
    ghost log = { λ h. h.inner.log };

    ghost faults = { λ h. h.inner.faults };

    ghost patience = { λ h. patience_of h.inner.scripts };

    ghost listens = { λ h. h.inner.listens };

    ghost stands = { λ h. Some (λ path. has_file path h.inner) };

    fn start(
        &mut self,
        role: Role,
        cmd: &Command,
        pipes: Pipes,
        held: u64,
    ) -> Result<Start, HostError> {
        self.inner.start(role, cmd, pipes, held)
    }

    fn turn(&mut self, rest_ms: u64) -> Result<Vec<News>, HostError> {
        self.inner.turn(rest_ms)
    }

    fn abandon(&mut self, id: u64) {
        self.inner.abandon(id);
    }

    fn probe(&mut self, q: &Question, files: &ProbeFiles) -> Mem<Outcome> {
        if !self.has_met {
            self.has_met = true;
            if !meets(self.mine, self.other) {
                self.inner.fail(HostCall::Probe, 1)?;
            }
        }
        self.inner.probe(q, files)
    }

    fn reused(&mut self, q: &Question, verdict: &Verdict) -> Mem<()> {
        self.inner.reused(q, verdict)
    }

    fn unasked(&mut self, q: &Question) -> Mem<()> {
        self.inner.unasked(q)
    }

    fn exists(&mut self, path: &str) -> Mem<bool> {
        self.inner.exists(path)
    }

    fn create_probe(&mut self, path: &str, contents: &[u8]) -> Result<Created, HostError> {
        self.inner.create_probe(path, contents)
    }

    fn drop_probe(&mut self, path: &str) {
        self.inner.drop_probe(path);
    }

    fn random(&mut self) -> Mem<u64> {
        self.inner.random()
    }

    fn output(&mut self, role: Role, cmd: &Command, pipes: Pipes) -> Result<Ran, HostError> {
        self.inner.output(role, cmd, pipes)
    }

    fn make_dir(&mut self, scope: Scope, path: &str) -> Result<(), HostError> {
        self.inner.make_dir(scope, path)
    }

    fn write_file(&mut self, path: &str, contents: &[u8]) -> Result<(), HostError> {
        self.inner.write_file(path, contents)
    }

    fn copy_file(&mut self, from: &str, to: &str) -> Result<(), HostError> {
        self.inner.copy_file(from, to)
    }

    fn remove_file(&mut self, path: &str) -> Result<Removal, HostError> {
        self.inner.remove_file(path)
    }

    fn current_dir(&mut self) -> Result<Text, HostError> {
        self.inner.current_dir()
    }

    fn print(&mut self, kind: LineKind, bytes: &[u8]) -> Result<(), HostError> {
        self.inner.print(kind, bytes)
    }

    fn say(&mut self, message: &Message) -> Result<(), HostError> {
        self.inner.say(message)
    }

    fn vars(&mut self) -> Result<Vars, HostError> {
        self.inner.vars()
    }

    fn listens(&self) -> bool {
        self.inner.listens()
    }

    fn log(&self) -> &[Event] {
        self.inner.log()
    }
}

// Whether it is the compiler that a build with nothing in its caches has here.
fn is_plain(tool: &Tool) -> bool {
    tool.path() == "cc" && matches!(tool.family(), ToolFamily::Gnu)
}

// Whether nothing was printed.
fn is_silent(host: &MeetingHost<'_>) -> bool {
    !host
        .log()
        .iter()
        .any(|event| matches!(event, Event::Printed { .. }))
}

// Whether a clone has the compiler, without a warning.
fn is_well(rt: &(impl Wait + Abort), build: &Build<Fixed>, host: &mut MeetingHost<'_>) -> bool {
    let tool = build.try_get_compiler(rt, host).expect(rt, "a compiler");
    is_plain(&tool) && is_silent(host)
}

// What one of the clones is asked, on its own thread.
fn ask<R: AllocGlobal + Wait + Abort>(
    rt: &R,
    flags: &[AtomicBool; 2],
    place: usize,
    build: &Build<Fixed>,
    well: &AtomicU64,
) {
    let [first, second] = flags;
    let (mine, other) = if place == 0 {
        (first, second)
    } else {
        (second, first)
    };
    let mut host = MeetingHost {
        inner: FixedHost::new(rt.alloc()).expect(rt, "a host"),
        mine,
        other,
        has_met: false,
    };
    let is_well = is_well(rt, build, &mut host);
    well.fetch_add(u64::from(is_well), SeqCst);
}

// How many of two clones have the compiler.
fn ask_both<R: AllocGlobal + Abort + Threads + Wait + Sync>(
    rt: &R,
    clones: &mut [Build<Fixed>],
) -> u64 {
    let flags = [AtomicBool::new(false), AtomicBool::new(false)];
    let well = AtomicU64::new(0);
    let (shared, counted) = (&flags, &well);
    thread::for_each_mut(
        rt,
        clones,
        2,
        &|place, build| {
            ask(rt, shared, place, build, counted);
        },
    );
    well.load(SeqCst)
}

#[test]
fn two_clones_on_threads_of_their_own_ask_at_the_same_time(rt: HostRuntime) {
    let mut build = Build::new(rt.alloc()).expect(&rt, "a build");
    set_all(&rt, &mut build, "/o", "cc");
    let clone = build.try_clone().expect(&rt, "a clone");
    let mut clones = [build, clone];
    let well = ask_both(&rt, &mut clones);
    holds(&rt, "both have the compiler of an empty cache", well == 2);
}
