// Four callers of one pool, each with a seat, a build and a host of its own, on a thread of its own.
ghost use Rattle.std.specs.Prelude.{◌≡◌, All};
ghost use Rattle.cc_jobs.specs.SharedSeat.{view, IsSeatOf};

use crate::same::holds;
use crate::setup::set_all;
use cc_build::Build;
use cc_host::{Bench, BenchHost, Role, Script, Status};
use cc_jobs::{SharedPool, SharedSeat};
use cc_text::Mem;
use std::alloc::{AllocGlobal, Global};
use std::process::Abort;
use std::sync::Wait;
use std::sync::atomic::AtomicU64;
use std::sync::atomic::Ordering::SeqCst;
use std::thread;
use std::thread::Threads;

// Each child runs for three turns, so that a caller holds several tokens, and others find none free.
fn set_script(host: &mut BenchHost, alloc: Global) -> Mem<()> {
    let script = Script {
        status: Status::Code(0),
        pieces: Vec::new(alloc),
        unread: false,
        turns: 3,
        after: None,
    };
    host.script(Role::Compile, "cc", script)
}

fn add_sources(rt: &impl Abort, build: &mut Build<Bench>) {
    set_all(rt, build, "/o", "cc");
    for source in ["a.c", "b.c", "c.c", "d.c", "e.c", "f.c", "g.c", "h.c"] {
        build.file(source).expect(rt, "memory");
    }
}

// What the four callers share, beside the pool: how many came, and how many had their library.
#[derive(Drop)]
struct Counts {
    came: AtomicU64,
    built: AtomicU64,
}

impl Counts {
    // Counts one that came, and waits for the others, so that all four run beside each other. It gives up in the end.
    fn meet(&self) -> bool {
        self.came.fetch_add(1, SeqCst);
        for _ in 0..1_000_000u32 {
            if self.came.load(SeqCst) == 4 {
                return true;
            }
            thread::yield_now();
        }
        false
    }
}

fn prepare(rt: &(impl AllocGlobal + Abort), build: &mut Build<Bench>, host: &mut BenchHost) {
    add_sources(rt, build);
    set_script(host, rt.alloc()).expect(rt, "memory");
}

fn compile(
    rt: &impl Wait,
    pool: &SharedPool,
    seat: &mut SharedSeat,
    build: &Build<Bench>,
    host: &mut BenchHost,
) -> bool
    requires { IsSeatOf seat.old pool.now × ((view seat.old).held ≡ 0) }
    ensures { IsSeatOf seat.new pool.now × ((view seat.new).held ≡ 0) }
{
    build
        .try_compile(rt, host, pool, seat, u64::MAX, "foo")
        .is_ok()
}

// Whether one of the callers met the others and built its library.
fn is_built(
    rt: &(impl AllocGlobal + Wait + Abort),
    pool: &SharedPool,
    counts: &Counts,
    seat: &mut SharedSeat,
    build: &mut Build<Bench>,
    host: &mut BenchHost,
) -> bool
    requires { IsSeatOf seat.old pool.now × ((view seat.old).held ≡ 0) }
    ensures { IsSeatOf seat.new pool.now × ((view seat.new).held ≡ 0) }
{
    prepare(rt, build, host);
    counts.meet() && compile(rt, pool, seat, build, host)
}

// What one of the callers does, on its own thread.
fn call<R: AllocGlobal + Wait + Abort>(
    rt: &R,
    pool: &SharedPool,
    counts: &Counts,
    seat: &mut SharedSeat,
)
    requires { IsSeatOf seat.old pool.now × ((view seat.old).held ≡ 0) }
    ensures { IsSeatOf seat.new pool.now × ((view seat.new).held ≡ 0) }
{
    let mut build: Build<Bench> = Build::new(rt.alloc()).expect(rt, "a build");
    let mut host = BenchHost::new(rt.alloc()).expect(rt, "a host");
    let is_built = is_built(rt, pool, counts, seat, &mut build, &mut host);
    counts.built.fetch_add(u64::from(is_built), SeqCst);
}

// How many of the callers met the others and built their libraries.
fn call_all<R: AllocGlobal + Abort + Threads + Wait + Sync>(
    rt: &R,
    pool: &SharedPool,
    seats: &mut [SharedSeat],
) -> u64
    requires { All (λ s. IsSeatOf s pool.now × ((view s).held ≡ 0)) seats.old }
    ensures { All (λ s. IsSeatOf s pool.now × ((view s).held ≡ 0)) seats.new }
{
    let counts = Counts {
        came: AtomicU64::new(0),
        built: AtomicU64::new(0),
    };
    let shared = &counts;
    thread::for_each_mut(rt, seats, 4, &|_, seat| call(rt, pool, shared, seat));
    counts.built.load(SeqCst)
}

// How many of four callers built their libraries, and how many of three tokens are free after them.
fn run<R: AllocGlobal + Abort + Threads + Wait + Sync>(rt: &R) -> Mem<(u64, u64)> {
    let (pool, mut one) = SharedPool::new(rt.alloc(), 3)?;
    let two = pool.split(&mut one);
    let three = pool.split(&mut one);
    let four = pool.split(&mut one);
    let mut seats = [one, two, three, four];
    let built = call_all(rt, &pool, &mut seats);
    let [mut one, two, three, four] = seats;
    pool.join(&mut one, two);
    pool.join(&mut one, three);
    pool.join(&mut one, four);
    Ok((built, pool.close(one)))
}

#[test]
fn four_seats_on_threads_of_their_own_give_all_back(rt: HostRuntime) {
    for _ in 0..50 {
        let ended = run(&rt).expect(&rt, "memory");
        holds(
            &rt,
            "four build, and three tokens are free",
            ended == (4, 3),
        );
    }
}
