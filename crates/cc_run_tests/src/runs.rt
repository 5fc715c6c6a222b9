// What a run does between the calls of its pool and its host: each ended child's token is given back before another child is started, and that of a child that
// is left alone behind it; and the rest before a turn grows by a millisecond while nothing happens, up to ten.

ghost use Rattle.std.specs.Prelude.{◌<◌};

use crate::same::holds;
use crate::watch::{Watch, WatchedHost, WatchedPool};
use cc_host::{BenchHost, Command, OutputKind, Role, Script, Status};
use cc_jobs::OneCaller;
use cc_run::{Planned, RunError, Shows, Turns, run_all};
use cc_text::Mem;
use std::alloc::{AllocGlobal, Global};
use std::process::Abort;

fn planned(alloc: Global, program: &str) -> Mem<Planned> {
    Ok(Planned {
        role: Role::Compile,
        cmd: Command::new(alloc, program)?,
        message: None,
    })
}

// A host on which the first of these commands runs through most turns, and each further one through fewer.
fn script(bench: &mut BenchHost, alloc: Global, program: &str, turns: u64) -> Mem<()> {
    bench.script(
        Role::Compile,
        program,
        Script {
            status: Status::Code(0),
            pieces: Vec::new(alloc),
            unread: false,
            turns,
            after: None,
        },
    )
}

const QUIET: Shows = Shows {
    warnings: false,
    debug: false,
    out: OutputKind::Discard,
    listens: false,
    stop: false,
};

// The run of these commands over a pool of two, with at most so many turns.
fn run(
    alloc: Global,
    host: &mut WatchedHost<'_>,
    watch: &Watch,
    cmds: &[Planned],
    left: u64,
) -> Result<(), RunError>
    requires { left < 100 }
{
    let pool = WatchedPool { watch };
    let (_, mut seat) = OneCaller::new(2);
    let mut turns = Turns { left, used: 0 };
    run_all(alloc, host, &pool, &mut seat, &mut turns, cmds, &QUIET)
}

fn run_five(
    rt: &(impl AllocGlobal + Abort),
    host: &mut WatchedHost<'_>,
    watch: &Watch,
    left: u64,
) -> Result<(), RunError>
    requires { left < 100 }
{
    let alloc = rt.alloc();
    let cmds = [
        planned(alloc, "a").expect(rt, "memory"),
        planned(alloc, "b").expect(rt, "memory"),
        planned(alloc, "c").expect(rt, "memory"),
        planned(alloc, "d").expect(rt, "memory"),
        planned(alloc, "e").expect(rt, "memory"),
    ];
    run(alloc, host, watch, &cmds, left)
}

fn script_five(bench: &mut BenchHost, alloc: Global) -> Mem<()> {
    script(bench, alloc, "a", 4)?;
    script(bench, alloc, "b", 1)?;
    script(bench, alloc, "c", 2)?;
    script(bench, alloc, "d", 1)?;
    script(bench, alloc, "e", 14)
}

fn check_tokens(rt: &(impl AllocGlobal + Abort), host: &mut WatchedHost<'_>, watch: &Watch) {
    script_five(&mut host.bench, rt.alloc()).expect(rt, "memory");
    holds(rt, "all end well", run_five(rt, host, watch, 99).is_ok());
    assert_eq!(rt; watch.odd(), (0, 0, 0));
    assert_eq!(rt; watch.early(), 0);
    assert_eq!(rt; watch.longest(), 10);
}

// The turns are spent while two children run.
fn check_left_alone(rt: &(impl AllocGlobal + Abort), host: &mut WatchedHost<'_>, watch: &Watch) {
    script_five(&mut host.bench, rt.alloc()).expect(rt, "memory");
    assert_eq!(rt; run_five(rt, host, watch, 2), Err(RunError::TurnsSpent));
    assert_eq!(rt; watch.odd(), (0, 0, 0));
    assert_eq!(rt; watch.early(), 0);
}

#[test]
fn tokens_come_back_before_the_next_start_and_rests_grow_to_ten(rt: HostRuntime) {
    let watch = Watch::new();
    let bench = BenchHost::new(rt.alloc()).expect(&rt, "a host");
    let mut host = WatchedHost {
        bench,
        watch: &watch,
    };
    check_tokens(&rt, &mut host, &watch);
}

#[test]
fn tokens_of_children_that_are_left_alone_come_back_behind_them(rt: HostRuntime) {
    let watch = Watch::new();
    let bench = BenchHost::new(rt.alloc()).expect(&rt, "a host");
    let mut host = WatchedHost {
        bench,
        watch: &watch,
    };
    check_left_alone(&rt, &mut host, &watch);
}
