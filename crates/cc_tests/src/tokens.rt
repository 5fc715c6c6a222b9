// Tokens that two seats share.
use crate::same::holds;
use crate::setup::{set_all, with_both};
use cc_build::{Build, ErrorKind};
use cc_host::{Bench, BenchHost, Role, Script, Status};
use cc_jobs::{Jobs, SharedPool};
use cc_text::{Mem, Text};
use std::alloc::{AllocGlobal, Global};
use std::process::Abort;
use std::sync::Wait;

// The first source ends only after the second was begun.
fn set_script(host: &mut BenchHost, alloc: Global) -> Mem<()> {
    let script = Script {
        status: Status::Code(0),
        pieces: Vec::new(alloc),
        unread: false,
        turns: 1,
        after: Some(Text::of(alloc, "src/b.c")?),
    };
    host.script(Role::Compile, "src/a.c", script)
}

pub(crate) fn add_sources(rt: &impl Abort, build: &mut Build<Bench>) {
    set_all(rt, build, "/o", "cc");
    build.file("src/a.c").expect(rt, "memory");
    build.file("src/b.c").expect(rt, "memory");
}

// How a run ends over a pool of two, of which another seat holds one.
fn ended(
    rt: &impl Wait,
    alloc: Global,
    build: &Build<Bench>,
    host: &mut BenchHost,
) -> Mem<Option<ErrorKind>> {
    let (pool, mut seat) = SharedPool::new(alloc, 2)?;
    let mut other = pool.split(&mut seat);
    let _ = pool.take(&mut other);
    match build.try_compile(rt, host, &pool, &mut seat, 50, "foo") {
        Ok(()) => Ok(None),
        Err(error) => Ok(Some(error.kind())),
    }
}

fn check_ended(
    rt: &(impl Wait + AllocGlobal + Abort),
    build: &mut Build<Bench>,
    host: &mut BenchHost,
) {
    add_sources(rt, build);
    set_script(host, rt.alloc()).expect(rt, "memory");
    let end = ended(rt, rt.alloc(), build, host).expect(rt, "memory");
    holds(
        rt,
        "its turns are spent",
        end == Some(ErrorKind::TurnsSpent),
    );
}

#[test]
fn a_run_starts_no_more_than_it_has_tokens_for(rt: HostRuntime) {
    for _ in 0..50 {
        with_both(&rt, |build, host| check_ended(&rt, build, host));
    }
}
