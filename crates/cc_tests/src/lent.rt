// Runs of two sources over a pool whose tokens a client lends.
use crate::same::{holds, same};
use crate::setup::with_both;
use crate::tokens::add_sources;
use cc_build::{Build, ErrorKind};
use cc_host::{Bench, BenchHost, Event, Host};
use cc_jobs::{Inherited, InheritedPool, JobClient, Jobs, MemoryClient};
use cc_text::{Mem, Text};
use std::alloc::{AllocGlobal, Global};
use std::process::Abort;
use std::sync::Wait;

fn last_word(words: &[Text]) -> &str {
    match words.last() {
        Some(word) => word.as_str(),
        None => "",
    }
}

fn push_step(text: &mut Text, event: &Event) -> Mem<()> {
    match event {
        Event::Started { cmd, .. } => {
            text.push_str("starts ")?;
            text.push_str(last_word(cmd.get_args().as_slice()))?;
            text.push('\n')
        }
        Event::Ended { .. } => text.push_str("ends\n"),
        Event::Abandoned { .. } => text.push_str("leaves alone\n"),
        _ => Ok(()),
    }
}

// The starts of a log by their commands' last words, and the ends.
fn steps(alloc: Global, host: &BenchHost) -> Mem<Text> {
    let mut text = Text::new(alloc);
    for event in host.log() {
        push_step(&mut text, event)?;
    }
    Ok(text)
}

fn turns_of(host: &BenchHost) -> u64 {
    let mut turns: u64 = 0;
    for event in host.log() {
        if let Event::Turn { count } = event {
            turns = turns.saturating_add(*count);
        }
    }
    turns
}

// How a run ends over a pool, and how many tokens its seat holds then.
fn lent<C: JobClient, R: Wait + Drop>(
    rt: &impl Wait,
    build: &Build<Bench>,
    host: &mut BenchHost,
    pool: &InheritedPool<C, R>,
) -> (Option<ErrorKind>, u64) {
    let mut seat = pool.seat();
    let kind = match build.try_compile(rt, host, pool, &mut seat, 50, "foo") {
        Ok(()) => None,
        Err(error) => Some(error.kind()),
    };
    (kind, pool.held(&seat))
}

fn check_lent<C: JobClient, R: Wait + Drop>(
    rt: &(impl Wait + AllocGlobal + Abort),
    build: &mut Build<Bench>,
    host: &mut BenchHost,
    pool: &InheritedPool<C, R>,
    end: Option<ErrorKind>,
    want: &str,
) {
    add_sources(rt, build);
    let ended = lent(rt, build, host, pool);
    holds(rt, "it ends so, and its seat is empty", ended == (end, 0));
    let steps = steps(rt.alloc(), host).expect(rt, "memory");
    same(rt, steps.as_str(), want);
}

const IN_TURN: &str = "starts src/a.c
ends
starts src/b.c
ends
starts /o/libfoo.a
ends
";

fn check_without_token<R: AllocGlobal + Wait + Abort + Drop + Copy>(rt: R) {
    let client = MemoryClient::new(rt.alloc(), 0);
    let pool = InheritedPool::new(rt, Inherited::new(client));
    with_both(&rt, |build, host| {
        check_lent(&rt, build, host, &pool, None, IN_TURN);
        holds(&rt, "three turns are made", turns_of(host) == 3);
    });
}

#[test]
fn without_a_token_of_the_client_sources_are_compiled_one_after_another(rt: HostRuntime) {
    for _ in 0..50 {
        check_without_token(rt);
    }
}

const LEFT_ALONE: &str = "starts src/a.c
leaves alone
";

fn check_left_alone<R: AllocGlobal + Wait + Abort + Drop + Copy>(rt: R) {
    let mut client = MemoryClient::new(rt.alloc(), 1);
    client.fail_acquire(1).expect(&rt, "memory");
    let pool = InheritedPool::new(rt, Inherited::new(client));
    with_both(&rt, |build, host| {
        check_lent(
            &rt,
            build,
            host,
            &pool,
            Some(ErrorKind::IOError),
            LEFT_ALONE,
        );
    });
}

#[test]
fn a_client_that_fails_ends_the_run_and_leaves_the_first_command_alone(rt: HostRuntime) {
    for _ in 0..50 {
        check_left_alone(rt);
    }
}
