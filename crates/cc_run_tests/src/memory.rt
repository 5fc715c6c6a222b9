// The host in memory, as a caller sees it that makes its calls one by one.
use crate::calls::{
    KEPT, check_output, check_verdict, create, leave_alone, make_twice, remove, stands, turn,
};
use crate::same::{check_log, holds};
use cc_host::{
    Ask, BenchHost, Command, Host, HostCall, HostError, Outcome, OutputKind, Pipes, Role, Script,
    Status,
};
use cc_text::{Bytes, Mem, Vars};
use std::alloc::{AllocGlobal, Global};
use std::process::Abort;

// Has a check made on a host in memory. It is made and dropped here alone, since a value of many parts takes long to prove wherever it is dropped.
fn with_host<F: FnOnce(&mut BenchHost)>(rt: &(impl AllocGlobal + Abort), check: F)
    requires { F.IsAlwaysCallable check }
{
    let mut host = BenchHost::new(rt.alloc()).expect(rt, "a host");
    check(&mut host);
}

fn left_alone(rt: &(impl AllocGlobal + Abort), host: &mut BenchHost, program: &str) {
    let cmd = Command::new(rt.alloc(), program).expect(rt, "memory");
    leave_alone(host, &cmd).expect(rt, "memory");
}

fn check_left_alone(rt: &(impl AllocGlobal + Abort), host: &mut BenchHost) {
    host.missing("none").expect(rt, "memory");
    left_alone(rt, host, "none");
    left_alone(rt, host, "cc");
    turn(host).expect(rt, "news");
    check_log(rt, host, "misses none\nstarts cc\nleaves alone\nturns\n");
}

#[test]
fn a_child_that_is_left_alone_tells_nothing_more(rt: HostRuntime) {
    with_host(&rt, |host| check_left_alone(&rt, host));
}

fn pieces(alloc: Global) -> Mem<Vec<Bytes>> {
    let mut pieces = Vec::new(alloc);
    for text in ["source", "a warning", "!"] {
        pieces.push(Bytes::of(alloc, text.as_bytes())?)?;
    }
    Ok(pieces)
}

// Scripts the commands that are run to their end and have the word.
fn script(host: &mut BenchHost, word: &str, code: i32, pieces: Vec<Bytes>) -> Mem<()> {
    host.script(
        Role::Expand,
        word,
        Script {
            status: Status::Code(code),
            pieces,
            unread: false,
            turns: 1,
            after: None,
        },
    )
}

const DISCARDED: Pipes = Pipes {
    out: OutputKind::Discard,
    hear: true,
};

const UNHEARD: Pipes = Pipes {
    out: OutputKind::Capture,
    hear: false,
};

fn check_outputs(rt: &(impl AllocGlobal + Abort), host: &mut BenchHost, cmd: &Command) {
    check_output(rt, host, cmd, KEPT, "Code(0) source|a warning!");
    check_output(rt, host, cmd, DISCARDED, "Code(0) |sourcea warning!");
    check_output(rt, host, cmd, UNHEARD, "Code(0) source|");
}

fn check_pieces(rt: &(impl AllocGlobal + Abort), host: &mut BenchHost) {
    let pieces = pieces(rt.alloc()).expect(rt, "memory");
    script(host, "cc", 0, pieces).expect(rt, "memory");
    let cmd = Command::new(rt.alloc(), "cc").expect(rt, "a command");
    check_outputs(rt, host, &cmd);
}

#[test]
fn captured_output_is_the_first_piece(rt: HostRuntime) {
    with_host(&rt, |host| check_pieces(&rt, host));
}

fn answer_twice(host: &mut BenchHost) -> Mem<()> {
    host.answer(Ask::Starts, "nvcc", Outcome::Exists(true))?;
    host.answer(Ask::Starts, "nvcc", Outcome::Missing)?;
    host.fail(HostCall::Probe, 3)
}

const GCC: &str =
    "Marks(Marks { slash_u: false, clang: false, gcc: true, emscripten: false, vxworks: false })";

fn check_verdicts(rt: &(impl AllocGlobal + Abort), host: &mut BenchHost) {
    answer_twice(host).expect(rt, "memory");
    check_verdict(rt, host, Ask::Starts, "nvcc", "Missing");
    check_verdict(rt, host, Ask::Preprocess, "nvcc", GCC);
    check_verdict(rt, host, Ask::Preprocess, "nvcc", "Unanswered");
    check_log(rt, host, "asks start\nasks macros\nfaults\nasks macros\n");
}

#[test]
fn questions_come_to_the_last_outcome_that_was_given(rt: HostRuntime) {
    with_host(&rt, |host| check_verdicts(&rt, host));
}

fn find_file(host: &mut BenchHost, path: &str) -> Result<(), HostError> {
    host.file(path)?;
    stands(host, path)?;
    create(host, path, b"")?;
    Ok(())
}

fn lose_file(host: &mut BenchHost, path: &str) -> Result<(), HostError> {
    remove(host, path)?;
    remove(host, path)?;
    make_twice(host, path)?;
    stands(host, path)?;
    Ok(())
}

const USED: &str = "sees /w/a.c
finds /w/a.c
removes /w/a.c
removes nothing at /w/a.c
opens /w/a.c
finds /w/a.c
drops
doesn't see /w/a.c
";

fn check_used(rt: &(impl AllocGlobal + Abort), host: &mut BenchHost) {
    find_file(host, "/w/a.c").expect(rt, "a file");
    lose_file(host, "/w/a.c").expect(rt, "a file");
    check_log(rt, host, USED);
}

#[test]
fn files_stand_until_they_are_removed_or_dropped(rt: HostRuntime) {
    with_host(&rt, |host| check_used(&rt, host));
}

fn is_drawn(host: &mut BenchHost, word: u64) -> bool {
    host.random().ok() == Some(word)
}

fn check_drawn(rt: &(impl AllocGlobal + Abort), host: &mut BenchHost) {
    host.set_random(vec![in rt.alloc(); 7, u64::MAX].expect(rt, "memory"));
    for word in [7, u64::MAX, 0, 0] {
        holds(rt, "the word is drawn", is_drawn(host, word));
    }
}

#[test]
fn words_are_drawn_in_order_and_then_zeros(rt: HostRuntime) {
    with_host(&rt, |host| check_drawn(&rt, host));
}

fn script_two(host: &mut BenchHost, alloc: Global) -> Mem<()> {
    script(host, "a.c", 1, Vec::new(alloc))?;
    script(host, "cc", 2, Vec::new(alloc))
}

fn check_scripts(rt: &(impl AllocGlobal + Abort), host: &mut BenchHost) {
    let mut cmd = Command::new(rt.alloc(), "cc").expect(rt, "a command");
    cmd.arg("a.c").expect(rt, "memory");
    script_two(host, rt.alloc()).expect(rt, "memory");
    check_output(rt, host, &cmd, KEPT, "Code(2) |");
}

#[test]
fn commands_end_as_the_last_script_that_fits_says(rt: HostRuntime) {
    with_host(&rt, |host| check_scripts(&rt, host));
}

// How many variables a host lists, where it lists them.
fn count_of_vars(host: &mut BenchHost) -> Option<usize> {
    match host.vars() {
        Ok(vars) => Some(vars.len()),
        Err(_) => None,
    }
}

fn set_one(rt: &(impl AllocGlobal + Abort), host: &mut BenchHost) {
    let mut vars = Vars::new(rt.alloc());
    vars.push("CC", "clang").expect(rt, "memory");
    host.set_vars(vars);
    host.fail(HostCall::Vars, 3).expect(rt, "memory");
}

fn check_listings(rt: &(impl AllocGlobal + Abort), host: &mut BenchHost) {
    holds(rt, "there is none", count_of_vars(host) == Some(0));
    set_one(rt, host);
    holds(rt, "there is one", count_of_vars(host) == Some(1));
    holds(rt, "the listing faults", count_of_vars(host) == None);
    check_log(rt, host, "lists\nlists\nfaults\n");
}

#[test]
fn variables_that_are_set_are_listed(rt: HostRuntime) {
    with_host(&rt, |host| check_listings(&rt, host));
}
