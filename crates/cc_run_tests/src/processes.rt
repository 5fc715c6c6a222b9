// The host over the machine, on programs that each machine has.
ghost use Rattle.std.specs.Prelude.{◌≡◌, IfOk};
ghost use Rattle.cc_host.specs.declared.event.Role.TheVariants.{Compile};

use crate::calls::{KEPT, check_output, check_verdict, output};
use crate::on_machine::{Check, on_machine};
use crate::same::{check_log, holds, same};
use cc_host::{Ask, Command, Event, Host, HostCall, HostError, OutputKind, Pipes, Role, Why};
use cc_hosts::Real;
use cc_jobs::OneCaller;
use cc_run::{Planned, Shows, Turns, run_all};
use cc_text::{Mem, Vars};
use std::alloc::{AllocGlobal, Global};
use std::env::Env;
use std::process::Abort;
use std::rt::Files;
use std::{env, fs};

fn add_line(cmd: &mut Command, line: &str) -> Mem<()> {
    cmd.arg("-c")?;
    cmd.arg(line)
}

pub(crate) fn shell(alloc: Global, line: &str) -> Mem<Command> {
    let mut cmd = Command::new(alloc, "sh")?;
    add_line(&mut cmd, line)?;
    Ok(cmd)
}

fn command(rt: &(impl AllocGlobal + Abort), program: &str) -> Command {
    Command::new(rt.alloc(), program).expect(rt, "a command")
}

fn check_line(rt: &(impl AllocGlobal + Abort), host: &mut impl Host<Real>, line: &str, want: &str) {
    let cmd = shell(rt.alloc(), line).expect(rt, "a command");
    check_output(rt, host, &cmd, KEPT, want);
}

pub(crate) fn with_word(alloc: Global, line: &str, word: &str) -> Mem<Command> {
    let mut cmd = shell(alloc, line)?;
    cmd.arg(word)?;
    Ok(cmd)
}

// What a line comes to that has a word as `$0`.
pub(crate) fn check_with(
    rt: &(impl AllocGlobal + Abort),
    host: &mut impl Host<Real>,
    line: &str,
    word: &str,
    want: &str,
) {
    let cmd = with_word(rt.alloc(), line, word).expect(rt, "a command");
    check_output(rt, host, &cmd, KEPT, want);
}

pub(crate) fn check_lines(rt: &(impl AllocGlobal + Abort), host: &mut impl Host<Real>) {
    check_line(rt, host, "exit 3", "Code(3) |");
    check_line(rt, host, "echo A; echo B >&2", "Code(0) A\n|B\n");
    check_line(rt, host, "kill -9 $$", "NoCode |");
}

#[test]
fn commands_end_as_their_programs_do(rt: HostRuntime) {
    on_machine(rt, rt.process(), "", Check::Lines);
}

// A command that leaves a process behind which writes behind its end, and those of which it holds one output for long.
const LATE: &str = "(sleep 0.2; echo late; echo B >&2) & echo A; exit 3";

const HOLDS_ERROR: &str = "sleep 5 >/dev/null & echo A; printf B >&2";

const HOLDS_OUTPUT: &str = "sleep 5 2>/dev/null & echo A";

fn is_refused(rt: &(impl AllocGlobal + Abort), host: &mut impl Host<Real>, line: &str) -> bool {
    let cmd = shell(rt.alloc(), line).expect(rt, "a command");
    let refused = HostError::Fault(HostCall::Output, Why::Other);
    output(host, &cmd, KEPT).err() == Some(refused)
}

pub(crate) fn check_late(rt: &(impl AllocGlobal + Abort), host: &mut impl Host<Real>) {
    let told = "Code(0) A\n|B\nFailed to read from child stderr\n";
    check_line(rt, host, LATE, "Code(3) A\nlate\n|B\n");
    check_line(rt, host, HOLDS_ERROR, told);
    holds(
        rt,
        "its output isn't whole",
        is_refused(rt, host, HOLDS_OUTPUT),
    );
}

#[test]
fn what_a_command_left_behind_is_heard_for_two_seconds(rt: HostRuntime) {
    on_machine(rt, rt.process(), "", Check::Late);
}

// Makes a program that leaves a process behind which holds its standard error, and one that leaves none.
const TWO_TOOLS: &str =
    "mkdir \"$0\" && cd \"$0\" && printf '#!/bin/sh\\n' >says && chmod +x says && \
printf '#!/bin/sh\\nsleep 5 >/dev/null &\\n' >holds && chmod +x holds";

fn tool_in(alloc: Global, above: &str, name: &str) -> Mem<String> {
    Ok(format!(in alloc; "{above}/{name}")?)
}

fn check_tool(
    rt: &(impl AllocGlobal + Abort),
    host: &mut impl Host<Real>,
    above: &str,
    name: &str,
    want: &str,
) {
    let tool = tool_in(rt.alloc(), above, name).expect(rt, "memory");
    check_verdict(rt, host, Ask::ToolVersion, tool.as_str(), want);
}

pub(crate) fn check_unread(
    rt: &(impl Files + AllocGlobal + Abort),
    host: &mut impl Host<Real>,
    above: &str,
) {
    check_with(rt, host, TWO_TOOLS, above, "Code(0) |");
    check_tool(rt, host, above, "says", "Yes");
    check_tool(rt, host, above, "holds", "Unanswered");
    fs::remove_dir_all(rt, above).expect(rt, "it is removed");
}

#[test]
fn a_question_whose_standard_error_is_held_is_unanswered(rt: HostRuntime) {
    on_machine(rt, rt.process(), "tools", Check::Unread);
}

pub(crate) fn check_variables(rt: &(impl AllocGlobal + Abort), host: &mut impl Host<Real>) {
    let mut cmd = command(rt, "env");
    cmd.env("A", "1").expect(rt, "memory");
    cmd.env("A", "é").expect(rt, "memory");
    check_output(rt, host, &cmd, KEPT, "Code(0) A=é\n|");
    cmd.env("PATH", "/no such folder").expect(rt, "memory");
    check_output(rt, host, &cmd, KEPT, "missing");
}

#[test]
fn a_child_has_exactly_its_variables(rt: HostRuntime) {
    on_machine(rt, rt.process(), "", Check::Variables);
}

pub(crate) fn check_folder(rt: &(impl AllocGlobal + Abort), host: &mut impl Host<Real>) {
    let mut cmd = command(rt, "pwd");
    cmd.current_dir("/").expect(rt, "memory");
    check_output(rt, host, &cmd, KEPT, "Code(0) /\n|");
}

#[test]
fn a_command_runs_in_its_folder(rt: HostRuntime) {
    on_machine(rt, rt.process(), "", Check::Folder);
}

// Makes two folders: in each is a program of one name, and in the second one of another.
const TWO_FOLDERS: &str = "mkdir \"$0\" && cd \"$0\" && mkdir a b && echo echo a >a/tool && \
echo echo b >b/tool && echo echo other >b/other && chmod +x a/tool b/*";

fn search_path(alloc: Global, above: &str, folder: &str) -> Mem<String> {
    Ok(format!(in alloc; "{above}/{folder}:/bin:/usr/bin")?)
}

// What a program writes that is looked for on this PATH.
fn check_said(
    rt: &(impl AllocGlobal + Abort),
    host: &mut impl Host<Real>,
    name: &str,
    folders: &str,
    want: &str,
) {
    let mut cmd = command(rt, name);
    cmd.env("PATH", folders).expect(rt, "memory");
    check_output(rt, host, &cmd, KEPT, want);
}

fn check_found(rt: &(impl AllocGlobal + Abort), host: &mut impl Host<Real>, a: &str, b: &str) {
    check_said(rt, host, "tool", a, "Code(0) a\n|");
    check_said(rt, host, "tool", b, "Code(0) b\n|");
    check_said(rt, host, "other", b, "Code(0) other\n|");
    check_said(rt, host, "tool", a, "Code(0) a\n|");
}

pub(crate) fn check_searched(
    rt: &(impl Files + AllocGlobal + Abort),
    host: &mut impl Host<Real>,
    above: &str,
) {
    check_with(rt, host, TWO_FOLDERS, above, "Code(0) |");
    let a = search_path(rt.alloc(), above, "a").expect(rt, "memory");
    let b = search_path(rt.alloc(), above, "b").expect(rt, "memory");
    check_found(rt, host, a.as_str(), b.as_str());
    fs::remove_dir_all(rt, above).expect(rt, "they are removed");
}

#[test]
fn a_program_is_looked_for_on_each_path(rt: HostRuntime) {
    on_machine(rt, rt.process(), "search", Check::Searched);
}

fn has_no_folder(host: &mut impl Host<Real>, cmd: &Command) -> bool {
    let refused = HostError::Fault(HostCall::Output, Why::NotFound);
    output(host, cmd, KEPT).err() == Some(refused)
}

// A program that isn't there, in a folder that is and in one that isn't.
pub(crate) fn check_missing(rt: &(impl AllocGlobal + Abort), host: &mut impl Host<Real>) {
    let mut cmd = command(rt, "no such program é");
    check_output(rt, host, &cmd, KEPT, "missing");
    cmd.current_dir("/no such folder").expect(rt, "memory");
    holds(rt, "the folder isn't found", has_no_folder(host, &cmd));
    check_log(rt, host, "misses no such program é\nfaults\n");
}

#[test]
fn a_missing_folder_is_no_missing_program(rt: HostRuntime) {
    on_machine(rt, rt.process(), "", Check::Missing);
}

fn is_set(rt: &(impl Env + AllocGlobal + Abort), name: &str, value: &str) -> bool {
    let found = env::var(rt, name).expect(rt, "its value");
    found.as_str() == value
}

fn check_set(rt: &(impl Env + AllocGlobal + Abort), vars: &Vars) {
    for pair in vars.as_slice() {
        holds(
            rt,
            "it is set",
            is_set(rt, pair.0.as_str(), pair.1.as_str()),
        );
    }
}

pub(crate) fn check_listed(rt: &(impl Env + AllocGlobal + Abort), host: &mut impl Host<Real>) {
    let vars = host.vars().expect(rt, "variables");
    check_set(rt, &vars);
    check_log(rt, host, "lists\n");
}

#[test]
fn variables_of_the_process_are_listed(rt: HostRuntime) {
    on_machine(rt, rt.process(), "", Check::Listed);
}

pub(crate) fn check_versions(rt: &(impl AllocGlobal + Abort), host: &mut impl Host<Real>) {
    check_verdict(rt, host, Ask::ToolVersion, "gcc", "Yes");
    check_verdict(rt, host, Ask::ToolVersion, "no such compiler é", "Missing");
    check_log(rt, host, "asks tool version\nasks tool version\n");
}

#[test]
fn a_probe_is_answered_and_noted(rt: HostRuntime) {
    on_machine(rt, rt.process(), "", Check::Versions);
}

const UNHEARD: Pipes = Pipes {
    out: OutputKind::Capture,
    hear: false,
};

pub(crate) fn check_unheard(rt: &(impl AllocGlobal + Abort), host: &mut impl Host<Real>) {
    let cmd = shell(rt.alloc(), "readlink /proc/self/fd/2").expect(rt, "a command");
    check_output(rt, host, &cmd, UNHEARD, "Code(0) /dev/null\n|");
}

#[test]
fn standard_error_that_is_not_heard_goes_nowhere(rt: HostRuntime) {
    on_machine(rt, rt.process(), "", Check::Unheard);
}

// A command that waits for a file, and one that writes more lines than a pipe and a host hold, and then makes it. The stand-in does the same with
// 100,000 lines in `tests/real_use`, fifty times in a row: a test may print no more than a megabyte.
const WAITS: &str =
    "n=0; until test -e \"$0\"; do n=$((n+1)); test $n -lt 500 || exit 9; sleep 0.02; done";

const WRITES: &str = "yes 0123456789012345678 | head -n 10000 >&2; : >\"$0\"";

fn planned(alloc: Global, line: &str, file: &str) -> Mem<Planned>
    ensures { IfOk result (λ p. p.role ≡ Compile) }
{
    let cmd = with_word(alloc, line, file)?;
    Ok(Planned {
        role: Role::Compile,
        cmd,
        message: None,
    })
}

const HEARD: Shows = Shows {
    warnings: true,
    debug: false,
    out: OutputKind::Discard,
    listens: false,
    stop: false,
};

// Whether both commands end well over a pool of two.
fn is_run(rt: &(impl AllocGlobal + Abort), host: &mut impl Host<Real>, file: &str) -> bool {
    let alloc = rt.alloc();
    let cmds = [
        planned(alloc, WAITS, file).expect(rt, "memory"),
        planned(alloc, WRITES, file).expect(rt, "memory"),
    ];
    let (jobs, mut seat) = OneCaller::new(2);
    let mut turns = Turns {
        left: 100_000,
        used: 0,
    };
    run_all(alloc, host, &jobs, &mut seat, &mut turns, &cmds, &HEARD).is_ok()
}

// How many lines were printed that say what that one writes.
fn count_of(host: &impl Host<Real>) -> usize {
    let mut count: usize = 0;
    for event in host.log() {
        if let Event::Printed { bytes, .. } = event {
            if bytes.as_slice() == b"cargo:warning=0123456789012345678\n".as_slice() {
                count = count.saturating_add(1);
            }
        }
    }
    count
}

pub(crate) fn check_beside(
    rt: &(impl Files + AllocGlobal + Abort),
    host: &mut impl Host<Real>,
    file: &str,
) {
    holds(rt, "both end well", is_run(rt, host, file));
    holds(rt, "each line was printed", count_of(host) == 10_000);
    fs::remove_file(rt, file).expect(rt, "it is removed");
}

#[test]
fn a_child_that_writes_much_is_heard_while_an_older_one_waits_for_it(rt: HostRuntime) {
    on_machine(rt, rt.process(), "beside", Check::Beside);
}
