// The children of the host over the machine, as its turns tell of them.
use crate::calls::{KEPT, leave_alone, start};
use crate::on_machine::{Check, on_machine};
use crate::processes::{check_with, shell, with_word};
use crate::same::{holds, same};
use cc_host::{Command, Host, HostError, Role, Start, Status, World};
use cc_hosts::Real;
use cc_text::{Mem, NoMemory};
use std::alloc::{AllocGlobal, Global};
use std::fs;
use std::process::Abort;
use std::rt::Files;

fn start_line(rt: &(impl AllocGlobal + Abort), host: &mut impl Host<Real>, line: &str) {
    let cmd = shell(rt.alloc(), line).expect(rt, "a command");
    start(host, &cmd).expect(rt, "a child");
}

fn leave_line(
    rt: &(impl AllocGlobal + Abort),
    host: &mut impl Host<Real>,
    line: &str,
) -> Option<u64> {
    let cmd = shell(rt.alloc(), line).expect(rt, "a command");
    leave_alone(host, &cmd).expect(rt, "a child")
}

// What was heard of the children so far: what they wrote, and whether one's standard error failed to be read.
#[derive(Drop)]
struct Heard {
    bytes: Vec<u8>,
    unread: bool,
}

// What the children did in a turn is added to what was heard of them so far. How one ended, where one did.
fn hear(host: &mut impl Host<Real>, heard: &mut Heard) -> Result<Option<Status>, HostError> {
    let mut ended = None;
    for news in &host.turn(10)? {
        if let Some(piece) = &news.piece {
            heard
                .bytes
                .extend_from_slice(piece.as_slice())
                .map_err(NoMemory::from)?;
        }
        heard.unread = heard.unread || news.unread;
        ended = ended.or(news.ended);
    }
    Ok(ended)
}

const TURNS: u32 = 2000;

// How a child ended, once one did. A turn is made again where memory was refused for it.
fn end_of(host: &mut impl Host<Real>, heard: &mut Heard) -> Result<Option<Status>, HostError> {
    for _ in 0..TURNS {
        match hear(host, heard) {
            Ok(None) | Err(HostError::NoMemory) => {}
            ended => return ended,
        }
    }
    Ok(None)
}

fn end_text(alloc: Global, ended: Option<Status>, heard: &Heard) -> Mem<String> {
    let unread = if heard.unread { "unread " } else { "" };
    let bytes = str::from_utf8(&heard.bytes).unwrap_or("?");
    Ok(format!(in alloc; "{ended:?} {unread}{bytes}")?)
}

// How a child ends, and what it wrote.
fn check_end(rt: &(impl AllocGlobal + Abort), host: &mut impl Host<Real>, want: &str) {
    let mut heard = Heard {
        bytes: Vec::new(rt.alloc()),
        unread: false,
    };
    let ended = end_of(host, &mut heard).expect(rt, "news");
    let text = end_text(rt.alloc(), ended, &heard).expect(rt, "memory");
    same(rt, text.as_str(), want);
}

// A command that leaves a process behind which holds its standard error, and ends before that.
const LEAVES: &str = "(sleep 5; echo late >&2) & exec 2>&-; exit 4";

pub(crate) fn check_turns(rt: &(impl AllocGlobal + Abort), host: &mut impl Host<Real>) {
    start_line(rt, host, "echo A >&2; exit 3");
    let left = leave_line(rt, host, "sleep 60");
    holds(rt, "it is the second child", left == Some(1));
    check_end(rt, host, "Some(Code(3)) A\n");
    start_line(rt, host, LEAVES);
    check_end(rt, host, "Some(Code(4)) unread ");
}

#[test]
fn a_turn_tells_what_a_child_wrote_and_how_it_ended(rt: HostRuntime) {
    on_machine(rt, rt.process(), "", Check::Turns);
}

fn check_line_end(
    rt: &(impl AllocGlobal + Abort),
    host: &mut impl Host<Real>,
    line: &str,
    want: &str,
) {
    start_line(rt, host, line);
    check_end(rt, host, want);
}

// A command that leaves a process behind which writes a line behind its end, and one that leaves a process behind which holds its standard error for long.
const LATE: &str = "(sleep 0.2; echo late >&2) & echo A >&2; exit 3";

const HOLDS: &str = "sleep 5 & echo A >&2; exit 4";

pub(crate) fn check_behind(rt: &(impl AllocGlobal + Abort), host: &mut impl Host<Real>) {
    check_line_end(rt, host, LATE, "Some(Code(3)) A\nlate\n");
    check_line_end(rt, host, HOLDS, "Some(Code(4)) unread A\n");
}

#[test]
fn a_child_ends_behind_what_it_left_behind(rt: HostRuntime) {
    on_machine(rt, rt.process(), "", Check::Behind);
}

// The same by a child that was silent for more than a second, which a thread watches.
const LATE_GROWN: &str = "sleep 1.5; (sleep 0.2; echo late >&2) & echo A >&2; exit 3";

const HOLDS_GROWN: &str = "sleep 1.5; sleep 5 & echo A >&2; exit 4";

pub(crate) fn check_grown(rt: &(impl AllocGlobal + Abort), host: &mut impl Host<Real>) {
    check_line_end(rt, host, LATE_GROWN, "Some(Code(3)) A\nlate\n");
    check_line_end(rt, host, HOLDS_GROWN, "Some(Code(4)) unread A\n");
}

#[test]
fn a_child_that_was_silent_for_long_ends_behind_what_it_left_behind(rt: HostRuntime) {
    on_machine(rt, rt.process(), "", Check::Grown);
}

// The folder of the process that writes its number into a pipe, where it stands.
fn folder_of(rt: &(impl Files + AllocGlobal), pipe: &str) -> Mem<Option<String>> {
    let Ok(number) = fs::read_to_string(rt, pipe) else {
        return Ok(None);
    };
    let folder = format!(in rt.alloc(); "/proc/{}", number.trim_end())?;
    match fs::exists(rt, folder.as_str()) {
        Ok(true) => Ok(Some(folder)),
        _ => Ok(None),
    }
}

// Starts a child that writes its number into a pipe, and leaves it alone behind that. The folder of its process, where it stood before.
fn leave_known<W: World, H: Host<W>>(
    rt: &(impl Files + AllocGlobal),
    host: &mut H,
    cmd: &Command,
    pipe: &str,
) -> Result<Option<String>, HostError> {
    match host.start(Role::Compile, cmd, KEPT, 1) {
        Ok(Start::Child(id)) => {
            let folder = folder_of(rt, pipe);
            host.abandon(id);
            Ok(folder?)
        }
        Ok(Start::Missing) => Ok(None),
        Err(error) => Err(error),
    }
}

// A command that writes the number of its process into a pipe, and goes on.
const NUMBERED: &str = "echo $$ >\"$0\"; exec sleep 100";

fn is_gone(rt: &(impl Files + AllocGlobal + Abort), folder: &str) -> bool {
    !fs::exists(rt, folder).expect(rt, "whether it stands")
}

// A child that ended and wasn't waited for has its folder still.
pub(crate) fn check_stopped(
    rt: &(impl Files + AllocGlobal + Abort),
    host: &mut impl Host<Real>,
    pipe: &str,
) {
    check_with(rt, host, "mkfifo \"$0\"", pipe, "Code(0) |");
    let cmd = with_word(rt.alloc(), NUMBERED, pipe).expect(rt, "a command");
    match leave_known(rt, host, &cmd, pipe).expect(rt, "a child") {
        Some(folder) => holds(rt, "it was reaped", is_gone(rt, folder.as_str())),
        None => holds(rt, "it ran", false),
    }
    fs::remove_file(rt, pipe).expect(rt, "it is removed");
}

#[test]
fn a_child_that_is_left_alone_is_ended_and_reaped(rt: HostRuntime) {
    on_machine(rt, rt.process(), "pipe", Check::Stopped);
}
