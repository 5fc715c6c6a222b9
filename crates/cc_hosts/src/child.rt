// A child of this process, from its start to its end.
ghost use Rattle.std.specs.Prelude.{◌≡◌, IfOk};
ghost use Rattle.std.specs.Process.{exit_code};
ghost use Rattle.cc_host.specs.Event.{is_captured};
ghost use Rattle.cc_host.specs.declared.event.Pipes.{Pipes};
ghost use Rattle.cc_hosts.specs.Child.{status_of, kept, IsSilentEnd, IsLostEnd, IsWholeEnd};

use crate::command::{child_of, script_of};
use crate::found::Found;
use crate::kinds::is_folder;
use crate::learned::Learned;
use crate::look_up::{Place, look_up, path_in};
use crate::outputs::{Written, read_outputs};
use crate::reason::why_of;
use crate::sink::Sink;
use cc_host::{Command, OutputKind, Pipes, Status, Why};
use cc_text::{Bytes, Mem, NoMemory};
use std::alloc::Global;
use std::env::Env;
use std::fs;
use std::io::{self, ErrorKind, PipeReader, pipe};
use std::os::unix::process::CommandExt;
use std::process::{self, Child, ExitStatus, OpenProcess, Processes, Stdio};
use std::rt::Files;
use std::sync::Wait;

/// How a child ended, and what was kept of its outputs.
#[derive(Drop)]
pub struct Ended {
    pub status: Status,
    pub out: Bytes,
    pub err: Bytes,
}

impl Ended {
    /// A second one, equal to this.
    pub fn try_clone(&self) -> Mem<Ended>
        ensures { IfOk result (λ e. e ≡ self.now) }
    {
        Ok(Ended {
            status: self.status,
            out: self.out.try_clone()?,
            err: self.err.try_clone()?,
        })
    }
}

/// What became of a command.
#[derive(Drop)]
pub enum Outcome {
    /// Its program can't be found.
    Missing,
    /// It couldn't be run to its end.
    Failed(Why),
    /// It ended.
    Ended(Ended),
    /// It was waited for, and how it ended can't be learned. What it wrote is kept, and the status is without a code.
    Lost(Ended, Why),
    /// It ended, and another process holds its standard error on. What was heard up to then is kept, and behind it a line that says so.
    Unread(Ended),
}

// Whether the standard output of a child is kept.
fn is_captured(out: OutputKind) -> bool
    ensures { result ≡ is_captured out }
{
    match out {
        OutputKind::Capture => true,
        OutputKind::Forward => false,
        OutputKind::Discard => false,
    }
}

/// How a process ended, by its number, or without a code where a signal ended it.
pub fn status_of(status: ExitStatus) -> Status
    ensures { result ≡ status_of (exit_code status) }
{
    match status.code() {
        Some(code) => Status::Code(code),
        None => Status::NoCode,
    }
}

fn kept(alloc: Global, wanted: bool, bytes: &[u8]) -> Mem<Bytes>
    ensures { IfOk result (λ b. b ≡ kept wanted bytes.now) }
{
    if wanted {
        Bytes::of(alloc, bytes)
    } else {
        Bytes::of(alloc, &[])
    }
}

/// What became of a command that was to be started.
#[derive(Drop)]
pub enum Begun<P: OpenProcess + Drop> {
    /// Its program can't be found.
    Missing,
    /// It couldn't be started.
    Failed(Why),
    /// The machine lends no process: as many run as it allows, and one that ends makes room for another.
    Crowded,
    /// It runs.
    Child(Spawned<P>),
}

/// A child that runs, with this process's ends of the pipes of its outputs.
#[derive(Drop)]
pub struct Spawned<P: OpenProcess + Drop> {
    pub child: Child<P>,
    pub out: Option<PipeReader>,
    pub err: Option<PipeReader>,
}

// Why the folder of a command can't be entered, or none where it can, and where none is given.
fn folder_fault(files: &impl Files, dir: Option<&str>) -> Option<Why> {
    match is_folder(files, dir?) {
        Ok(true) => None,
        Ok(false) => Some(Why::Other),
        Err(error) => Some(why_of(error.kind())),
    }
}

// What became of a command of which something wasn't found: its folder, or else its program.
fn not_found<P: OpenProcess + Drop>(files: &impl Files, cmd: &Command) -> Begun<P> {
    match folder_fault(files, cmd.get_current_dir()) {
        Some(why) => Begun::Failed(why),
        None => Begun::Missing,
    }
}

// What is kept of the end of a child.
fn kept_end(alloc: Global, status: Status, written: &Written, pipes: Pipes) -> Mem<Ended>
    ensures status { IfOk result (λ e. e.status ≡ status) }
    ensures out { IfOk result
        (λ e. e.out ≡ kept (is_captured pipes.out) written.now.out.bytes.items) }
    ensures err { IfOk result (λ e. e.err ≡ kept pipes.hear written.now.err.bytes.items) }
{
    Ok(Ended {
        status,
        out: kept(alloc, is_captured(pipes.out), &written.out.bytes)?,
        err: kept(alloc, pipes.hear, &written.err.bytes)?,
    })
}

// What is kept of the end of a child that ended with this status.
fn kept_exit(alloc: Global, status: ExitStatus, written: &Written, pipes: Pipes) -> Mem<Ended>
    ensures status { IfOk result (λ e. e.status ≡ status_of (exit_code status)) }
    ensures out { IfOk result
        (λ e. e.out ≡ kept (is_captured pipes.out) written.now.out.bytes.items) }
    ensures err { IfOk result (λ e. e.err ≡ kept pipes.hear written.now.err.bytes.items) }
{
    let end = kept_end(alloc, status_of(status), written, pipes)?;
    Ok(end)
}

// What is told of a standard error that another process holds on, as a run tells it of a child.
const UNREAD: &[u8] = b"Failed to read from child stderr\n";

// Adds a line of its own that says that a standard error is held on.
fn push_unread(heard: &mut Vec<u8>) -> Mem<()> {
    if heard.last().is_some_and(|b| *b != b'\n') {
        heard.push(b'\n')?;
    }
    heard.extend_from_slice(UNREAD)?;
    Ok(())
}

// What became of a command that ended so, with what it wrote. A standard output that another process holds on isn't whole.
fn outcome_of(
    alloc: Global,
    ended: io::Result<ExitStatus>,
    mut written: Written,
    pipes: Pipes,
) -> Mem<Outcome>
    ensures silent { IfOk result (IsSilentEnd pipes) }
    ensures lost { IfOk result IsLostEnd }
    ensures whole { IfOk result (IsWholeEnd written.out.is_held written.err.is_held) }
{
    if written.out.is_held {
        return Ok(Outcome::Failed(Why::Other));
    }
    if written.err.is_held {
        push_unread(&mut written.err.bytes)?;
    }
    match ended {
        Ok(status) => {
            let end = kept_exit(alloc, status, &written, pipes)?;
            if written.err.is_held {
                return Ok(Outcome::Unread(end));
            }
            Ok(Outcome::Ended(end))
        }
        Err(error) => {
            let end = kept_end(alloc, Status::NoCode, &written, pipes)?;
            Ok(Outcome::Lost(end, why_of(error.kind())))
        }
    }
}

// Waits for the end of a child that was started. Refused for memory, the child did run, and what it wrote is lost. One whose outputs
// can't be read is ended.
fn finish<R: Wait, P: OpenProcess + Drop>(
    rt: &R,
    alloc: Global,
    spawned: Spawned<P>,
    pipes: Pipes,
    sink: Option<&Sink>,
) -> Mem<Outcome>
    ensures silent { IfOk result (IsSilentEnd pipes) }
    ensures lost { IfOk result IsLostEnd }
{
    let Spawned {
        mut child,
        out,
        err,
    } = spawned;
    match read_outputs(rt, alloc, &mut child, (out, err), sink) {
        Ok(written) => outcome_of(alloc, child.wait(), written, pipes),
        Err(error) => {
            let _ = child.kill();
            let _ = child.wait();
            match error.kind() {
                ErrorKind::OutOfMemory => Err(NoMemory),
                kind => Ok(Outcome::Failed(why_of(kind))),
            }
        }
    }
}

/// The pipes of a child that runs on: of its outputs only the standard error can be kept.
pub fn heard_only(pipes: Pipes) -> Pipes {
    match pipes.out {
        OutputKind::Forward => pipes,
        OutputKind::Capture | OutputKind::Discard => Pipes {
            out: OutputKind::Discard,
            hear: pipes.hear,
        },
    }
}

/// The standard streams that this process was started without. A child gets the null device in their place.
#[derive(Clone, Copy, Debug)]
pub struct Closed {
    pub input: bool,
    pub output: bool,
}

/// What a child gets as its streams.
#[derive(Clone, Copy, Debug)]
pub struct Streams {
    pub pipes: Pipes,
    pub closed: Closed,
}

impl Streams {
    // Whether a standard output goes nowhere.
    fn drops_output(self) -> bool {
        match self.pipes.out {
            OutputKind::Forward => self.closed.output,
            OutputKind::Discard => true,
            OutputKind::Capture => false,
        }
    }

    // Whether an output goes nowhere.
    fn drops(self) -> bool {
        !self.pipes.hear || self.drops_output()
    }
}

// The pipe of an output that is read, with the child's end of it.
fn read_end(files: &impl Files) -> io::Result<(Option<PipeReader>, Stdio)> {
    let (ours, theirs) = pipe(files)?;
    Ok((Some(ours), Stdio::from(theirs)))
}

// An output to nobody.
fn no_end(sink: Option<&Sink>) -> io::Result<(Option<PipeReader>, Stdio)> {
    match sink {
        Some(sink) => Ok((None, sink.output()?)),
        None => Ok((None, Stdio::null())),
    }
}

// The pipe of the standard output where it is read, with what a child gets as it.
fn output_end(
    files: &impl Files,
    streams: Streams,
    sink: Option<&Sink>,
) -> io::Result<(Option<PipeReader>, Stdio)> {
    if streams.drops_output() {
        return no_end(sink);
    }
    match streams.pipes.out {
        OutputKind::Forward => Ok((None, Stdio::inherit())),
        OutputKind::Discard | OutputKind::Capture => read_end(files),
    }
}

// Starts a child. Its standard error goes nowhere where it isn't heard.
fn start<R: Processes + Files>(
    rt: &R,
    mut child: process::Command,
    streams: Streams,
    sink: Option<&Sink>,
) -> io::Result<Spawned<R::Started>> {
    if streams.closed.input {
        child.stdin(match sink {
            Some(sink) => sink.input()?,
            None => Stdio::null(),
        });
    }
    let (out, theirs) = output_end(rt, streams, sink)?;
    child.stdout(theirs);
    let (err, theirs) = if streams.pipes.hear {
        read_end(rt)?
    } else {
        no_end(sink)?
    };
    child.stderr(theirs);
    let child = child.spawn(rt)?;
    Ok(Spawned { child, out, err })
}

// Starts a child whose program is at this path, under the name that was asked for.
fn start_at<R: Processes + Files + AllocGlobal>(
    rt: &R,
    path: &str,
    cmd: &Command,
    streams: Streams,
    sink: Option<&Sink>,
) -> Mem<io::Result<Spawned<R::Started>>> {
    let mut child = child_of(rt.alloc(), path, cmd)?;
    child.arg0(cmd.get_program())?;
    Ok(start(rt, child, streams, sink))
}

// The number of the system's error for a file that is no program.
const ENOEXEC: i32 = 8;

// Starts a child whose program was found at this path. A file that is no program of the system's is read by the shell, as `execvp` has it.
fn start_found<R: Processes + Files + AllocGlobal>(
    rt: &R,
    path: &str,
    cmd: &Command,
    streams: Streams,
    sink: Option<&Sink>,
) -> Mem<io::Result<Spawned<R::Started>>> {
    match start_at(rt, path, cmd, streams, sink)? {
        Err(error) if error.raw_os_error() == Some(ENOEXEC) => {
            Ok(start(rt, script_of(rt.alloc(), path, cmd)?, streams, sink))
        }
        started => Ok(started),
    }
}

// What became of a command whose start gave this.
fn begun_by<P: OpenProcess + Drop>(
    files: &impl Files,
    cmd: &Command,
    started: io::Result<Spawned<P>>,
) -> Mem<Begun<P>> {
    match started {
        Ok(child) => Ok(Begun::Child(child)),
        Err(error) => match error.kind() {
            ErrorKind::NotFound => Ok(not_found(files, cmd)),
            ErrorKind::OutOfMemory => Err(NoMemory),
            ErrorKind::WouldBlock => Ok(Begun::Crowded),
            kind => Ok(Begun::Failed(why_of(kind))),
        },
    }
}

// Whether no program can be at a path, as far as that can be told from here: to a child with a folder of its own a relative path is another.
fn is_absent(files: &impl Files, path: &str, cmd: &Command) -> bool {
    if !path.starts_with('/') && cmd.get_current_dir().is_some() {
        return false;
    }
    match fs::metadata(files, path) {
        Ok(_) => false,
        Err(error) => error.kind() != ErrorKind::PermissionDenied,
    }
}

// Whether a search goes on behind a path where a start failed so: nothing is there, or it can't be a path, or it mayn't be run.
fn is_passed_over(kind: ErrorKind) -> bool {
    matches!(
        kind,
        ErrorKind::NotFound
            | ErrorKind::NotADirectory
            | ErrorKind::InvalidFilename
            | ErrorKind::PermissionDenied
    )
}

// Starts the first program of a command's name in these folders that can be started, as `execvp` does: what mayn't be run is the error only
// where nothing else is found. Where each folder up to it is absolute, it is remembered where that was.
fn search<R: Processes + Files + AllocGlobal>(
    rt: &R,
    folders: &str,
    absolute: bool,
    cmd: &Command,
    streams: Streams,
    learned: &mut Learned,
) -> Mem<Begun<R::Started>> {
    let mut is_denied = false;
    let mut are_absolute = true;
    for folder in folders.split(':') {
        let is_absolute = folder.starts_with('/');
        are_absolute = are_absolute && is_absolute;
        if absolute && !is_absolute {
            continue;
        }
        let path = path_in(rt.alloc(), folder, cmd.get_program())?;
        if is_absent(rt, path.as_str(), cmd) {
            continue;
        }
        let here = Found::of(rt.alloc(), cmd.get_program(), folders, absolute, &path)?;
        match start_found(rt, path.as_str(), cmd, streams, learned.sink.as_ref())? {
            Err(error) if is_passed_over(error.kind()) => {
                is_denied = is_denied || error.kind() == ErrorKind::PermissionDenied;
            }
            started => {
                learned.found = if are_absolute { Some(here) } else { None };
                return begun_by(rt, cmd, started);
            }
        }
    }
    if is_denied {
        return Ok(Begun::Failed(Why::Denied));
    }
    Ok(not_found(rt, cmd))
}

// Starts a command's program in these folders, first where it was found last.
fn start_in<R: Processes + Files + AllocGlobal>(
    rt: &R,
    folders: &str,
    absolute: bool,
    cmd: &Command,
    streams: Streams,
    learned: &mut Learned,
) -> Mem<Begun<R::Started>> {
    if let Some(here) = &learned.found
        && let Some(path) = here.path_for(cmd.get_program(), folders, absolute)
    {
        match start_found(rt, path, cmd, streams, learned.sink.as_ref())? {
            Err(error) if is_passed_over(error.kind()) => {}
            started => return begun_by(rt, cmd, started),
        }
    }
    search(rt, folders, absolute, cmd, streams, learned)
}

fn begin_once<R: Processes + Files + Env + AllocGlobal>(
    rt: &R,
    cmd: &Command,
    streams: Streams,
    learned: &mut Learned,
) -> Mem<Begun<R::Started>> {
    match look_up(rt, cmd)? {
        Place::Named => {
            let sink = learned.sink.as_ref();
            let started = start_at(rt, cmd.get_program(), cmd, streams, sink)?;
            begun_by(rt, cmd, started)
        }
        Place::Own(folders) => start_in(rt, folders.as_str(), false, cmd, streams, learned),
        Place::Absolute(folders) => start_in(rt, folders.as_str(), true, cmd, streams, learned),
    }
}

/// Starts a command. Its standard error goes nowhere where it isn't heard. Want of memory means that nothing was started. A program that is
/// searched is looked for first where it was found last. Where the null device can't be opened, a pipe is in its place that is to be read and dropped.
pub fn begin<R: Processes + Files + Env + AllocGlobal>(
    rt: &R,
    cmd: &Command,
    streams: Streams,
    learned: &mut Learned,
) -> Mem<Begun<R::Started>> {
    match begin_once(rt, cmd, streams, learned)? {
        Begun::Child(spawned) => Ok(Begun::Child(spawned)),
        Begun::Crowded => Ok(Begun::Crowded),
        begun => {
            if (streams.drops() || streams.closed.input) && learned.misses_null(rt) {
                begin_once(rt, cmd, streams, learned)
            } else {
                Ok(begun)
            }
        }
    }
}

/// Runs a command to its end. Its standard error goes nowhere where it isn't heard. Refused for memory, nothing was started, or the
/// command ran and its end is lost. An output that another process holds is heard on behind the command's end for a while.
pub fn run<R: Processes + Files + Env + Wait + AllocGlobal>(
    rt: &R,
    cmd: &Command,
    streams: Streams,
    learned: &mut Learned,
) -> Mem<Outcome>
    ensures silent { IfOk result (IsSilentEnd streams.pipes) }
    ensures lost { IfOk result IsLostEnd }
{
    match begin(rt, cmd, streams, learned)? {
        Begun::Missing => Ok(Outcome::Missing),
        Begun::Failed(why) => Ok(Outcome::Failed(why)),
        Begun::Crowded => Ok(Outcome::Failed(Why::Other)),
        Begun::Child(spawned) => {
            let sink = if streams.drops() {
                learned.sink.as_ref()
            } else {
                None
            };
            finish(rt, rt.alloc(), spawned, streams.pipes, sink)
        }
    }
}
