// The processes that run as children of this one. A child is young until it was silent for so long: up to then each turn watches it by itself, and one
// `poll(2)` waits for all young ones and for the bell of the threads, since the way to a thread and back is an eighth to a fifth of what the program takes
// of its own for a short command. Then it gets a thread of its own.
ghost use Rattle.std.specs.Prelude.{◌≡◌, ◌++◌, IfOk, OnErr};
ghost use Rattle.cc_host.specs.ChildLog.{AreTold, IsPieceBy};
ghost use Rattle.cc_host.specs.Children.{IsNews};
ghost use Rattle.cc_host.specs.Event.{turned};

use crate::bell::Bell;
use crate::child::{self, Begun, Spawned, Streams};
use crate::heard::Taken;
use crate::learned::Learned;
use crate::sink::{Sink, drain, pipe_of};
use crate::waiting::{is_left_out, is_told, nap, wait_for};
use crate::watched::Watched;
use crate::watchers::Watchers;
use cc_host::{ChildLog, Command, News, RunningChild, Status};
use cc_text::{Mem, NoMemory};
use libc::types::pollfd;
use std::alloc::Global;
use std::env::Env;
use std::process::Processes;
use std::rt::Files;
use std::sync::{Arc, Wait, WaitMethods};
use std::thread::Threads;

/// A process that runs, as its child is watched.
pub struct Process<R: Processes + Wait + Copy> {
    rt: R,
    id: u64,
    watched: Arc<Watched<R::Started>>,
    taken: Taken,
    silent_ms: u64,
    unasked_ms: u64,
    is_closed: bool,
    is_grown: bool,
}

// How long a child is silent, all in all, before it gets a thread, in milliseconds. While its pipe is open the wait for all young ones has it, and a
// thread is of little use; where it is closed there is nothing to wait for, and rests are short until a thread asks for the end.
const SILENT_MS: u64 = 1000;

const CLOSED_MS: u64 = 100;

// How long the young children are waited for in one rest where one of them closed its pipe, in milliseconds. Its end isn't seen meanwhile.
const SHORT_MS: u64 = 1;

// How long they are waited for at most in one rest, in milliseconds.
const LONGEST_MS: u64 = 1000;

// How long a child whose pipe is silent isn't asked whether it ended all the same, in milliseconds of rest, as one does that leaves its pipe to another
// process. A turn without a rest counts as one.
const UNASKED_MS: u64 = 50;

/// Lets the child's thread end. The process runs on.
impl<R: Processes + Wait + Copy> Drop for Process<R> {
    fn drop(self) {
        let Self {
            rt,
            id: _,
            watched,
            taken: _,
            silent_ms: _,
            unasked_ms: _,
            is_closed: _,
            is_grown: _,
        } = self;
        watched.leave(&rt);
        drop(watched);
    }
}

impl<R: Processes + Wait + Copy> Process<R> {
    // What its child did since the last turn.
    fn news(&mut self, alloc: Global, child: RunningChild) -> Mem<News>
        ensures own { IfOk result (λ n. n.id ≡ child.id) }
        ensures piece { IfOk result (λ n. IsPieceBy child.mute n.piece) }
    {
        let (news, taken) = self.watched.news(&self.rt, alloc, child)?;
        self.taken = taken;
        Ok(news)
    }

    // Forgets what was taken.
    fn forget(&mut self) {
        self.watched.forget(&self.rt, self.taken);
    }
}

impl<R: Processes + Wait + Copy> Process<R> {
    /// The process of a child that was started, of this id, in the place that was made for it. It takes no memory.
    pub fn new(
        rt: R,
        id: u64,
        watched: Arc<Watched<R::Started>>,
        spawned: Spawned<R::Started>,
    ) -> Process<R> {
        watched.begin(&rt, spawned);
        Process {
            rt,
            id,
            watched,
            taken: Taken::none(),
            silent_ms: 0,
            unasked_ms: 0,
            is_closed: false,
            is_grown: false,
        }
    }
}

impl<R: Processes + Wait + Copy> Process<R> {
    // It was silent for so many milliseconds more. Answers whether it wants a thread.
    fn was_silent(&mut self, rested_ms: u64) -> bool {
        self.silent_ms = self.silent_ms.saturating_add(rested_ms);
        let most_ms = if self.is_closed { CLOSED_MS } else { SILENT_MS };
        !self.is_grown && self.silent_ms >= most_ms
    }

    // Does what is to be done behind a rest of so many milliseconds for a child that has no thread, of which is known whether its pipe is ready.
    fn attend(&mut self, is_ready: bool, rested_ms: u64) {
        if is_ready || self.unasked_ms >= UNASKED_MS {
            self.unasked_ms = 0;
            self.watched.attend(&self.rt, is_ready);
        } else {
            self.unasked_ms = self.unasked_ms.saturating_add(rested_ms.max(1));
        }
    }
}

// The process of the child of this id.
fn process_of<R: Processes + Wait + Copy>(
    processes: &mut [Process<R>],
    id: u64,
) -> Option<&mut Process<R>> {
    processes.iter_mut().find(|process| process.id == id)
}

/// Ends the process of the child of this id, waits for its end, and lets it go, which takes no memory.
pub fn stop<R: Processes + Wait + Copy>(processes: &mut Vec<Process<R>>, id: u64) {
    if let Some(process) = process_of(processes, id) {
        process.watched.stop(&process.rt);
    }
    processes.retain(|process| process.id != id);
}

// What a child did since the last turn, of which this is the process. A child without a process ended without a code.
fn news_of<R: Processes + Wait + Copy>(
    alloc: Global,
    child: RunningChild,
    process: Option<&mut Process<R>>,
) -> Mem<News>
    ensures own { IfOk result (λ n. n.id ≡ child.id) }
    ensures piece { IfOk result (λ n. IsPieceBy child.mute n.piece) }
{
    match process {
        Some(process) if process.id == child.id => process.news(alloc, child),
        _ => Ok(News {
            id: child.id,
            piece: None,
            unread: false,
            ended: Some(Status::NoCode),
        }),
    }
}

// What the children that run did since the last turn, one item for each.
#[tactic(auto, using(crate::proofs::RunningLemmas::told_more))]
fn told_by<R: Processes + Wait + Copy>(
    alloc: Global,
    children: &[RunningChild],
    processes: &mut [Process<R>],
) -> Mem<Vec<News>>
    ensures { IfOk result (λ told. AreTold children.now told.items) }
{
    let mut told = Vec::new(alloc);
    for (at, child) in children.iter().enumerate() {
        told.push(news_of(alloc, *child, processes.get_mut(at))?)?;
    }
    Ok(told)
}

/// Makes a turn of what the children did since the last one. Those that ended are let go. Refused for memory, no event is added, and
/// the next turn has all that they did.
pub fn turn<R: Processes + Wait + Copy>(
    alloc: Global,
    log: &mut ChildLog,
    processes: &mut Vec<Process<R>>,
) -> Mem<Vec<News>>
    ensures log { IfOk result (λ news. log.new.log ≡ log.old.log ++ turned news.items) }
    ensures news { IfOk result (λ news. IsNews log.old.log news.items) }
    ensures faults { log.new.faults ≡ log.old.faults }
    ensures err { OnErr result (log.new.log ≡ log.old.log) }
{
    let told = told_by(alloc, log.children(), processes)?;
    let news = log.turn_told(told)?;
    for process in processes.iter_mut() {
        process.forget();
    }
    processes.retain(|process| !process.taken.ended);
    Ok(news)
}

// Whether a child has news.
fn has_news<R: Processes + Wait + Copy>(processes: &[Process<R>]) -> bool {
    for process in processes {
        if process.watched.has_news(&process.rt) {
            return true;
        }
    }
    false
}

// The bell, a sink where there is one, and the pipes of the young children, to be waited for.
fn pipes_of<R: Processes + Wait + Copy>(
    alloc: Global,
    bell: &Bell,
    sink: Option<&Sink>,
    processes: &[Process<R>],
) -> Mem<Vec<pollfd>> {
    let mut pipes = Vec::with_capacity(alloc, processes.len().saturating_add(2))?;
    pipes.push(bell.pipe())?;
    pipes.push(pipe_of(sink))?;
    for process in processes {
        if !process.is_grown {
            pipes.push(process.watched.pipe(&process.rt))?;
        }
    }
    Ok(pipes)
}

// Does what is to be done behind a rest of so many milliseconds for the children that have no thread: the young ones, of which these pipes were waited
// for, and those for which none could be made. One whose pipe is closed is mostly about to end.
fn attend_all<R: Processes + Wait + Copy>(
    processes: &mut [Process<R>],
    pipes: &[pollfd],
    rested_ms: u64,
) {
    let mut waited = pipes.iter();
    for process in processes {
        if !process.is_grown
            && let Some(pipe) = waited.next()
        {
            process.is_closed = is_left_out(pipe);
            process.attend(process.is_closed || is_told(pipe), rested_ms);
        } else {
            process.watched.attend(&process.rt, false);
        }
    }
}

// Waits for the bell alone, for a short rest, and asks each child without a thread.
fn ask_all<R: Processes + Wait + Copy>(
    bell: &Bell,
    processes: &mut [Process<R>],
    rest_ms: u64,
) -> u64 {
    let rested_ms = rest_ms.min(SHORT_MS);
    if rested_ms > 0 && !wait_for(&mut [bell.pipe()], rested_ms as i32) {
        nap();
    }
    attend_all(processes, &[], rested_ms);
    rested_ms
}

// Waits until a thread rings, or a young child writes or ends, for at most so many milliseconds, does what is to be done for those without a thread, and
// answers how many milliseconds were to be waited. Where they can't be waited for together, each is asked alone.
fn wait_for_all<R: Processes + Wait + Copy>(
    alloc: Global,
    bell: &Bell,
    sink: Option<&Sink>,
    processes: &mut [Process<R>],
    rest_ms: u64,
) -> u64 {
    match pipes_of(alloc, bell, sink, processes) {
        Ok(mut pipes) => {
            let hears_all = !pipes.iter().skip(2).any(is_left_out);
            let rested_ms = rest_ms.min(if hears_all { LONGEST_MS } else { SHORT_MS });
            if !wait_for(&mut pipes, rested_ms as i32) {
                return ask_all(bell, processes, rest_ms);
            }
            attend_all(processes, pipes.get(2..).unwrap_or(&[]), rested_ms);
            rested_ms
        }
        Err(NoMemory) => ask_all(bell, processes, rest_ms),
    }
}

// Notes that the children were silent for so many milliseconds more, and has those watched by threads that were so for long.
fn grow<R: Processes + Threads + Wait + Copy>(
    watchers: &Watchers<R>,
    processes: &mut [Process<R>],
    rested_ms: u64,
) {
    for process in processes {
        if process.was_silent(rested_ms) {
            process.silent_ms = 0;
            process.is_grown = watchers.add(&process.watched);
        }
    }
}

/// Rests until a child has news, for at most so many milliseconds, or for less where a child closed its pipe and has no thread yet. One that was silent for
/// long gets a thread. What was written to a sink is dropped.
pub fn rest<R: Processes + Threads + Wait + Copy>(
    rt: R,
    alloc: Global,
    bell: &Bell,
    sink: Option<&Sink>,
    watchers: &Watchers<R>,
    processes: &mut [Process<R>],
    rest_ms: u64,
) {
    bell.hush(&rt);
    let rest_ms = if has_news(processes) { 0 } else { rest_ms };
    let rested_ms = wait_for_all(alloc, bell, sink, processes, rest_ms);
    drain(sink);
    if rested_ms > 0 && !has_news(processes) {
        grow(watchers, processes, rested_ms);
    }
}

// How many children are known to have ended, and whether one goes on.
fn ends<R: Processes + Wait + Copy>(processes: &[Process<R>]) -> (usize, bool) {
    let mut count: usize = 0;
    let mut goes_on = false;
    for process in processes {
        if process.watched.is_over(&process.rt) {
            count = count.saturating_add(1);
        }
        goes_on = goes_on || process.watched.goes_on(&process.rt);
    }
    (count, goes_on)
}

// Waits until one more child ended. Answers whether one did: none does where none runs, or where each waits until what it wrote is taken.
fn wait_for_end<R: Processes + Wait + Copy>(
    rt: R,
    sink: Option<&Sink>,
    processes: &mut [Process<R>],
) -> bool {
    let (before, _) = ends(processes);
    for _ in rt.forever() {
        attend_all(processes, &[], 0);
        drain(sink);
        let (count, goes_on) = ends(processes);
        if count > before || !goes_on {
            return count > before;
        }
        nap();
    }
    false
}

// Whether a thread watches a child that runs.
fn has_watched<R: Processes + Wait + Copy>(processes: &[Process<R>]) -> bool {
    for process in processes {
        if process.is_grown && !process.watched.is_over(&process.rt) {
            return true;
        }
    }
    false
}

// Frees a process of the machine, where one can be freed: that of the thread that makes threads, or that of a child, once it ended.
fn free_one<R: Processes + Threads + Wait + Copy>(
    rt: R,
    sink: Option<&Sink>,
    watchers: &mut Watchers<R>,
    processes: &mut [Process<R>],
) -> bool {
    if !has_watched(processes) && watchers.release() {
        return true;
    }
    wait_for_end(rt, sink, processes)
}

/// Starts a command. Where the machine lends no process, as many run as it allows, and each that ends makes room for one:
/// the command is tried again without the threads, where no child needs them, and then each time that a child ended.
pub fn begin<R: Processes + Threads + Files + Env + Wait + Copy + AllocGlobal>(
    rt: R,
    cmd: &Command,
    streams: Streams,
    learned: &mut Learned,
    watchers: &mut Watchers<R>,
    processes: &mut [Process<R>],
) -> Mem<Begun<R::Started>> {
    for _ in rt.forever() {
        match child::begin(&rt, cmd, streams, learned)? {
            Begun::Crowded => {
                if !free_one(rt, learned.sink.as_ref(), watchers, processes) {
                    break;
                }
            }
            begun => return Ok(begun),
        }
    }
    Ok(Begun::Crowded)
}
