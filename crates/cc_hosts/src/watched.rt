// A child that is watched, as its own thread and its host share it.
//
// The thread waits in `poll(2)` for the pipe of the child's standard error, and never for long: so it sees that the child ended where a
// process that the child left behind holds the pipe open, and that the child was left alone. Such a pipe is heard on for a while, and the
// end is told behind that. Waiting for a child wants it whole, as ending it does, so the thread asks whether it ended, and the host can
// end it in between. An end is asked for as the pipe closes, which it does with the child; where it closed before, the asking grows
// rarer, down to once in so many milliseconds.
ghost use Rattle.std.specs.Prelude.{◌≡◌, IfOk};
ghost use Rattle.cc_host.specs.ChildLog.{IsPieceBy};
ghost use Rattle.cc_hosts.specs.Running.{ended_by};

use crate::bell::Bell;
use crate::child::{Spawned, status_of};
use crate::heard::{Heard, Taken};
use crate::late::Late;
use crate::waiting::{awaited, give_way, is_ready, left_out};
use cc_host::{News, RunningChild, Status};
use cc_text::Mem;
use libc::types::pollfd;
use std::alloc::Global;
use std::io::{self, ErrorKind, PipeReader, Read};
use std::process::{Child, ExitStatus, OpenProcess};
use std::sync::{Arc, Mutex, Wait, WaitMethods};
use std::thread::Parker;
use std::time::Duration;

// How much is read at once.
const READ: usize = 8192;

// How long the thread waits for a child that is silent, in milliseconds.
const PATIENCE: i32 = 50;

// How many steps are made in a turn for a child that has no thread. One whose pipe closes in it is mostly about to end, so its end is asked for as often, and
// the processor is handed to others in between: the child may be waiting for it, as where more commands run than there are processors. Where the pipe was closed
// before, a few times.
const STEPS: u32 = 64;

const CLOSED_STEPS: u32 = 4;

// How long the thread rests before it asks again whether a child ended whose pipe is closed, in microseconds: at first, from where on rests grow slowly, and at
// most. A slow rest is longer by a 64th than the one before, so that an end is found late by about a 64th of the child's time.
const FIRST_REST: u64 = 100;

const SLOW_REST: u64 = 1000;

const LONGEST_REST: u64 = 10_000;

// The pipe of a child, as long as it is read.
#[derive(Drop)]
struct Ear {
    pipe: Option<PipeReader>,
    late: Late,
}

/// A child with what was heard of it, each part behind a lock. Its thread takes the ear for itself, so that a turn never waits for one who listens.
#[derive(Drop)]
pub struct Watched<P: OpenProcess + Drop> {
    process: Mutex<Option<Child<P>>>,
    ear: Mutex<Option<Ear>>,
    heard: Mutex<Heard>,
    rest: Parker,
    bell: Arc<Bell>,
}

// What one read of a child's pipe gave.
#[derive(Clone, Copy)]
enum Hearing {
    Bytes,
    Nothing,
    NoRoom,
    Closed,
    Failed,
}

// What one step of watching a child gave: news, nothing yet, no room, or its end. Where its pipe is closed, nothing was waited for.
#[derive(Clone, Copy)]
enum Step {
    News,
    Again,
    Silent,
    Full,
    Closed,
    Over,
}

// How long a pipe is waited for, in milliseconds, or that it is known to be ready.
#[derive(Clone, Copy)]
enum Patience {
    Within(i32),
    Known,
}

// The rest behind one of so many microseconds.
fn longer(rest: u64) -> u64 {
    let more = if rest < SLOW_REST { rest } else { rest / 64 };
    rest.saturating_add(more).min(LONGEST_REST)
}

// How a child ended, by what asking for it gave. A child whose end can't be learned ended without a code.
fn ended_by(asked: io::Result<Option<ExitStatus>>) -> Option<Status>
    ensures { result ≡ ended_by asked }
{
    match asked {
        Ok(Some(status)) => Some(status_of(status)),
        Ok(None) => None,
        Err(_) => Some(Status::NoCode),
    }
}

impl Ear {
    fn of(pipe: Option<PipeReader>) -> Ear {
        Ear {
            pipe,
            late: Late::new(),
        }
    }

    // Notes what a read gave.
    fn note(&mut self, hearing: Hearing) -> Step {
        match hearing {
            Hearing::Bytes => Step::News,
            Hearing::Nothing => Step::Silent,
            Hearing::NoRoom => Step::Full,
            Hearing::Closed => {
                self.pipe = None;
                Step::Again
            }
            Hearing::Failed => {
                self.pipe = None;
                Step::News
            }
        }
    }

    // Whether the child is to be asked whether it ended, behind such a step.
    fn asks(&mut self, step: Step) -> bool {
        match step {
            Step::Silent => self.late.asks(true),
            Step::News => self.late.asks(false),
            Step::Again | Step::Full | Step::Closed | Step::Over => false,
        }
    }

    // Whether the pipe is to be left behind such a step, since the child ended long ago.
    fn leaves(&mut self, step: Step) -> bool {
        match step {
            Step::Silent => self.late.leaves(true),
            Step::News => self.late.leaves(false),
            Step::Again | Step::Full | Step::Closed | Step::Over => false,
        }
    }
}

impl<P: OpenProcess + Drop> Watched<P> {
    /// The place of a child that is to be started, whose thread rings this bell.
    pub fn new(alloc: Global, bell: &Arc<Bell>) -> Mem<Arc<Watched<P>>> {
        let heard = Heard::new(alloc)?;
        let watched = Watched {
            process: Mutex::new(None),
            ear: Mutex::new(None),
            heard: Mutex::new(heard),
            rest: Parker::new(),
            bell: Arc::try_clone(bell)?,
        };
        Ok(Arc::new(alloc, watched)?)
    }

    /// Takes the child that was started. It takes no memory.
    pub fn begin(&self, rt: &impl Wait, spawned: Spawned<P>) {
        let Spawned { child, out: _, err } = spawned;
        *self.ear.lock(rt) = Some(Ear::of(err));
        *self.process.lock(rt) = Some(child);
    }

    /// Whether it did something since the last turn.
    pub fn has_news(&self, rt: &impl Wait) -> bool {
        self.heard.lock(rt).has_news()
    }

    /// What it did since the last turn. What was taken is to be forgotten once that is noted.
    pub fn news(&self, rt: &impl Wait, alloc: Global, child: RunningChild) -> Mem<(News, Taken)>
        ensures own { IfOk result (λ n. n.0.id ≡ child.id) }
        ensures piece { IfOk result (λ n. IsPieceBy child.mute n.0.piece) }
    {
        let heard = self.heard.lock(rt);
        let news = heard.news(alloc, child)?;
        Ok((news, heard.taken()))
    }

    /// Forgets what was taken, and lets the child's thread go on where it waits for room.
    pub fn forget(&self, rt: &impl Wait, taken: Taken) {
        self.heard.lock(rt).forget(taken);
        self.rest.unpark();
    }

    /// Whether the child runs on as far as is known, and doesn't wait until what it wrote is taken.
    pub fn goes_on(&self, rt: &impl Wait) -> bool {
        let mut heard = self.heard.lock(rt);
        heard.ended.is_none() && heard.room() > 0
    }

    /// Whether the child is known to have ended.
    pub fn is_over(&self, rt: &impl Wait) -> bool {
        self.heard.lock(rt).ended.is_some()
    }

    /// Ends the child, and waits for its end, which takes no memory. What fails there is ignored.
    pub fn stop(&self, rt: &impl Wait) {
        if let Some(child) = &mut *self.process.lock(rt) {
            let _ = child.kill();
            let _ = child.wait();
        }
    }

    /// Lets the child's thread end.
    pub fn leave(&self, rt: &impl Wait) {
        self.heard.lock(rt).is_left = true;
        self.rest.unpark();
    }

    fn is_left(&self, rt: &impl Wait) -> bool {
        self.heard.lock(rt).is_left
    }

    // Asks whether the child ended.
    fn ended(&self, rt: &impl Wait) -> Option<Status> {
        match &mut *self.process.lock(rt) {
            Some(child) => ended_by(child.try_wait()),
            None => Some(Status::NoCode),
        }
    }

    // Notes that the child ended, where it did.
    fn look(&self, rt: &impl Wait) -> Step {
        match self.ended(rt) {
            Some(status) => {
                self.heard.lock(rt).ended = Some(status);
                Step::Over
            }
            None => Step::Closed,
        }
    }

    // Reads once what is there.
    fn read(&self, rt: &impl Wait, pipe: &mut PipeReader, room: usize) -> Hearing {
        let mut buffer = [0; READ];
        match pipe.read(&mut buffer[..room.min(READ)]) {
            Ok(0) => Hearing::Closed,
            Ok(len) => {
                self.heard.lock(rt).add(&buffer[..len]);
                Hearing::Bytes
            }
            Err(error) if error.kind() == ErrorKind::Interrupted => Hearing::Nothing,
            Err(_) => {
                self.heard.lock(rt).unread = true;
                Hearing::Failed
            }
        }
    }

    // Reads once what comes within so many milliseconds, or what is known to be there.
    fn hear(&self, rt: &impl Wait, pipe: &mut PipeReader, patience: Patience) -> Hearing {
        let room = self.heard.lock(rt).room();
        if room == 0 {
            return Hearing::NoRoom;
        }
        if let Patience::Within(most_ms) = patience
            && !is_ready(pipe, most_ms)
        {
            return Hearing::Nothing;
        }
        self.read(rt, pipe, room)
    }

    // Hears what comes within so many milliseconds, or what is known to be there, or asks whether the child ended. A pipe that another process holds on for
    // long behind that counts as unread.
    fn step(&self, rt: &impl Wait, ear: &mut Ear, patience: Patience) -> Step {
        let hearing = match &mut ear.pipe {
            Some(pipe) => self.hear(rt, pipe, patience),
            None => return self.look(rt),
        };
        let step = ear.note(hearing);
        if ear.leaves(step) {
            ear.pipe = None;
            self.heard.lock(rt).unread = true;
            return Step::News;
        }
        if ear.asks(step) && self.ended(rt).is_some() {
            ear.late.begin();
            return Step::Again;
        }
        step
    }

    /// Does what is to be done for the child without waiting, where it has no thread. Where its pipe is known to be ready, that isn't asked
    /// again.
    pub fn attend(&self, rt: &impl Wait, is_ready: bool) {
        if let Some(ear) = &mut *self.ear.lock(rt) {
            self.attend_to(rt, ear, is_ready);
        }
    }

    fn attend_to(&self, rt: &impl Wait, ear: &mut Ear, is_ready: bool) {
        let mut patience = if is_ready {
            Patience::Known
        } else {
            Patience::Within(0)
        };
        let was_open = ear.pipe.is_some();
        let steps = if was_open { STEPS } else { CLOSED_STEPS };
        for _ in 0..steps {
            match self.step(rt, ear, patience) {
                Step::News | Step::Again => patience = Patience::Within(0),
                Step::Closed => {
                    if was_open {
                        give_way();
                    }
                    patience = Patience::Within(0);
                }
                Step::Silent | Step::Full | Step::Over => return,
            }
        }
    }

    /// Its standard error, to be waited for. One that is closed, or read by a thread, is left out.
    pub fn pipe(&self, rt: &impl Wait) -> pollfd {
        match &*self.ear.lock(rt) {
            Some(
                Ear {
                    pipe: Some(pipe),
                    ..
                },
            ) => awaited(pipe),
            _ => left_out(),
        }
    }

    /// Watches the child to its end, or until it is left.
    pub fn watch<R: Wait>(&self, rt: &R) {
        let ear = self.ear.lock(rt).take();
        if let Some(mut ear) = ear {
            self.watch_on(rt, &mut ear);
        }
    }

    fn watch_on<R: Wait>(&self, rt: &R, ear: &mut Ear) {
        let mut rest = FIRST_REST;
        for _ in rt.forever() {
            if self.is_left(rt) {
                return;
            }
            match self.step(rt, ear, Patience::Within(PATIENCE)) {
                Step::News => self.bell.ring(rt),
                Step::Again | Step::Silent => {}
                Step::Full => self
                    .rest
                    .park_timeout(rt, Duration::from_micros(LONGEST_REST)),
                Step::Closed => {
                    self.rest.park_timeout(rt, Duration::from_micros(rest));
                    rest = longer(rest);
                }
                Step::Over => {
                    self.bell.ring(rt);
                    return;
                }
            }
        }
    }
}
