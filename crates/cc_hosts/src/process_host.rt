// A host over the machine.
ghost use Rattle.std.specs.Prelude.{◌≡◌, None, IfOk, false};
ghost use Rattle.cc_hosts.specs.HostSeen.{HostSeen, fresh};

use crate::asking::{KEPT, ask, outcome_of};
use crate::bell::Bell;
use crate::child::{self, Begun, Closed, Ended, Streams};
use crate::disk::{create_new, remove};
use crate::entry::list_vars;
use crate::kinds::{make_folders, stands};
use crate::learned::Learned;
use crate::reason::why_of;
use crate::replaced::{Beside, Contents, copy_of, replace};
use crate::running::{self, Process};
use crate::watched::Watched;
use crate::watchers::Watchers;
use cc_host::{
    Boxed, ChildLog, Command, Created, Event, Host, HostCall, HostError, Line, LineKind, Message,
    News, Outcome, Pipes, ProbeFiles, Question, Ran, Removal, Role, Scope, Start, Verdict, Why,
    World, exists_of,
};
use cc_text::{Bytes, Mem, NoMemory, Text, Vars, Words};
use std::alloc::Global;
use std::env::Env;
use std::io::{Eprint, ErrorKind, Print};
use std::marker::Model;
use std::process::{OpenProcess, Processes};
use std::random::RandomSource;
use std::rt::Files;
use std::sync::{Arc, Wait};
use std::thread::Threads;
use std::{env, fs, io};

/// The world of `ProcessHost`. It isn't steady: the machine may change.
pub struct Real;

impl World for Real {
    ghost use Rattle.std.specs.Prelude.{false};
    ghost use Rattle.cc_host.specs.declared.question.Outcome.TheVariants.{Unanswered};

    ghost steady = { false };

    ghost answer = { λ _. Unanswered };
}

/// A host over the processes, the files and the streams of the machine, by its runtime. It keeps the trait `Host`, and no
/// more is proved of it: no proof can say what a process did.
///
/// Each child that was started and is silent for long has a thread that reads its standard error as it comes and sees its end; up to then, and
/// where no thread can be made, each turn does that itself. Of each child at most 64 KiB are kept until a turn takes them, and a child that
/// writes more waits for that. A turn takes what is there, of every child, and rests before only as long as there is nothing. A
/// child that was left alone is ended, and its thread with it. With the host all threads are joined, and children that run are left to run.
///
/// A pipe that another process holds is heard on for up to two seconds behind its child's end, and the end is told behind that. One that is
/// held for longer counts as unread: a line says so of the standard error of `output`, and a question is unanswered. Refused is a standard
/// output that is held.
///
/// A program that is looked for on a `PATH` is started from where one of its name was found last on the same `PATH`, as a shell does (POSIX,
/// `hash`), and looked for again where that can't be started.
///
/// A child whose standard error isn't heard writes it nowhere: to the null device, or, where that can't be opened, to a pipe that is read
/// and dropped. A child for which the machine lends no process is started without the threads, where no child needs them, or once another
/// one ended. Refused for memory, a call that started nothing did nothing, and a turn loses nothing: the next one has it. A command of
/// `output` or `probe` whose end can't be kept did run: its end is lost, and no event is noted.
///
/// A file that couldn't be written or copied to whole is as it was, unless it had to be written in place, as a device, or one whose folder
/// takes no new file. What a run leaves that is ended meanwhile, the next one takes over.
#[derive(Drop)]
pub struct ProcessHost<R: Processes + Threads + Wait + Copy> {
    rt: R,
    alloc: Global,
    log: ChildLog,
    processes: Vec<Process<R>>,
    watchers: Watchers<R>,
    bell: Arc<Bell>,
    learned: Learned,
    drawn: u64,
    closed: Closed,
    warned: bool,
}

impl<R: Processes + Threads + Wait + Copy> Model for ProcessHost<R> {
    ghost Value = { HostSeen };

    ghost view = { λ h. record { log = h.log.log; faults = h.log.faults } };
}

impl<R: Processes + Files + Threads + Wait + Copy + Send + 'static + AllocGlobal> ProcessHost<R>
where
    R::Started: Send + 'static,
    <R::Started as OpenProcess>::Stdin: Send + 'static,
    <R::Started as OpenProcess>::Stdout: Send + 'static,
    <R::Started as OpenProcess>::Stderr: Send + 'static,
{
    /// A host before its first call.
    pub fn new(rt: R) -> Mem<ProcessHost<R>>
        ensures { IfOk result (λ h. h ≡ fresh) }
    {
        let alloc = rt.alloc();
        let bell = Arc::new(alloc, Bell::new(&rt))?;
        let watchers = Watchers::new(rt, alloc, bell.is_heard())?;
        Ok(ProcessHost {
            rt,
            alloc,
            log: ChildLog::new(alloc),
            processes: Vec::new(alloc),
            watchers,
            bell,
            learned: Learned::nothing(),
            drawn: 0,
            closed: Closed {
                input: false,
                output: false,
            },
            warned: false,
        })
    }
}

impl<R: Processes + Threads + Wait + Copy> ProcessHost<R> {
    /// Tells the host that this process was started without its standard input or without its standard output. A child gets the null
    /// device in the place of such a stream, else the first file that it opens would take that place.
    pub fn lacks(&mut self, closed: Closed)
        ensures { self.new ≡ self.old }
    {
        self.closed = closed;
    }

    // What a child gets as its streams.
    fn streams(&self, pipes: Pipes) -> Streams
        ensures { result.pipes ≡ pipes }
    {
        Streams {
            pipes,
            closed: self.closed,
        }
    }
}

const NOT_TEXT: &[u8] = b"cargo:warning=ignoring a variable that is not UTF-8\n";

// Warns of each variable that was left out, where that wasn't done before. Its name stands on standard error, where a line that can't be
// written is no fault.
fn warn<R: Print + Eprint>(rt: &R, warned: bool, left_out: &Words) -> io::Result<()> {
    if warned {
        return Ok(());
    }
    for name in left_out.as_slice() {
        rt.write_all(NOT_TEXT)?;
        let name = name.as_str();
        let _ = eprintln!(rt; "ignoring the variable {name}, which is not UTF-8");
    }
    Ok(())
}

// Writes a line: one of kind Fault to standard error, any other to standard output. No byte stays behind in a buffer.
fn write_line<R: Print + Eprint>(
    rt: &R,
    kind: LineKind,
    bytes: &[u8],
    text: String,
) -> io::Result<()> {
    match kind {
        LineKind::Fault => rt.eprint(text),
        _ => rt.write_all(bytes),
    }
}

impl<
    R: Processes
        + Threads
        + Wait
        + Copy
        + Files
        + Env
        + Print
        + Eprint
        + RandomSource
        + AllocGlobal,
> Host<Real> for ProcessHost<R> {
    ghost log = { λ h. h.log };

    ghost faults = { λ h. h.faults };

    ghost patience = { λ _. None };

    ghost listens = { λ _. false };

    ghost stands = { λ _. None };

    fn start(
        &mut self,
        role: Role,
        cmd: &Command,
        pipes: Pipes,
        held: u64,
    ) -> Result<Start, HostError> {
        self.log.reserve_child()?;
        self.processes.reserve(1)?;
        let command = cmd.try_clone()?;
        let place = Watched::new(self.alloc, &self.bell)?;
        let streams = self.streams(child::heard_only(pipes));
        match running::begin(
            self.rt,
            cmd,
            streams,
            &mut self.learned,
            &mut self.watchers,
            &mut self.processes,
        )? {
            Begun::Missing => {
                self.log.note(Event::Missing { role, cmd: command });
                Ok(Start::Missing)
            }
            Begun::Failed(why) => Err(self.log.fault(HostCall::Start, why)),
            Begun::Crowded => Err(self.log.fault(HostCall::Start, Why::Other)),
            Begun::Child(spawned) => {
                let id = self.log.note_child(role, command, pipes, held, None);
                let process = Process::new(self.rt, id, place, spawned);
                self.processes.push_reserved(process);
                Ok(Start::Child(id))
            }
        }
    }

    fn turn(&mut self, rest_ms: u64) -> Result<Vec<News>, HostError> {
        running::rest(
            self.rt,
            self.alloc,
            &self.bell,
            self.learned.sink.as_ref(),
            &self.watchers,
            &mut self.processes,
            rest_ms,
        );
        let news = running::turn(self.alloc, &mut self.log, &mut self.processes)?;
        Ok(news)
    }

    fn abandon(&mut self, id: u64) {
        running::stop(&mut self.processes, id);
        let _ = self.log.abandon(id);
    }

    #[tactic(auto, using(cc_host::proofs::GivenLemmas::answered_event, cc_host::proofs::GivenLemmas::answered_is))]
    fn probe(&mut self, q: &Question, files: &ProbeFiles) -> Mem<Outcome> {
        self.log.reserve(2)?;
        let question = Boxed::new(self.alloc, q.try_clone()?)?;
        let with = Boxed::new(self.alloc, Some(files.try_clone()?))?;
        let unanswered = Boxed::new(self.alloc, Outcome::Unanswered)?;
        let streams = self.streams(KEPT);
        let end = ask(self.alloc, &self.rt, q, files, streams, &mut self.learned)?;
        match outcome_of(end)? {
            Ok((outcome, copy)) => {
                let copy = Boxed::new(self.alloc, copy)?;
                self.log.note(Event::Answered {
                    question,
                    files: with,
                    outcome: copy,
                });
                Ok(outcome)
            }
            Err(why) => {
                self.log.fault(HostCall::Probe, why);
                self.log.note(Event::Answered {
                    question,
                    files: with,
                    outcome: unanswered,
                });
                Ok(Outcome::Unanswered)
            }
        }
    }

    fn reused(&mut self, q: &Question, verdict: &Verdict) -> Mem<()> {
        self.log.reserve(1)?;
        let question = Boxed::new(self.alloc, q.try_clone()?)?;
        let verdict = verdict.try_clone()?;
        self.log.note(Event::Reused { question, verdict });
        Ok(())
    }

    fn unasked(&mut self, q: &Question) -> Mem<()> {
        self.log.reserve(1)?;
        let question = Boxed::new(self.alloc, q.try_clone()?)?;
        self.log.note(Event::Unasked { question });
        Ok(())
    }

    fn exists(&mut self, path: &str) -> Mem<bool> {
        self.log.reserve(1)?;
        let question = Boxed::new(self.alloc, exists_of(self.alloc, path)?)?;
        let files = Boxed::new(self.alloc, None)?;
        let there = stands(&self.rt, path);
        let outcome = Boxed::new(self.alloc, Outcome::Exists(there))?;
        self.log.note(Event::Answered {
            question,
            files,
            outcome,
        });
        Ok(there)
    }

    fn create_probe(&mut self, path: &str, contents: &[u8]) -> Result<Created, HostError> {
        self.log.reserve_probe()?;
        let name = Text::of(self.alloc, path)?;
        let kept = Text::of(self.alloc, path)?;
        let bytes = Bytes::of(self.alloc, contents)?;
        match create_new(&self.rt, path, contents) {
            Ok(Created::New) => {
                self.log.note_opened(name, kept, bytes);
                Ok(Created::New)
            }
            Ok(Created::Exists) => {
                self.log.note(Event::Taken { path: name });
                Ok(Created::Exists)
            }
            Err(why) => Err(self.log.fault(HostCall::CreateProbe, why)),
        }
    }

    fn drop_probe(&mut self, path: &str) {
        let _ = fs::remove_file(&self.rt, path);
        self.log.note_dropped(path);
    }

    fn random(&mut self) -> Mem<u64> {
        self.log.reserve(1)?;
        self.drawn = self.drawn.wrapping_add(1);
        let word = random_word(&self.rt, self.drawn);
        self.log.note(Event::Drawn { word });
        Ok(word)
    }

    fn output(&mut self, role: Role, cmd: &Command, pipes: Pipes) -> Result<Ran, HostError> {
        self.log.reserve(1)?;
        let command = cmd.try_clone()?;
        let streams = self.streams(pipes);
        match child::run(&self.rt, cmd, streams, &mut self.learned)? {
            child::Outcome::Missing => {
                self.log.note(Event::Missing { role, cmd: command });
                Ok(Ran::Missing)
            }
            child::Outcome::Failed(why) => Err(self.log.fault(HostCall::Output, why)),
            child::Outcome::Ended(end)
            | child::Outcome::Lost(end, _)
            | child::Outcome::Unread(end) => {
                let Ended { status, out, err } = end.try_clone()?;
                let out = Boxed::new(self.alloc, out)?;
                let err = Boxed::new(self.alloc, err)?;
                self.log.note(Event::Ran {
                    role,
                    cmd: command,
                    pipes,
                    status,
                    out,
                    err,
                });
                Ok(Ran::Done {
                    status,
                    out: end.out,
                    err: end.err,
                })
            }
        }
    }

    fn make_dir(&mut self, scope: Scope, path: &str) -> Result<(), HostError> {
        self.log.reserve(1)?;
        let made = Text::of(self.alloc, path)?;
        match make_folders(&self.rt, path) {
            Ok(()) => {
                self.log.note(Event::Made { scope, path: made });
                Ok(())
            }
            Err(error) => {
                let why = why_of(error.kind());
                Err(self.log.fault(HostCall::MakeDir(scope), why))
            }
        }
    }

    fn write_file(&mut self, path: &str, contents: &[u8]) -> Result<(), HostError> {
        self.log.reserve(1)?;
        let name = Text::of(self.alloc, path)?;
        let bytes = Bytes::of(self.alloc, contents)?;
        self.drawn = self.drawn.wrapping_add(1);
        let word = random_word(&self.rt, self.drawn);
        let beside = Beside::of(self.alloc, path, word)?;
        match replace(&self.rt, path, &beside, Contents::Bytes(contents)) {
            Ok(()) => {
                self.log.note(Event::Wrote { path: name, bytes });
                Ok(())
            }
            Err(error) => Err(self.log.fault(HostCall::Write, why_of(error.kind()))),
        }
    }

    fn copy_file(&mut self, from: &str, to: &str) -> Result<(), HostError> {
        self.log.reserve(1)?;
        let source = Text::of(self.alloc, from)?;
        let name = Text::of(self.alloc, to)?;
        self.drawn = self.drawn.wrapping_add(1);
        let word = random_word(&self.rt, self.drawn);
        let beside = Beside::of(self.alloc, to, word)?;
        match copy(&self.rt, from, to, &beside) {
            Ok(()) => {
                self.log.note(Event::Copied {
                    from: source,
                    to: name,
                });
                Ok(())
            }
            Err(error) => Err(self.log.fault(HostCall::Copy, why_of(error.kind()))),
        }
    }

    fn remove_file(&mut self, path: &str) -> Result<Removal, HostError> {
        self.log.reserve(1)?;
        let removed = Text::of(self.alloc, path)?;
        match remove(&self.rt, path) {
            Ok(how) => {
                self.log.note(Event::Removed { path: removed, how });
                Ok(how)
            }
            Err(why) => Err(self.log.fault(HostCall::Remove, why)),
        }
    }

    fn current_dir(&mut self) -> Result<Text, HostError> {
        self.log.reserve(1)?;
        match env::current_dir(&self.rt) {
            Ok(here) => {
                let answer = Text::of(self.alloc, here.as_str())?;
                let path = Text::of(self.alloc, here.as_str())?;
                self.log.note(Event::Here { path });
                Ok(answer)
            }
            Err(error) => match error.kind() {
                ErrorKind::OutOfMemory => Err(HostError::NoMemory),
                kind => Err(self.log.fault(HostCall::CurrentDir, why_of(kind))),
            },
        }
    }

    fn print(&mut self, kind: LineKind, bytes: &[u8]) -> Result<(), HostError> {
        self.log.reserve(1)?;
        let line = Line::of(self.alloc, bytes)?;
        let text = String::from_utf8_lossy(self.alloc, bytes).map_err(NoMemory::from)?;
        match write_line(&self.rt, kind, bytes, text) {
            Ok(()) => {
                self.log.note(Event::Printed { kind, bytes: line });
                Ok(())
            }
            Err(error) => Err(self.log.fault(HostCall::Print, why_of(error.kind()))),
        }
    }

    fn say(&mut self, message: &Message) -> Result<(), HostError> {
        self.log.reserve(1)?;
        let message = Boxed::new(self.alloc, message.try_clone()?)?;
        self.log.note(Event::Said { message });
        Ok(())
    }

    fn vars(&mut self) -> Result<Vars, HostError> {
        self.log.reserve(1)?;
        let listing = list_vars(self.alloc, &self.rt)?;
        let vars = listing.vars.try_clone()?;
        match warn(&self.rt, self.warned, &listing.left_out) {
            Ok(()) => {
                self.warned = true;
                self.log.note(Event::Listed { vars });
                Ok(listing.vars)
            }
            Err(error) => Err(self.log.fault(HostCall::Vars, why_of(error.kind()))),
        }
    }

    // Nobody listens at the machine. A logger stands round this host.
    fn listens(&self) -> bool {
        false
    }

    fn log(&self) -> &[Event] {
        self.log.events()
    }
}

// Copies a file.
fn copy(files: &impl Files, from: &str, to: &str, beside: &Beside) -> io::Result<()> {
    let contents = copy_of(files, from)?;
    replace(files, to, beside, contents)
}

// A word at random, or this one where the system gives none.
fn random_word(rt: &impl RandomSource, other: u64) -> u64 {
    let mut bytes = [0; 8];
    match rt.fill_bytes(&mut bytes) {
        Ok(()) => u64::from_le_bytes(bytes),
        Err(_) => other,
    }
}
