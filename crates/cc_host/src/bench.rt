// A host in memory.
ghost use Rattle.std.specs.Prelude.{◌≡◌, ◌≢◌, ◌≤◌, [], ◌∷◌, ◌++◌, reverse, drop, not, bytes_eq, IfOk, OnOk, OnErr};
ghost use Rattle.cc_host.specs.declared.question.Outcome.TheVariants.{Unanswered};
ghost use Rattle.cc_host.specs.Calls.{counted, plus_one};
ghost use Rattle.cc_host.specs.Event.{refused, IsCaused};
ghost use Rattle.cc_host.specs.Script.{has_word, was_met};
ghost use Rattle.cc_host.specs.Journal.{IsQuiet};
ghost use Rattle.cc_host.specs.ChildLog.{IsIdle};
ghost use Rattle.cc_host.specs.Bench.{BenchSeen, fresh, fails_next, has_file, without_file, without_path, next_word, IsFailure, with_script, with_missing, with_answer, with_failure, with_file, noted, called};

use crate::calls::{self, Counts, Failure};
use crate::child_log::ChildLog;
use crate::given::GivenList;
use crate::script::Scripted;
use crate::{Ask, Event, HostCall, HostError, Outcome, Role, Script, Why};
use cc_text::{Mem, NoMemory, Text, Vars, Words};
use std::alloc::Global;
use std::marker::Model;

/// A host in memory. Commands end as they are scripted, or with 0 at their first turn, and write nothing. Questions come to what was
/// given for them, or to answers of a plain GCC. The files on it are those that it was given or that were written, and the probe files that
/// were made. Its variables are those that it was given, none at first. A call faults only where `fail` was called.
#[derive(Drop)]
pub struct BenchHost {
    pub(crate) alloc: Global,
    pub(crate) journal: ChildLog,
    pub(crate) made: Counts,
    pub(crate) scripts: Vec<Scripted>,
    pub(crate) missing: Words,
    pub(crate) failures: Vec<Failure>,
    pub(crate) vars: Vars,
    pub(crate) given: GivenList,
    pub(crate) files: Vec<Text>,
    pub(crate) words: Vec<u64>,
    pub(crate) listens: bool,
}

impl Model for BenchHost {
    ghost Value = { BenchSeen };

    ghost view = { λ h. record {
      log = h.journal.log;
      faults = h.journal.faults;
      children = h.journal.children;
      made = h.made;
      scripts = h.scripts.items;
      missing = h.missing;
      failures = h.failures.items;
      vars = h.vars;
      given = h.given;
      files = h.files.items;
      words = reverse h.words.items;
      listens = h.listens;
    } };
}

impl BenchHost {
    /// A host as it is before anything is set on it. It takes no memory.
    pub fn new(alloc: Global) -> Mem<BenchHost>
        ensures { IfOk result (λ h. h ≡ fresh) }
    {
        Ok(BenchHost {
            alloc,
            journal: ChildLog::new(alloc),
            made: Counts::new(),
            scripts: Vec::new(alloc),
            missing: Words::new(alloc),
            failures: Vec::new(alloc),
            vars: Vars::new(alloc),
            given: GivenList::new(alloc),
            files: Vec::new(alloc),
            words: Vec::new(alloc),
            listens: false,
        })
    }

    /// Scripts each command of the role that has the word, as its program or among its words. The script that was added
    /// last counts. Refused for memory, the host stays as it was.
    pub fn script(&mut self, role: Role, word: &str, script: Script) -> Mem<()>
        ensures ok { OnOk result (self.new ≡ with_script role word.now script self.old) }
        ensures err { OnErr result (self.new ≡ self.old) }
    {
        let word = Text::of(self.alloc, word)?;
        let met = self.journal.was_met(&script.after);
        self.scripts.push(Scripted {
            role,
            word,
            script,
            met,
        })?;
        Ok(())
    }

    /// Makes each command of the program missing, scripted or not. It speaks of no question. Refused for memory, the host stays as it
    /// was.
    pub fn missing(&mut self, program: &str) -> Mem<()>
        ensures ok { OnOk result (self.new ≡ with_missing program.now self.old) }
        ensures err { OnErr result (self.new ≡ self.old) }
    {
        self.missing.push(program)
    }

    /// Gives the outcome of each question that asks this of the program. The outcome that was given last counts. Refused for memory, the
    /// host stays as it was.
    pub fn answer(&mut self, ask: Ask, program: &str, outcome: Outcome) -> Mem<()>
        requires { outcome ≢ Unanswered }
        ensures ok { OnOk result (self.new ≡ with_answer ask program.now outcome self.old) }
        ensures err { OnErr result (self.new ≡ self.old) }
    {
        self.given.give(ask, program, outcome)
    }

    /// Makes the nth call of the kind on this host, from 1, fault with `Why::Other`. A call that was refused for memory
    /// counts for none. Refused for memory itself, the host stays as it was.
    pub fn fail(&mut self, call: HostCall, nth: u64) -> Mem<()>
        ensures ok { OnOk result (self.new ≡ with_failure call nth self.old) }
        ensures err { OnErr result (self.new ≡ self.old) }
    {
        self.failures.push(Failure { call, nth })?;
        Ok(())
    }

    /// Puts a file at the path. Refused for memory, the host stays as it was.
    pub fn file(&mut self, path: &str) -> Mem<()>
        ensures ok { OnOk result (self.new ≡ with_file path.now self.old) }
        ensures err { OnErr result (self.new ≡ self.old) }
    {
        let path = Text::of(self.alloc, path)?;
        self.files.push(path)?;
        Ok(())
    }

    /// Gives the host its variables, in place of those that it had.
    pub fn set_vars(&mut self, vars: Vars)
        ensures { self.new ≡ record self.old { vars = vars } }
    {
        self.vars = vars;
    }

    /// Gives the host the words that it draws, in order, in place of those that it had. After them it draws 0 for ever.
    pub fn set_random(&mut self, words: Vec<u64>)
        ensures { self.new ≡ record self.old { words = words.items } }
    {
        let mut words = words;
        words.as_mut_slice().reverse();
        self.words = words;
    }

    /// Whether the host listens from now on. At first it doesn't.
    pub fn set_listens(&mut self, on: bool)
        ensures { self.new ≡ record self.old { listens = on } }
    {
        self.listens = on;
    }

    // Whether the next call of the kind is to fail.
    pub(crate) fn fails_next(&self, call: HostCall) -> bool
        ensures { result ≡ fails_next call self.now }
    {
        calls::is_due(&self.failures, call, self.made.get(call))
    }

    // Adds the event of a call that isn't counted.
    pub(crate) fn add(&mut self, event: Event) -> Mem<()>
        requires quiet { IsQuiet (event ∷ []) }
        requires idle { IsIdle event }
        ensures ok { OnOk result (self.new ≡ noted (event ∷ []) self.old) }
        ensures err { OnErr result (self.new ≡ self.old) }
    {
        if self.journal.reserve(1).is_err() {
            drop(event);
            return Err(NoMemory);
        }
        self.journal.note(event);
        Ok(())
    }

    // Adds the event of a call, and counts the call.
    pub(crate) fn add_call(&mut self, call: HostCall, event: Event) -> Mem<()>
        requires quiet { IsQuiet (event ∷ []) }
        requires idle { IsIdle event }
        ensures ok { OnOk result (self.new ≡ called call (event ∷ []) self.old) }
        ensures err { OnErr result (self.new ≡ self.old) }
    {
        self.add(event)?;
        self.made.count(call);
        Ok(())
    }

    // Adds the event of a fault, and counts the call and the fault.
    pub(crate) fn fault(&mut self, call: HostCall) -> HostError
        ensures adds { self.new.log ≡ self.old.log ++ refused result }
        ensures later { self.old.faults ≤ self.new.faults }
        ensures cause { IsCaused call self.old.faults self.new.faults result }
        ensures fails { IsFailure call self.old self.new result }
    {
        if self.journal.reserve(1).is_err() {
            return HostError::NoMemory;
        }
        self.made.count(call);
        self.journal.fault(call, Why::Other)
    }

    // Whether the path has a file.
    pub(crate) fn has_file(&self, path: &str) -> bool
        ensures { result ≡ has_file path.now self.now }
    {
        self.files.iter().any(|file| file.as_str() == path)
    }

    // Takes the file of a path away.
    pub(crate) fn forget(&mut self, path: &str)
        ensures { self.new ≡ without_path path.now self.old }
    {
        remove_file(&mut self.files, path);
    }
}

// Takes the paths away that are this one.
fn remove_file(files: &mut Vec<Text>, path: &str)
    ensures { files.new.items ≡ without_file path.now files.old.items }
{
    files.retain(|file| differs(file, path));
}

fn differs(file: &Text, path: &str) -> bool
    ensures { result ≡ not (bytes_eq file.now path.now) }
{
    file.as_str() != path
}

// Takes the last word of these, or 0 where there is none.
pub(crate) fn take_word(words: &mut Vec<u64>) -> u64
    ensures word { result ≡ next_word (reverse words.old.items) }
    ensures after { reverse words.new.items ≡ drop 1 (reverse words.old.items) }
{
    match words.pop() {
        Some(word) => word,
        None => 0,
    }
}
