// A host in memory whose questions come to fixed outcomes.
ghost use Rattle.std.specs.Prelude.{◌≡◌, [], Some, IfOk, OnOk, OnErr};
ghost use Rattle.cc_host.specs.Bench.{BenchSeen, fresh, with_script, with_missing, with_failure, with_file, has_file};
ghost use Rattle.cc_host.specs.Script.{patience_of};

use cc_host::{
    BenchHost, Command, Created, Event, Host, HostCall, HostError, LineKind, Message, News,
    Outcome, Pipes, ProbeFiles, Question, Ran, Removal, Role, Scope, Script, Start, Verdict, World,
};
use cc_text::{Mem, Text, Vars};
use std::alloc::Global;
use std::marker::Model;

/// The world of `FixedHost`. It is steady: each question has the outcome that a plain GCC gives.
pub struct Fixed;

impl World for Fixed {
    ghost use Rattle.std.specs.Prelude.{true};
    ghost use Rattle.cc_host.specs.Given.{default_outcome};

    ghost steady = { true };

    ghost answer = { λ q. default_outcome q.ask };
}

/// A host in memory that is given no outcome of a question. All else is as in `BenchHost`.
#[derive(Drop)]
pub struct FixedHost {
    bench: BenchHost,
}

impl Model for FixedHost {
    ghost Value = { BenchSeen };

    ghost view = { λ h. h.bench };

    ghost invariant = { λ h. h.bench.given ≡ [] };
}

impl FixedHost {
    /// A host as it is before anything is set on it. It takes no memory.
    pub fn new(alloc: Global) -> Mem<FixedHost>
        ensures { IfOk result (λ h. h ≡ fresh) }
    {
        Ok(FixedHost {
            bench: BenchHost::new(alloc)?,
        })
    }

    /// Scripts each command of the role that has the word, as its program or among its words. The script that was added
    /// last counts. Refused for memory, the host stays as it was.
    pub fn script(&mut self, role: Role, word: &str, script: Script) -> Mem<()>
        ensures ok { OnOk result (self.new ≡ with_script role word.now script self.old) }
        ensures err { OnErr result (self.new ≡ self.old) }
    {
        self.bench.script(role, word, script)
    }

    /// Makes each command of the program missing, scripted or not. Refused for memory, the host stays as it was.
    pub fn missing(&mut self, program: &str) -> Mem<()>
        ensures ok { OnOk result (self.new ≡ with_missing program.now self.old) }
        ensures err { OnErr result (self.new ≡ self.old) }
    {
        self.bench.missing(program)
    }

    /// Makes the nth call of the kind on this host, from 1, fault with `Why::Other`. Refused for memory, the host stays as it was.
    pub fn fail(&mut self, call: HostCall, nth: u64) -> Mem<()>
        ensures ok { OnOk result (self.new ≡ with_failure call nth self.old) }
        ensures err { OnErr result (self.new ≡ self.old) }
    {
        self.bench.fail(call, nth)
    }

    /// Puts a file at the path. Refused for memory, the host stays as it was.
    pub fn file(&mut self, path: &str) -> Mem<()>
        ensures ok { OnOk result (self.new ≡ with_file path.now self.old) }
        ensures err { OnErr result (self.new ≡ self.old) }
    {
        self.bench.file(path)
    }

    /// Gives the host its variables, in place of those that it had.
    pub fn set_vars(&mut self, vars: Vars)
        ensures { self.new ≡ record self.old { vars = vars } }
    {
        self.bench.set_vars(vars);
    }

    /// Whether the host listens from now on. At first it doesn't.
    pub fn set_listens(&mut self, on: bool)
        ensures { self.new ≡ record self.old { listens = on } }
    {
        self.bench.set_listens(on);
    }

    /// Gives the host the words that it draws, in order, in place of those that it had. After them it draws 0 for ever.
    pub fn set_random(&mut self, words: Vec<u64>)
        ensures { self.new ≡ record self.old { words = words.items } }
    {
        self.bench.set_random(words);
    }
}

impl Host<Fixed> for FixedHost {
    ghost log = { λ h. h.log };

    ghost faults = { λ h. h.faults };

    ghost patience = { λ h. patience_of h.scripts };

    ghost listens = { λ h. h.listens };

    ghost stands = { λ h. Some (λ path. has_file path h) };

    fn start(
        &mut self,
        role: Role,
        cmd: &Command,
        pipes: Pipes,
        held: u64,
    ) -> Result<Start, HostError> {
        self.bench.start(role, cmd, pipes, held)
    }

    fn turn(&mut self, rest_ms: u64) -> Result<Vec<News>, HostError> {
        self.bench.turn(rest_ms)
    }

    fn abandon(&mut self, id: u64) {
        self.bench.abandon(id);
    }

    fn probe(&mut self, q: &Question, files: &ProbeFiles) -> Mem<Outcome> {
        self.bench.probe(q, files)
    }

    fn reused(&mut self, q: &Question, verdict: &Verdict) -> Mem<()> {
        self.bench.reused(q, verdict)
    }

    fn unasked(&mut self, q: &Question) -> Mem<()> {
        self.bench.unasked(q)
    }

    fn exists(&mut self, path: &str) -> Mem<bool> {
        self.bench.exists(path)
    }

    fn create_probe(&mut self, path: &str, contents: &[u8]) -> Result<Created, HostError> {
        self.bench.create_probe(path, contents)
    }

    fn drop_probe(&mut self, path: &str) {
        self.bench.drop_probe(path);
    }

    fn random(&mut self) -> Mem<u64> {
        self.bench.random()
    }

    fn output(&mut self, role: Role, cmd: &Command, pipes: Pipes) -> Result<Ran, HostError> {
        self.bench.output(role, cmd, pipes)
    }

    fn make_dir(&mut self, scope: Scope, path: &str) -> Result<(), HostError> {
        self.bench.make_dir(scope, path)
    }

    fn write_file(&mut self, path: &str, contents: &[u8]) -> Result<(), HostError> {
        self.bench.write_file(path, contents)
    }

    fn copy_file(&mut self, from: &str, to: &str) -> Result<(), HostError> {
        self.bench.copy_file(from, to)
    }

    fn remove_file(&mut self, path: &str) -> Result<Removal, HostError> {
        self.bench.remove_file(path)
    }

    fn current_dir(&mut self) -> Result<Text, HostError> {
        self.bench.current_dir()
    }

    fn print(&mut self, kind: LineKind, bytes: &[u8]) -> Result<(), HostError> {
        self.bench.print(kind, bytes)
    }

    fn say(&mut self, message: &Message) -> Result<(), HostError> {
        self.bench.say(message)
    }

    fn vars(&mut self) -> Result<Vars, HostError> {
        self.bench.vars()
    }

    fn listens(&self) -> bool {
        self.bench.listens()
    }

    fn log(&self) -> &[Event] {
        self.bench.log()
    }
}
