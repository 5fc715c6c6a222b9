// A host: what runs commands, keeps files and prints. Each call appends to the host's log what it did.
ghost use Rattle.std.specs.Prelude.{◌≡◌, ◌≢◌, ◌≤◌, ◌∷◌, [], ◌++◌, List, ℕ, Bool, Option, true, IfOk, OnOk, IfErr, IfSome};
ghost use Rattle.std.specs.List.{flat_map, Contains};
ghost use Rattle.cc_host.specs.Call.{Keeps};
ghost use Rattle.cc_host.specs.Children.{running, IsFresh, IsNews, Waits};
ghost use Rattle.cc_host.specs.declared.event.Created.TheVariants.{Exists as Stands};
ghost use Rattle.cc_host.specs.declared.event.Event.{Event};
ghost use Rattle.cc_host.specs.declared.event.Event.TheVariants.{Abandoned, Dropped};
ghost use Rattle.cc_host.specs.declared.event.HostCall.TheVariants.{Start as Starts, Turn as Turns, Output, MakeDir, CreateProbe, Write, Copy, Remove, CurrentDir, Print, Say, Vars as ListsVars};
ghost use Rattle.cc_host.specs.declared.event.Why.{Why};
ghost use Rattle.cc_host.specs.declared.question.Ask.TheVariants.{Exists as AsksExists};
ghost use Rattle.cc_host.specs.declared.question.Outcome.TheVariants.{Unanswered};
ghost use Rattle.cc_host.specs.Event.{started, turned, refused, ran, probed, found, reused, unasked, drawn, created, made, wrote, copied, removed, told_here, printed, said, listed, apart, Rose, IsCaused, IsSilent};
ghost use Rattle.cc_host.specs.Journal.{AreJoined};
ghost use Rattle.cc_host.specs.Probe.{IsOpen, IsTidy};

use crate::{
    Command, Created, Event, HostError, LineKind, Message, News, Outcome, Pipes, ProbeFiles,
    Question, Ran, Removal, Role, Scope, Start, Verdict,
};
use cc_text::{Mem, Text, Vars};

/// Names the answers of a world.
pub trait World: Send + Sync {
    ghost use Rattle.std.specs.Prelude.{Bool};
    ghost use Rattle.cc_host.specs.declared.question.Question.{Question};
    ghost use Rattle.cc_host.specs.declared.question.Outcome.{Outcome};

    /// Whether each question has one outcome for ever.
    ghost steady: { Bool };

    /// The outcome of each question.
    ghost answer: { Question → Outcome };
}

/// What runs commands, keeps files and prints.
///
/// A refused call did nothing. It adds its fault to the log, or nothing where memory was refused. Two things are excepted: a command
/// that ran to its end, and whose end memory was wanting to keep, did run; and a file that couldn't be written whole may have a part
/// of its bytes, or none.
pub trait Host<W: World> {
    /// The events so far, oldest first.
    ghost log: { Self → List Event };

    /// How often the host has failed. It never falls.
    ghost faults: { Self → ℕ };

    /// How many turns a child runs through at most, where the host knows it.
    ghost patience: { Self → Option ℕ };

    /// Whether messages are said to the host. No call changes it.
    ghost listens: { Self → Bool };

    /// Which paths have a file, where the host tells.
    ghost stands: { Self → Option (List ℕ → Bool) };

    /// Starts a command, for a caller that holds so many tokens.
    fn start(
        &mut self,
        role: Role,
        cmd: &Command,
        pipes: Pipes,
        held: u64,
    ) -> Result<Start, HostError>
        ensures adds { log self.new ≡ log self.old ++ started role cmd.now pipes held result }
        ensures fresh { IfOk result (IsFresh (log self.old)) }
        ensures keeps { Keeps faults patience self.old self.new }
        ensures ear { listens self.new ≡ listens self.old }
        ensures cause { IfErr result (IsCaused Starts (faults self.old) (faults self.new)) };

    /// Lets every child that runs go on by a turn, and answers what each did in it, in start order; a child that did nothing has no
    /// item. A host in memory lets each child's script go one turn. A host over the machine answers what each child did since the turn
    /// before. A host may rest first, at most so many milliseconds.
    fn turn(&mut self, rest_ms: u64) -> Result<Vec<News>, HostError>
        ensures adds { IfOk result (λ news. log self.new ≡ log self.old ++ turned news.items) }
        ensures refuses { IfErr result (λ e. log self.new ≡ log self.old ++ refused e) }
        ensures news { IfOk result (λ news. IsNews (log self.old) news.items) }
        ensures keeps { Keeps faults patience self.old self.new }
        ensures ear { listens self.new ≡ listens self.old }
        ensures waits { OnOk result (Waits (patience self.new) (log self.new)) }
        ensures cause { IfErr result (IsCaused Turns (faults self.old) (faults self.new)) };

    /// Leaves a child alone that runs. It takes no memory and can't be refused.
    fn abandon(&mut self, id: u64)
        requires { Contains (running (log self.old)) id }
        ensures adds { log self.new ≡ log self.old ++ Abandoned id ∷ [] }
        ensures faultless { faults self.new ≡ faults self.old }
        ensures keeps { Keeps faults patience self.old self.new }
        ensures ear { listens self.new ≡ listens self.old };

    /// Asks a question by its command. One that couldn't be run for another cause than absence is unanswered.
    fn probe(&mut self, q: &Question, files: &ProbeFiles) -> Mem<Outcome>
        requires { q.now.ask ≢ AsksExists }
        ensures adds { (why : Why)
            × (log self.new ≡ log self.old ++ probed q.now files.now why result) }
        ensures steady { W.steady ≡ true
            → IfOk result (λ o. o ≢ Unanswered → o ≡ W.answer q.now) }
        ensures keeps { Keeps faults patience self.old self.new }
        ensures ear { listens self.new ≡ listens self.old }
        ensures cause { IfOk result
            (λ o. o ≡ Unanswered → Rose (faults self.old) (faults self.new)) };

    /// Notes that a question has a verdict from earlier.
    fn reused(&mut self, q: &Question, verdict: &Verdict) -> Mem<()>
        ensures adds { log self.new ≡ log self.old ++ reused q.now verdict.now result }
        ensures keeps { Keeps faults patience self.old self.new }
        ensures ear { listens self.new ≡ listens self.old };

    /// Notes that a question couldn't be asked.
    fn unasked(&mut self, q: &Question) -> Mem<()>
        ensures adds { log self.new ≡ log self.old ++ unasked q.now result }
        ensures keeps { Keeps faults patience self.old self.new }
        ensures ear { listens self.new ≡ listens self.old };

    /// Whether a file of this path is there. What can't be learned is not.
    fn exists(&mut self, path: &str) -> Mem<bool>
        ensures adds { log self.new ≡ log self.old ++ found path.now result }
        ensures keeps { Keeps faults patience self.old self.new }
        ensures ear { listens self.new ≡ listens self.old };

    /// Makes a probe file where none of that name stands, in one step.
    fn create_probe(&mut self, path: &str, contents: &[u8]) -> Result<Created, HostError>
        ensures adds { log self.new ≡ log self.old ++ created path.now contents.now result }
        ensures stands { IfOk result
            (λ c. c ≡ Stands → IfSome (stands self.old) (λ has. has path.now ≡ true)) }
        ensures keeps { Keeps faults patience self.old self.new }
        ensures ear { listens self.new ≡ listens self.old }
        ensures cause { IfErr result (IsCaused CreateProbe (faults self.old) (faults self.new)) };

    /// Drops a probe file that was made and not yet dropped. It takes no memory and ignores its own failure.
    fn drop_probe(&mut self, path: &str)
        requires { IsOpen path.now (log self.old) }
        ensures adds { log self.new ≡ log self.old ++ Dropped path.now ∷ [] }
        ensures keeps { Keeps faults patience self.old self.new }
        ensures ear { listens self.new ≡ listens self.old };

    /// Draws a word at random.
    fn random(&mut self) -> Mem<u64>
        ensures adds { log self.new ≡ log self.old ++ drawn result }
        ensures keeps { Keeps faults patience self.old self.new }
        ensures ear { listens self.new ≡ listens self.old };

    /// Runs a command to its end.
    fn output(&mut self, role: Role, cmd: &Command, pipes: Pipes) -> Result<Ran, HostError>
        ensures adds { log self.new ≡ log self.old ++ ran role cmd.now pipes result }
        ensures silent { IfOk result (IsSilent pipes) }
        ensures keeps { Keeps faults patience self.old self.new }
        ensures ear { listens self.new ≡ listens self.old }
        ensures cause { IfErr result (IsCaused Output (faults self.old) (faults self.new)) };

    /// Makes a folder and those above it. One that is there already is made too.
    fn make_dir(&mut self, scope: Scope, path: &str) -> Result<(), HostError>
        ensures adds { log self.new ≡ log self.old ++ made scope path.now result }
        ensures keeps { Keeps faults patience self.old self.new }
        ensures ear { listens self.new ≡ listens self.old }
        ensures cause { IfErr result
            (IsCaused (MakeDir scope) (faults self.old) (faults self.new)) };

    /// Writes a file: it has exactly these bytes then, in place of those that a file of this path had. Refused is one that can't be
    /// written, as where its folder isn't there, where it is a folder itself, or where its bytes don't fit.
    fn write_file(&mut self, path: &str, contents: &[u8]) -> Result<(), HostError>
        ensures adds { log self.new ≡ log self.old ++ wrote path.now contents.now result }
        ensures keeps { Keeps faults patience self.old self.new }
        ensures ear { listens self.new ≡ listens self.old }
        ensures cause { IfErr result (IsCaused Write (faults self.old) (faults self.new)) };

    /// Copies a file: the other has exactly its bytes then, in place of those that a file of that path had. Refused is one that can't be
    /// read or written.
    fn copy_file(&mut self, from: &str, to: &str) -> Result<(), HostError>
        ensures adds { log self.new ≡ log self.old ++ copied from.now to.now result }
        ensures keeps { Keeps faults patience self.old self.new }
        ensures ear { listens self.new ≡ listens self.old }
        ensures cause { IfErr result (IsCaused Copy (faults self.old) (faults self.new)) };

    /// Removes a file. One that isn't there is absent, which is no fault.
    fn remove_file(&mut self, path: &str) -> Result<Removal, HostError>
        ensures adds { log self.new ≡ log self.old ++ removed path.now result }
        ensures keeps { Keeps faults patience self.old self.new }
        ensures ear { listens self.new ≡ listens self.old }
        ensures cause { IfErr result (IsCaused Remove (faults self.old) (faults self.new)) };

    /// The folder that relative paths count from. Refused is one that can't be told, as where it is gone or isn't UTF-8.
    fn current_dir(&mut self) -> Result<Text, HostError>
        ensures adds { log self.new ≡ log self.old ++ told_here result }
        ensures keeps { Keeps faults patience self.old self.new }
        ensures ear { listens self.new ≡ listens self.old }
        ensures cause { IfErr result (IsCaused CurrentDir (faults self.old) (faults self.new)) };

    /// Prints bytes: a line with its line feed.
    fn print(&mut self, kind: LineKind, bytes: &[u8]) -> Result<(), HostError>
        ensures adds { log self.new ≡ log self.old ++ printed kind bytes.now result }
        ensures keeps { Keeps faults patience self.old self.new }
        ensures ear { listens self.new ≡ listens self.old }
        ensures cause { IfErr result (IsCaused Print (faults self.old) (faults self.new)) };

    /// Says a message to whoever listens at this host.
    fn say(&mut self, message: &Message) -> Result<(), HostError>
        ensures adds { log self.new ≡ log self.old ++ said message.now result }
        ensures keeps { Keeps faults patience self.old self.new }
        ensures ear { listens self.new ≡ listens self.old }
        ensures cause { IfErr result (IsCaused Say (faults self.old) (faults self.new)) };

    /// Lists the variables of the host's own environment.
    fn vars(&mut self) -> Result<Vars, HostError>
        ensures adds { log self.new ≡ log self.old ++ listed result }
        ensures keeps { Keeps faults patience self.old self.new }
        ensures ear { listens self.new ≡ listens self.old }
        ensures cause { IfErr result (IsCaused ListsVars (faults self.old) (faults self.new)) };

    /// Whether messages are said to this host.
    fn listens(&self) -> bool
        ensures { result ≡ listens self.now };

    /// The events so far, oldest first, lent. Turns one after another stand as one event with their sum; another is begun where that one's
    /// count is at its last value. No probe file was dropped more often than it was made. Where the host knows its patience, it is at
    /// least 1.
    fn log(&self) -> &[Event]
        ensures events { flat_map apart result.now ≡ log self.now }
        ensures joined { AreJoined result.now }
        ensures tidy { IsTidy (log self.now) }
        ensures least { IfSome (patience self.now) (λ most. 1 ≤ most) };
}
