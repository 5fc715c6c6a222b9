// A host in memory, as a host.
ghost use Rattle.std.specs.Prelude.{◌≡◌, ◌≢◌, ◌≤◌, [], ◌∷◌, ◌++◌, true, false, Some, IfOk, OnOk, OnErr, IfErr};
ghost use Rattle.std.specs.List.{Contains};
ghost use Rattle.std.specs.Result.{result_map_both};
ghost use Rattle.cc_host.specs.Children.{running, IsFresh, IsNews, Waits};
ghost use Rattle.cc_host.specs.declared.event.Created.TheVariants.{Exists as Stands};
ghost use Rattle.cc_host.specs.declared.event.Event.TheVariants.{Abandoned, Dropped};
ghost use Rattle.cc_host.specs.declared.event.HostCall.TheVariants.{Start as Starts, Turn as Turns, Output, MakeDir, CreateProbe, Write as Writes, Copy, Remove as Removes, CurrentDir, Print, Say, Vars as ListsVars};
ghost use Rattle.cc_host.specs.declared.event.Why.{Why};
ghost use Rattle.cc_host.specs.declared.question.Ask.TheVariants.{Exists as AsksExists};
ghost use Rattle.cc_host.specs.declared.question.Outcome.TheVariants.{Unanswered};
ghost use Rattle.cc_host.specs.Event.{started, turned, refused, ran, probed, found, reused, unasked, drawn, created, made, wrote, copied, removed, told_here, printed, said, listed, Rose, IsCaused, IsSilent};
ghost use Rattle.cc_host.specs.Probe.{IsOpen};
ghost use Rattle.cc_host.specs.Script.{patience_of};
ghost use Rattle.cc_host.specs.Given.{default_outcome};
ghost use Rattle.cc_host.specs.Bench.{KeepsBench, has_file, answer_to, current_folder, creation_of, removal_of, removed_at, with_probe, with_file, without_path, left_alone, drawn_from, next_word, probe_outcome, probe_after, Answers, Replies, IsStart, IsTurn, Gives, IsPlain, plain_end, IsPlainStart, IsPlainTurn};

use crate::bench::take_word;
use crate::script::has_word;
use crate::{
    BenchHost, Boxed, Command, Created, Event, Host, HostCall, HostError, Line, LineKind, Message,
    News, Outcome, Pipes, ProbeFiles, Question, Ran, Removal, Role, Scope, Start, Verdict, World,
};
use cc_text::{Mem, Text, Vars};

/// The world of `BenchHost`. It isn't steady: what a question comes to differs from host to host.
pub struct Bench;

impl World for Bench {
    ghost use Rattle.std.specs.Prelude.{false};
    ghost use Rattle.cc_host.specs.Given.{default_outcome};

    ghost steady = { false };

    ghost answer = { λ q. default_outcome q.ask };
}

impl Host<Bench> for BenchHost {
    ghost log = { λ h. h.log };

    ghost faults = { λ h. h.faults };

    ghost patience = { λ h. patience_of h.scripts };

    ghost listens = { λ h. h.listens };

    ghost stands = { λ h. Some (λ path. has_file path h) };

    fn start(
        &mut self,
        role: Role,
        cmd: &Command,
        pipes: Pipes,
        held: u64,
    ) -> Result<Start, HostError>
        ensures adds { self.new.log ≡ self.old.log ++ started role cmd.now pipes held result }
        ensures fresh { IfOk result (IsFresh self.old.log) }
        ensures keeps { KeepsBench self.old self.new }
        ensures ear { self.new.listens ≡ self.old.listens }
        ensures cause { IfErr result (IsCaused Starts self.old.faults self.new.faults) }
        ensures answers { IsStart role cmd.now self.old self.new result }
        ensures plain { IsPlain self.old → IsPlain self.new × IsPlainStart result }
    {
        if self.fails_next(HostCall::Start) {
            return Err(self.fault(HostCall::Start));
        }
        if has_word(&self.missing, cmd.get_program()) {
            let cmd = cmd.try_clone()?;
            self.add_call(HostCall::Start, Event::Missing { role, cmd })?;
            return Ok(Start::Missing);
        }
        let id = self.start_child(role, cmd, pipes, held)?;
        Ok(Start::Child(id))
    }

    fn turn(&mut self, _rest_ms: u64) -> Result<Vec<News>, HostError>
        ensures adds { IfOk result (λ news. self.new.log ≡ self.old.log ++ turned news.items) }
        ensures refuses { IfErr result (λ e. self.new.log ≡ self.old.log ++ refused e) }
        ensures news { IfOk result (λ news. IsNews self.old.log news.items) }
        ensures keeps { KeepsBench self.old self.new }
        ensures ear { self.new.listens ≡ self.old.listens }
        ensures waits { OnOk result (Waits (patience_of self.new.scripts) self.new.log) }
        ensures cause { IfErr result (IsCaused Turns self.old.faults self.new.faults) }
        ensures answers { IsTurn self.old self.new
            (result_map_both (λ news. news.items) (λ e. e) result) }
        ensures plain { IsPlain self.old
            → IsPlain self.new
            × IsPlainTurn (result_map_both (λ news. news.items) (λ e. e) result) }
    {
        if self.fails_next(HostCall::Turn) {
            return Err(self.fault(HostCall::Turn));
        }
        let news = self.journal.turn(&self.scripts)?;
        self.made.count(HostCall::Turn);
        Ok(news)
    }

    fn abandon(&mut self, id: u64)
        requires { Contains (running self.old.log) id }
        ensures adds { self.new.log ≡ self.old.log ++ Abandoned id ∷ [] }
        ensures faultless { self.new.faults ≡ self.old.faults }
        ensures keeps { KeepsBench self.old self.new }
        ensures ear { self.new.listens ≡ self.old.listens }
        ensures after { self.new ≡ record (left_alone id self.old) { log = self.new.log } }
    {
        let _ = self.journal.abandon(id);
    }

    fn probe(&mut self, q: &Question, files: &ProbeFiles) -> Mem<Outcome>
        requires { q.now.ask ≢ AsksExists }
        ensures adds { (why : Why)
            × (self.new.log ≡ self.old.log ++ probed q.now files.now why result) }
        ensures steady { false ≡ true
            → IfOk result (λ o. o ≢ Unanswered → o ≡ default_outcome q.now.ask) }
        ensures keeps { KeepsBench self.old self.new }
        ensures ear { self.new.listens ≡ self.old.listens }
        ensures cause { IfOk result
            (λ o. o ≡ Unanswered → Rose self.old.faults self.new.faults) }
        ensures answers { Replies (probe_outcome self.old q.now) (probe_after self.old)
            self.old self.new result }
        ensures plain { IsPlain self.old
            → IsPlain self.new × IfOk result (λ o. o ≢ Unanswered) }
        ensures default { self.old.given ≡ []
            → IfOk result (λ o. o ≢ Unanswered → o ≡ default_outcome q.now.ask) }
    {
        if self.fails_next(HostCall::Probe) {
            self.fail_probe(q, files)?;
            return Ok(Outcome::Unanswered);
        }
        let outcome = self.answer_probe(q, files)?;
        Ok(outcome)
    }

    fn reused(&mut self, q: &Question, verdict: &Verdict) -> Mem<()>
        ensures adds { self.new.log ≡ self.old.log ++ reused q.now verdict.now result }
        ensures keeps { KeepsBench self.old self.new }
        ensures ear { self.new.listens ≡ self.old.listens }
        ensures answers { Replies tt self.old self.old self.new result }
    {
        let question = Boxed::new(self.alloc, q.try_clone()?)?;
        let verdict = verdict.try_clone()?;
        self.add(Event::Reused { question, verdict })?;
        Ok(())
    }

    fn unasked(&mut self, q: &Question) -> Mem<()>
        ensures adds { self.new.log ≡ self.old.log ++ unasked q.now result }
        ensures keeps { KeepsBench self.old self.new }
        ensures ear { self.new.listens ≡ self.old.listens }
        ensures answers { Replies tt self.old self.old self.new result }
    {
        let question = Boxed::new(self.alloc, q.try_clone()?)?;
        self.add(Event::Unasked { question })?;
        Ok(())
    }

    fn exists(&mut self, path: &str) -> Mem<bool>
        ensures adds { self.new.log ≡ self.old.log ++ found path.now result }
        ensures keeps { KeepsBench self.old self.new }
        ensures ear { self.new.listens ≡ self.old.listens }
        ensures answers { Replies (has_file path.now self.old) self.old self.old self.new result }
    {
        let there = self.look_for(path)?;
        Ok(there)
    }

    fn create_probe(&mut self, path: &str, contents: &[u8]) -> Result<Created, HostError>
        ensures adds { self.new.log ≡ self.old.log ++ created path.now contents.now result }
        ensures stands { IfOk result (λ c. c ≡ Stands → has_file path.now self.old ≡ true) }
        ensures keeps { KeepsBench self.old self.new }
        ensures ear { self.new.listens ≡ self.old.listens }
        ensures cause { IfErr result (IsCaused CreateProbe self.old.faults self.new.faults) }
        ensures answers { Answers CreateProbe (creation_of path.now self.old)
            (with_probe path.now self.old)
            self.old self.new result }
        ensures plain { IsPlain self.old
            → IsPlain self.new × Gives (creation_of path.now self.old) result }
    {
        if self.fails_next(HostCall::CreateProbe) {
            return Err(self.fault(HostCall::CreateProbe));
        }
        if self.has_file(path) {
            let path = Text::of(self.alloc, path)?;
            self.add_call(HostCall::CreateProbe, Event::Taken { path })?;
            return Ok(Created::Exists);
        }
        self.open_probe(path, contents)?;
        Ok(Created::New)
    }

    fn drop_probe(&mut self, path: &str)
        requires { IsOpen path.now self.old.log }
        ensures adds { self.new.log ≡ self.old.log ++ Dropped path.now ∷ [] }
        ensures keeps { KeepsBench self.old self.new }
        ensures ear { self.new.listens ≡ self.old.listens }
        ensures after { self.new
            ≡ record (without_path path.now self.old) { log = self.new.log } }
    {
        self.journal.note_dropped(path);
        self.forget(path);
    }

    fn random(&mut self) -> Mem<u64>
        ensures adds { self.new.log ≡ self.old.log ++ drawn result }
        ensures keeps { KeepsBench self.old self.new }
        ensures ear { self.new.listens ≡ self.old.listens }
        ensures answers { Replies (next_word self.old.words) (drawn_from self.old)
            self.old self.new result }
    {
        self.journal.reserve(1)?;
        let word = take_word(&mut self.words);
        self.journal.note(Event::Drawn { word });
        Ok(word)
    }

    fn output(&mut self, role: Role, cmd: &Command, pipes: Pipes) -> Result<Ran, HostError>
        ensures adds { self.new.log ≡ self.old.log ++ ran role cmd.now pipes result }
        ensures silent { IfOk result (IsSilent pipes) }
        ensures keeps { KeepsBench self.old self.new }
        ensures ear { self.new.listens ≡ self.old.listens }
        ensures cause { IfErr result (IsCaused Output self.old.faults self.new.faults) }
        ensures answers { Answers Output (answer_to self.old role cmd.now pipes)
            self.old self.old self.new result }
        ensures plain { IsPlain self.old → IsPlain self.new × Gives plain_end result }
    {
        if self.fails_next(HostCall::Output) {
            return Err(self.fault(HostCall::Output));
        }
        let cmd = cmd.try_clone()?;
        if has_word(&self.missing, cmd.get_program()) {
            self.add_call(HostCall::Output, Event::Missing { role, cmd })?;
            return Ok(Ran::Missing);
        }
        let end = self.run_script(role, cmd, pipes)?;
        Ok(end)
    }

    fn make_dir(&mut self, scope: Scope, path: &str) -> Result<(), HostError>
        ensures adds { self.new.log ≡ self.old.log ++ made scope path.now result }
        ensures keeps { KeepsBench self.old self.new }
        ensures ear { self.new.listens ≡ self.old.listens }
        ensures cause { IfErr result (IsCaused (MakeDir scope) self.old.faults self.new.faults) }
        ensures answers { Answers (MakeDir scope) tt self.old self.old self.new result }
        ensures plain { IsPlain self.old → IsPlain self.new × Gives tt result }
    {
        if self.fails_next(HostCall::MakeDir(scope)) {
            return Err(self.fault(HostCall::MakeDir(scope)));
        }
        let path = Text::of(self.alloc, path)?;
        self.add_call(HostCall::MakeDir(scope), Event::Made { scope, path })?;
        Ok(())
    }

    fn write_file(&mut self, path: &str, contents: &[u8]) -> Result<(), HostError>
        ensures adds { self.new.log ≡ self.old.log ++ wrote path.now contents.now result }
        ensures keeps { KeepsBench self.old self.new }
        ensures ear { self.new.listens ≡ self.old.listens }
        ensures cause { IfErr result (IsCaused Writes self.old.faults self.new.faults) }
        ensures answers { Answers Writes tt (with_file path.now self.old)
            self.old self.new result }
        ensures plain { IsPlain self.old → IsPlain self.new × Gives tt result }
    {
        if self.fails_next(HostCall::Write) {
            return Err(self.fault(HostCall::Write));
        }
        self.put_file(path, contents)?;
        Ok(())
    }

    fn copy_file(&mut self, from: &str, to: &str) -> Result<(), HostError>
        ensures adds { self.new.log ≡ self.old.log ++ copied from.now to.now result }
        ensures keeps { KeepsBench self.old self.new }
        ensures ear { self.new.listens ≡ self.old.listens }
        ensures cause { IfErr result (IsCaused Copy self.old.faults self.new.faults) }
        ensures answers { Answers Copy tt (with_file to.now self.old) self.old self.new result }
        ensures plain { IsPlain self.old → IsPlain self.new × Gives tt result }
    {
        if self.fails_next(HostCall::Copy) {
            return Err(self.fault(HostCall::Copy));
        }
        self.put_copy(from, to)?;
        Ok(())
    }

    fn remove_file(&mut self, path: &str) -> Result<Removal, HostError>
        ensures adds { self.new.log ≡ self.old.log ++ removed path.now result }
        ensures keeps { KeepsBench self.old self.new }
        ensures ear { self.new.listens ≡ self.old.listens }
        ensures cause { IfErr result (IsCaused Removes self.old.faults self.new.faults) }
        ensures answers { Answers Removes (removal_of path.now self.old)
            (without_path path.now self.old)
            self.old self.new result }
        ensures plain { IsPlain self.old
            → IsPlain self.new × Gives (removal_of path.now self.old) result }
    {
        if self.fails_next(HostCall::Remove) {
            return Err(self.fault(HostCall::Remove));
        }
        let name = Text::of(self.alloc, path)?;
        let how = removed_at(self.has_file(path));
        self.add_call(HostCall::Remove, Event::Removed { path: name, how })?;
        self.forget(path);
        Ok(how)
    }

    fn current_dir(&mut self) -> Result<Text, HostError>
        ensures adds { self.new.log ≡ self.old.log ++ told_here result }
        ensures keeps { KeepsBench self.old self.new }
        ensures ear { self.new.listens ≡ self.old.listens }
        ensures cause { IfErr result (IsCaused CurrentDir self.old.faults self.new.faults) }
        ensures answers { Answers CurrentDir current_folder self.old self.old self.new result }
        ensures plain { IsPlain self.old → IsPlain self.new × Gives current_folder result }
    {
        if self.fails_next(HostCall::CurrentDir) {
            return Err(self.fault(HostCall::CurrentDir));
        }
        let here = Text::of(self.alloc, "/w")?;
        let path = Text::of(self.alloc, "/w")?;
        self.add_call(HostCall::CurrentDir, Event::Here { path })?;
        Ok(here)
    }

    fn print(&mut self, kind: LineKind, bytes: &[u8]) -> Result<(), HostError>
        ensures adds { self.new.log ≡ self.old.log ++ printed kind bytes.now result }
        ensures keeps { KeepsBench self.old self.new }
        ensures ear { self.new.listens ≡ self.old.listens }
        ensures cause { IfErr result (IsCaused Print self.old.faults self.new.faults) }
        ensures answers { Answers Print tt self.old self.old self.new result }
        ensures plain { IsPlain self.old → IsPlain self.new × Gives tt result }
    {
        if self.fails_next(HostCall::Print) {
            return Err(self.fault(HostCall::Print));
        }
        let bytes = Line::of(self.alloc, bytes)?;
        self.add_call(HostCall::Print, Event::Printed { kind, bytes })?;
        Ok(())
    }

    fn say(&mut self, message: &Message) -> Result<(), HostError>
        ensures adds { self.new.log ≡ self.old.log ++ said message.now result }
        ensures keeps { KeepsBench self.old self.new }
        ensures ear { self.new.listens ≡ self.old.listens }
        ensures cause { IfErr result (IsCaused Say self.old.faults self.new.faults) }
        ensures answers { Answers Say tt self.old self.old self.new result }
        ensures plain { IsPlain self.old → IsPlain self.new × Gives tt result }
    {
        if self.fails_next(HostCall::Say) {
            return Err(self.fault(HostCall::Say));
        }
        let message = Boxed::new(self.alloc, message.try_clone()?)?;
        self.add_call(HostCall::Say, Event::Said { message })?;
        Ok(())
    }

    fn vars(&mut self) -> Result<Vars, HostError>
        ensures adds { self.new.log ≡ self.old.log ++ listed result }
        ensures keeps { KeepsBench self.old self.new }
        ensures ear { self.new.listens ≡ self.old.listens }
        ensures cause { IfErr result (IsCaused ListsVars self.old.faults self.new.faults) }
        ensures answers { Answers ListsVars self.old.vars self.old self.old self.new result }
        ensures plain { IsPlain self.old → IsPlain self.new × Gives self.old.vars result }
    {
        if self.fails_next(HostCall::Vars) {
            return Err(self.fault(HostCall::Vars));
        }
        let answer = self.vars.try_clone()?;
        let vars = self.vars.try_clone()?;
        self.add_call(HostCall::Vars, Event::Listed { vars })?;
        Ok(answer)
    }

    fn listens(&self) -> bool {
        self.listens
    }

    fn log(&self) -> &[Event] {
        self.journal.events()
    }
}

fn removed_at(there: bool) -> Removal
    ensures { result ≡ removed_at there }
{
    if there {
        Removal::Gone
    } else {
        Removal::Absent
    }
}
