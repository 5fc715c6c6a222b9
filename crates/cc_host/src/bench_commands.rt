// What a host in memory does with commands and files.
ghost use Rattle.std.specs.Prelude.{◌≡◌, ◌++◌, ◌∷◌, [], Ok, IfOk, OnOk, OnErr};
ghost use Rattle.cc_host.specs.declared.event.Event.TheVariants.{Started, Opened, Wrote, Copied};
ghost use Rattle.cc_host.specs.declared.event.HostCall.TheVariants.{Output, CreateProbe, Write, Copy};
ghost use Rattle.cc_host.specs.declared.event.Ran.TheVariants.{Done};
ghost use Rattle.cc_host.specs.declared.event.Start.TheVariants.{Child};
ghost use Rattle.cc_host.specs.Children.{IsFresh};
ghost use Rattle.cc_host.specs.Event.{is_captured, ran};
ghost use Rattle.cc_host.specs.Bench.{ends_as, Begins, called, with_file};

use crate::{
    BenchHost, Boxed, Command, Event, HostCall, OutputKind, Pipes, Ran, Role, Status, script,
};
use cc_text::{Bytes, Mem, Text};

// Whether the standard output of a command is kept.
fn is_captured(out: OutputKind) -> bool
    ensures { result ≡ is_captured out }
{
    match out {
        OutputKind::Capture => true,
        OutputKind::Forward => false,
        OutputKind::Discard => false,
    }
}

impl BenchHost {
    // How a command ends whose program is there, with what is kept of its standard output and of its standard error.
    fn script_end(&self, role: Role, cmd: &Command, pipes: Pipes) -> Mem<(Status, Bytes, Bytes)>
        ensures { IfOk result
            (λ end. Done end.0 end.1 end.2 ≡ ends_as self.now role cmd.now pipes) }
    {
        let captured = is_captured(pipes.out);
        let found = script::script_for(&self.scripts, role, cmd);
        let out = script::out_of(self.alloc, captured, found)?;
        let err = script::err_of(self.alloc, captured, pipes.hear, found)?;
        Ok((script::status_of(found), out, err))
    }

    // Adds the event of a command that ended so, and counts the call.
    fn note_ran(
        &mut self,
        role: Role,
        cmd: Command,
        pipes: Pipes,
        status: Status,
        out: &Bytes,
        err: &Bytes,
    ) -> Mem<()>
        ensures ok { OnOk result (self.new
            ≡ called Output (ran role cmd pipes (Ok (Done status out.now err.now))) self.old) }
        ensures err { OnErr result (self.new ≡ self.old) }
    {
        let out = Boxed::new(self.alloc, out.try_clone()?)?;
        let err = Boxed::new(self.alloc, err.try_clone()?)?;
        let event = Event::Ran {
            role,
            cmd,
            pipes,
            status,
            out,
            err,
        };
        self.add_call(HostCall::Output, event)
    }

    // Runs a command to its end whose program is there.
    pub(crate) fn run_script(&mut self, role: Role, cmd: Command, pipes: Pipes) -> Mem<Ran>
        ensures is { IfOk result (λ r. r ≡ ends_as self.old role cmd pipes) }
        ensures ok { OnOk result (self.new
            ≡ called Output (ran role cmd pipes (Ok (ends_as self.old role cmd pipes)))
            self.old) }
        ensures err { OnErr result (self.new ≡ self.old) }
    {
        let (status, out, err) = self.script_end(role, &cmd, pipes)?;
        self.note_ran(role, cmd, pipes, status, &out, &err)?;
        Ok(Ran::Done { status, out, err })
    }

    // Starts a child of a program that is there.
    pub(crate) fn start_child(
        &mut self,
        role: Role,
        cmd: &Command,
        pipes: Pipes,
        held: u64,
    ) -> Mem<u64>
        ensures log { IfOk result (λ id. self.new.log
            ≡ self.old.log ++ Started id role cmd.now pipes held ∷ []) }
        ensures fresh { IfOk result (λ id. IsFresh self.old.log (Child id)) }
        ensures ok { IfOk result (λ id. Begins cmd.now role id self.old self.new) }
        ensures err { OnErr result (self.new ≡ self.old) }
    {
        let place = script::place_for(&self.scripts, role, cmd);
        let command = cmd.try_clone()?;
        self.journal.reserve_child()?;
        let id = self.journal.note_child(role, command, pipes, held, place);
        script::note_start(&mut self.scripts, cmd);
        self.made.count(HostCall::Start);
        Ok(id)
    }

    // Makes a probe file where none stands.
    pub(crate) fn open_probe(&mut self, path: &str, contents: &[u8]) -> Mem<()>
        ensures ok { OnOk result (self.new
            ≡ called CreateProbe (Opened path.now contents.now ∷ [])
            (with_file path.now self.old)) }
        ensures err { OnErr result (self.new ≡ self.old) }
    {
        let name = Text::of(self.alloc, path)?;
        let kept = Text::of(self.alloc, path)?;
        let file = Text::of(self.alloc, path)?;
        let bytes = Bytes::of(self.alloc, contents)?;
        self.journal.reserve_probe()?;
        self.files.push(file)?;
        self.journal.note_opened(name, kept, bytes);
        self.made.count(HostCall::CreateProbe);
        Ok(())
    }

    // Writes a file, whether one stands there or not.
    pub(crate) fn put_file(&mut self, path: &str, contents: &[u8]) -> Mem<()>
        ensures ok { OnOk result (self.new
            ≡ called Write (Wrote path.now contents.now ∷ []) (with_file path.now self.old)) }
        ensures err { OnErr result (self.new ≡ self.old) }
    {
        let name = Text::of(self.alloc, path)?;
        let file = Text::of(self.alloc, path)?;
        let bytes = Bytes::of(self.alloc, contents)?;
        self.journal.reserve(1)?;
        self.files.push(file)?;
        self.journal.note(Event::Wrote { path: name, bytes });
        self.made.count(HostCall::Write);
        Ok(())
    }

    // Copies a file, whether one stands at the other path or not.
    pub(crate) fn put_copy(&mut self, from: &str, to: &str) -> Mem<()>
        ensures ok { OnOk result
            (self.new ≡ called Copy (Copied from.now to.now ∷ []) (with_file to.now self.old)) }
        ensures err { OnErr result (self.new ≡ self.old) }
    {
        let source = Text::of(self.alloc, from)?;
        let name = Text::of(self.alloc, to)?;
        let file = Text::of(self.alloc, to)?;
        self.journal.reserve(1)?;
        self.files.push(file)?;
        self.journal.note(Event::Copied {
            from: source,
            to: name,
        });
        self.made.count(HostCall::Copy);
        Ok(())
    }
}
