// A host whose messages a logger hears.
ghost use Rattle.std.specs.Prelude.{◌≡◌, true};

use crate::message::{extra_of, kind_of, text_of};
use crate::{BuildMessage, BuildMessageLogger};
use cc_host::{
    Command, Created, Event, Host, HostError, LineKind, Message, News, Outcome, Pipes, ProbeFiles,
    Question, Ran, Removal, Role, Scope, Start, Verdict, World,
};
use cc_text::{Mem, Text, Vars};
use std::marker::{Model, PhantomData};

/// A host that listens: its logger hears each message that is said to it, and then the host inside is said it too. All
/// other calls are those of the host inside. Contracts see that host.
#[derive(Drop)]
pub struct Logged<W: World, H: Host<W>, L: BuildMessageLogger> {
    host: H,
    logger: L,
    of: PhantomData<W>,
}

impl<W: World, H: Host<W>, L: BuildMessageLogger> Model for Logged<W, H, L> {
    ghost Value = { H };

    ghost view = { λ l. l.host };
}

impl<W: World, H: Host<W>, L: BuildMessageLogger> Logged<W, H, L> {
    /// The host, with a logger. It takes no memory.
    pub fn new(host: H, logger: L) -> Self
        ensures { result ≡ host }
    {
        Logged {
            host,
            logger,
            of: PhantomData,
        }
    }

    /// The host inside, with its log. The logger is dropped.
    pub fn into_inner(self) -> H
        ensures { result ≡ self }
    {
        self.host
    }
}

// Has a logger hear a message.
fn tell<L: BuildMessageLogger>(logger: &L, message: &Message) -> Mem<()> {
    let extra = extra_of(message)?;
    let text = BuildMessage::Str(text_of(message));
    logger.log(kind_of(message), text, &extra)
}

impl<W: World, H: Host<W>, L: BuildMessageLogger> Host<W> for Logged<W, H, L> {
    ghost log = { λ l. H.log l };

    ghost faults = { λ l. H.faults l };

    ghost patience = { λ l. H.patience l };

    ghost listens = { λ _. true };

    ghost stands = { λ l. H.stands l };

    fn start(
        &mut self,
        role: Role,
        cmd: &Command,
        pipes: Pipes,
        held: u64,
    ) -> Result<Start, HostError> {
        self.host.start(role, cmd, pipes, held)
    }

    fn turn(&mut self, rest_ms: u64) -> Result<Vec<News>, HostError> {
        self.host.turn(rest_ms)
    }

    fn abandon(&mut self, id: u64) {
        self.host.abandon(id);
    }

    fn probe(&mut self, q: &Question, files: &ProbeFiles) -> Mem<Outcome> {
        self.host.probe(q, files)
    }

    fn reused(&mut self, q: &Question, verdict: &Verdict) -> Mem<()> {
        self.host.reused(q, verdict)
    }

    fn unasked(&mut self, q: &Question) -> Mem<()> {
        self.host.unasked(q)
    }

    fn exists(&mut self, path: &str) -> Mem<bool> {
        self.host.exists(path)
    }

    fn create_probe(&mut self, path: &str, contents: &[u8]) -> Result<Created, HostError> {
        self.host.create_probe(path, contents)
    }

    fn drop_probe(&mut self, path: &str) {
        self.host.drop_probe(path);
    }

    fn random(&mut self) -> Mem<u64> {
        self.host.random()
    }

    fn output(&mut self, role: Role, cmd: &Command, pipes: Pipes) -> Result<Ran, HostError> {
        self.host.output(role, cmd, pipes)
    }

    fn make_dir(&mut self, scope: Scope, path: &str) -> Result<(), HostError> {
        self.host.make_dir(scope, path)
    }

    fn write_file(&mut self, path: &str, contents: &[u8]) -> Result<(), HostError> {
        self.host.write_file(path, contents)
    }

    fn copy_file(&mut self, from: &str, to: &str) -> Result<(), HostError> {
        self.host.copy_file(from, to)
    }

    fn remove_file(&mut self, path: &str) -> Result<Removal, HostError> {
        self.host.remove_file(path)
    }

    fn current_dir(&mut self) -> Result<Text, HostError> {
        self.host.current_dir()
    }

    fn print(&mut self, kind: LineKind, bytes: &[u8]) -> Result<(), HostError> {
        self.host.print(kind, bytes)
    }

    // The logger hears the message first. Where it is refused for memory then, the host inside is as before.
    fn say(&mut self, message: &Message) -> Result<(), HostError> {
        tell(&self.logger, message)?;
        self.host.say(message)
    }

    fn vars(&mut self) -> Result<Vars, HostError> {
        self.host.vars()
    }

    fn listens(&self) -> bool {
        true
    }

    fn log(&self) -> &[Event] {
        self.host.log()
    }
}
