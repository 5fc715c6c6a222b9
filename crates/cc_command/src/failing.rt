// The last failure of a run, read off the log of its host.
ghost use Rattle.std.specs.Prelude.{◌≡◌, MatchOption, IfOk, OnOk};
ghost use Rattle.cc_command.specs.Failing.{command_of, without, unwatched, watched, failure_by, failed_last, IsNone, IsFirst};

use cc_host::{Command, Event, Status};
use cc_text::Mem;
use std::alloc::Global;
use std::marker::Model;

/// A command that failed.
#[derive(Drop)]
pub(crate) struct Failure {
    /// How it ended.
    pub status: Status,
    /// The command.
    pub cmd: Command,
}

// The commands that run, each behind the number of its child, and the last that failed.
#[derive(Drop)]
struct Watch {
    running: Vec<(u64, Command)>,
    last: Option<Failure>,
}

impl Model for Watch {
    ghost use Rattle.cc_command.specs.Failing.{Watched};

    ghost Value = { Watched };

    ghost view = { λ w. record { running = w.running.items; last = w.last } };
}

// Where the first child of that number stands.
#[tactic(auto, using(crate::proofs::FailingLaws::command_here, crate::proofs::FailingLaws::rest_here, crate::proofs::FailingLaws::command_on, crate::proofs::FailingLaws::rest_on))]
fn find(running: &[(u64, Command)], id: u64) -> Option<usize>
    ensures { MatchOption result (IsNone id running.now) (IsFirst id running.now) }
{
    for (at, child) in running.iter().enumerate() {
        if child.0 == id {
            return Some(at);
        }
    }
    None
}

// Takes the first child of that number out, and gives its command.
fn take(running: &mut Vec<(u64, Command)>, id: u64) -> Option<Command>
    ensures command { result ≡ command_of id running.old.items }
    ensures rest { running.new.items ≡ without id running.old.items }
{
    let at = find(running, id)?;
    let (_, cmd) = running.remove(at);
    Some(cmd)
}

impl Watch {
    fn new(alloc: Global) -> Watch
        ensures { result ≡ unwatched }
    {
        Watch {
            running: Vec::new(alloc),
            last: None,
        }
    }

    // A child ended. It is one of these, or somebody else's.
    fn end(&mut self, id: u64, status: Status)
        ensures { self.new ≡ record {
          running = without id self.old.running;
          last = failure_by status (command_of id self.old.running) self.old.last;
        } }
    {
        let ended = take(&mut self.running, id);
        if !status.is_success() {
            if let Some(cmd) = ended {
                self.last = Some(Failure { status, cmd });
            }
        }
    }

    // Where the host lists its variables, what was before counts no more.
    fn note(&mut self, alloc: Global, event: &Event) -> Mem<()>
        ensures { OnOk result (self.new ≡ watched self.old event.now) }
    {
        match event {
            Event::Listed { .. } => *self = Watch::new(alloc),
            Event::Started { id, cmd, .. } => self.running.push((*id, cmd.try_clone()?))?,
            Event::Ended { id, status } => self.end(*id, *status),
            _ => {}
        }
        Ok(())
    }
}

/// The command that failed last, of those that were started since the host listed its variables.
pub(crate) fn last_failure(alloc: Global, log: &[Event]) -> Mem<Option<Failure>>
    ensures { IfOk result (λ failure. failure ≡ failed_last log.now) }
{
    let mut watch = Watch::new(alloc);
    for event in log {
        watch.note(alloc, event)?;
    }
    Ok(watch.last)
}
