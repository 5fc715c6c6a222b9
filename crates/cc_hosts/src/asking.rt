// A question as a child of this process, and what it comes to.
ghost use Rattle.std.specs.Prelude.{◌≡◌, ◌≢◌, true, IfOk};
ghost use Rattle.cc_host.specs.declared.question.Ask.TheVariants.{Exists as AsksExists};
ghost use Rattle.cc_host.specs.Given.{is_answered};
ghost use Rattle.cc_host.specs.declared.question.Outcome.TheVariants.{Done};
ghost use Rattle.cc_hosts.specs.Child.{IsKnownEnd};

use crate::child::{self, Ended, Streams};
use crate::learned::Learned;
use cc_host::{Outcome, OutputKind, Pipes, ProbeFiles, Question, Why, probe_command};
use cc_text::Mem;
use std::alloc::Global;
use std::env::Env;
use std::process::Processes;
use std::rt::Files;
use std::sync::Wait;

/// The pipes of the command of a question: all that it writes is kept.
pub const KEPT: Pipes = Pipes {
    out: OutputKind::Capture,
    hear: true,
};

/// Runs the command of a question to its end.
pub fn ask<R: Processes + Files + Env + Wait + AllocGlobal>(
    alloc: Global,
    rt: &R,
    q: &Question,
    files: &ProbeFiles,
    streams: Streams,
    learned: &mut Learned,
) -> Mem<child::Outcome>
    requires { q.now.ask ≢ AsksExists }
{
    let cmd = probe_command(alloc, q, files)?;
    child::run(rt, &cmd, streams, learned)
}

/// What a question comes to by the end of its command, and a second outcome that equals it; or why it isn't answered, as where another process holds an
/// output on, which may still be written.
pub fn outcome_of(end: child::Outcome) -> Mem<Result<(Outcome, Outcome), Why>>
    ensures twice { IfOk result (λ r. IfOk r (λ p. (p.0 ≡ p.1) × (is_answered p.0 ≡ true))) }
    ensures known { IfOk result (λ r. IfOk r (λ _. IsKnownEnd end)) }
{
    match end {
        child::Outcome::Missing => Ok(Ok((Outcome::Missing, Outcome::Missing))),
        child::Outcome::Failed(why) | child::Outcome::Lost(_, why) => Ok(Err(why)),
        child::Outcome::Unread(_) => Ok(Err(Why::Other)),
        child::Outcome::Ended(end) => {
            let copy = end.try_clone()?;
            Ok(Ok((done(end), done(copy))))
        }
    }
}

fn done(end: Ended) -> Outcome
    ensures { result ≡ Done end.status end.out end.err }
{
    Outcome::Done {
        status: end.status,
        out: end.out,
        err: end.err,
    }
}
