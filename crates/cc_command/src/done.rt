// What a job came to, and how the program ends by it.
ghost use Rattle.std.specs.Prelude.{◌≡◌, ◌++◌, [], None};
ghost use Rattle.cc_host.specs.Call.{part};
ghost use Rattle.cc_tool.specs.Asked.{question_events};
ghost use Rattle.cc_command.specs.Answer.{told};
ghost use Rattle.cc_command.specs.Archived.{Says};

use crate::ended::{Ended, ended_done, refuse};
use cc_build::Error;
use cc_host::{BenchHost, Host, World};
use std::alloc::Global;

/// How a job ended, and the host in memory that it ran on, if it had one of its own.
#[derive(Drop)]
pub(crate) struct Done {
    pub result: Result<(), Error>,
    pub bench: Option<BenchHost>,
}

/// A job that ran on the host that was handed in.
pub(crate) fn plain(ran: Result<(), Error>) -> Done
    ensures same { result.result ≡ ran }
    ensures none { result.bench ≡ None }
{
    Done {
        result: ran,
        bench: None,
    }
}

// The end of a job, with the line of its error.
#[tactic(auto, using(cc_host::proofs::Parts::since_append))]
fn end<W: World, H: Host<W>>(alloc: Global, host: &mut H, ran: Result<(), Error>) -> Ended
    ensures extends { H.log host.new ≡ H.log host.old ++ part H.log host.old host.new }
    ensures asks_none { question_events (part H.log host.old host.new) ≡ [] }
    ensures says { Says ran (part H.log host.old host.new) result }
{
    match ran {
        Ok(()) => ended_done(),
        Err(error) => refuse(alloc, host, error),
    }
}

/// The end of the program behind a job, with the line of its error and its host in memory.
#[tactic(auto, using(cc_host::proofs::Parts::since_append))]
pub(crate) fn conclude<W: World, H: Host<W>>(alloc: Global, host: &mut H, done: Done) -> Ended
    ensures extends { H.log host.new ≡ H.log host.old ++ part H.log host.old host.new }
    ensures asks_none { question_events (part H.log host.old host.new) ≡ [] }
    ensures bench { result.bench ≡ done.bench }
    ensures says { Says done.result (part H.log host.old host.new) (told result) }
{
    let Done { result, bench } = done;
    let ended = end(alloc, host, result);
    Ended { bench, ..ended }
}
