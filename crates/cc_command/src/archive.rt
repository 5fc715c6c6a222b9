// An archive alone: its library, and how Cargo links it.
ghost use Rattle.std.specs.Prelude.{◌≡◌, ◌++◌, true};
ghost use Rattle.cc_host.specs.Call.{part};
ghost use Rattle.cc_command.specs.Archived.{Archiving};
ghost use Rattle.cc_command.specs.Read.{name_of};

use crate::words::Request;
use cc_build::{Error, emit_link_directives};
use cc_host::{Host, World};
use cc_text::Words;
use std::sync::Wait;

/// Archives the added objects of a request alone into its library, and prints how Cargo links it. At most `turns` turns
/// are made.
#[tactic(auto, using(cc_host::proofs::Parts::since_append))]
pub(crate) fn archive<W: World, H: Host<W>>(
    rt: &impl Wait,
    request: &Request<W>,
    host: &mut H,
    turns: u64,
) -> Result<(), Error>
    requires repeats { request.now.build.config.repeat_lines ≡ true }
    ensures patient { H.patience host.new ≡ H.patience host.old }
    ensures extends { H.log host.new ≡ H.log host.old ++ part H.log host.old host.new }
    ensures archiving { Archiving (H.listens host.old) W.steady W.answer request.now.build
        (H.patience host.old) turns (name_of request.now.job)
        (part H.log host.old host.new) result }
{
    let listens = host.listens();
    let objects = Words::new(request.alloc);
    let name = request.job.name();
    let library = request
        .build
        .try_create_archive(rt, host, turns, name, &objects)?;
    emit_link_directives(rt, &request.build, host, listens, library.as_str())
}
