// The job that expands a source.
ghost use Rattle.std.specs.Prelude.{◌≡◌, ◌++◌, true};
ghost use Rattle.cc_host.specs.Call.{part};
ghost use Rattle.cc_command.specs.Expanded.{Expanding};

use crate::lines::print_bytes;
use cc_build::{Build, Error};
use cc_host::{Host, LineKind, World};
use std::alloc::Global;
use std::sync::Wait;

/// Expands the source of a build, and prints what the compiler made of it, as it is, behind the lines of the variables
/// that were read for it.
#[tactic(auto, using(cc_host::proofs::Parts::since_append))]
pub(crate) fn expand<W: World, H: Host<W>>(
    rt: &impl Wait,
    alloc: Global,
    build: &Build<W>,
    host: &mut H,
) -> Result<(), Error>
    requires repeats { build.now.config.repeat_lines ≡ true }
    ensures extends { H.log host.new ≡ H.log host.old ++ part H.log host.old host.new }
    ensures expanding { Expanding (H.listens host.old) W.steady W.answer build.now
        (part H.log host.old host.new) result }
{
    let output = build.try_expand(rt, host)?;
    print_bytes(alloc, host, LineKind::Expanded, output.as_slice())
}
