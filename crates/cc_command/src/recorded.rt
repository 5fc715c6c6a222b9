// A compile run that is recorded in a compilation database.
ghost use Rattle.std.specs.Prelude.{◌≡◌, ◌++◌};
ghost use Rattle.cc_host.specs.Call.{part};
ghost use Rattle.cc_build.specs.Build.{AsksByRun};
ghost use Rattle.cc_build.specs.Course.{ByRun};
ghost use Rattle.cc_command.specs.Recording.{IsRecord};

use crate::database::{find_folder, write_database};
use cc_build::{Build, Error};
use cc_host::{Host, World};
use cc_jobs::Jobs;
use std::alloc::Global;
use std::sync::Wait;

// What a compile run is recorded by: an allocator, the name of its library, the path of the database, and how many
// turns it may make.
#[derive(Clone, Copy)]
pub(crate) struct Record<'a> {
    pub alloc: Global,
    pub name: &'a str,
    pub path: &'a str,
    pub turns: u64,
}

/// Asks for the folder, compiles, and writes the compilation database.
#[tactic(auto, using(cc_host::proofs::Parts::since_append))]
pub(crate) fn compile_recorded<W: World, H: Host<W>, J: Jobs>(
    rt: &impl Wait,
    to: Record<'_>,
    build: &Build<W>,
    host: &mut H,
    jobs: &J,
    seat: &mut J::Seat,
) -> Result<(), Error>
    requires fits { J.fits jobs.now seat.old }
    requires empty { J.held seat.old ≡ 0 }
    ensures fits { J.fits jobs.now seat.new }
    ensures empty { J.held seat.new ≡ 0 }
    ensures extends { H.log host.new ≡ H.log host.old ++ part H.log host.old host.new }
    ensures asked { AsksByRun W.steady W.answer build.now (part H.log host.old host.new) }
    ensures answer { ByRun H.log H.patience J.total J.faults J.taken J.load to.entry.turns
        host.old host.new seat.old seat.new
        (IsRecord (H.listens host.old) to.entry.name.now to.entry.path.now build.now result) }
{
    let here = find_folder(to.alloc, host)?;
    build.try_compile(rt, host, jobs, seat, to.turns, to.name)?;
    write_database(to.alloc, build, to.path, here.as_str(), host)?;
    Ok(())
}
