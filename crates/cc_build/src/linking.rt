// The link lines of a library that is there already.
ghost use Rattle.std.specs.Prelude.{◌≡◌, ◌++◌};
ghost use Rattle.cc_host.specs.Call.{part};
ghost use Rattle.cc_build.specs.Build.{AsksByRun};
ghost use Rattle.cc_build.specs.Course.{ByPart};
ghost use Rattle.cc_build.specs.Linking.{DirectivesEnd, link_reads as reads_of};

use crate::message::or_no_memory;
use crate::phases::print_links;
use crate::refusal::plan_error;
use crate::reporting::Reporting;
use crate::shows::shows_of;
use crate::task::{Shared, Task};
use crate::{Build, Error};
use cc_host::{Host, World};
use cc_jobs::OneCaller;
use cc_plan::{Reads, Sources, library_and_dir, probe_folder};
use cc_run::Turns;
use cc_text::Text;
use cc_tool::Answers;
use std::sync::Wait;

// What link lines read variables for.
fn link_reads() -> Reads
    ensures { result ≡ reads_of }
{
    Reads {
        disabled: false,
        debug: false,
        compiler: false,
        assembler: false,
        flag: false,
        archiver: false,
        ranlib: false,
        links: true,
    }
}

/// The same as `try_emit_link_directives`, for a caller that knows already whether its host listens.
#[tactic(auto, using(cc_host::proofs::Parts::since_append))]
pub fn emit_link_directives<W: World, H: Host<W>>(
    rt: &impl Wait,
    build: &Build<W>,
    host: &mut H,
    listens: bool,
    library: &str,
) -> Result<(), Error>
    ensures patient { H.patience host.new ≡ H.patience host.old }
    ensures extends { H.log host.new ≡ H.log host.old ++ part H.log host.old host.new }
    ensures asked { AsksByRun W.steady W.answer build.now (part H.log host.old host.new) }
    ensures outcome { ByPart H.log host.old host.new
        (DirectivesEnd build.now listens library.now result) }
{
    let (alloc, set, env) = (build.alloc, &build.config, &build.env);
    let (name, _) = match library_and_dir(alloc, set, env, library) {
        Ok(found) => found,
        Err(error) => return Err(or_no_memory(plan_error(alloc, set, env, library, error))),
    };
    let sources = Sources {
        name,
        dir: Text::of(alloc, probe_folder(set, env))?,
        library: Text::of(alloc, library)?,
        objects: Vec::new(alloc),
    };
    let (jobs, mut seat) = OneCaller::new(1);
    let shared = Shared {
        task: Task {
            reporting: Reporting {
                alloc,
                shows: shows_of(set, env, listens),
            },
            set,
            env,
            output: library,
        },
        jobs: &jobs,
        caches: &build.caches,
        sources: &sources,
        reads: link_reads(),
    };
    let mut answers = Answers::new(alloc);
    let mut turns = Turns { left: 0, used: 0 };
    print_links(rt, &shared, host, &mut seat, &mut turns, &mut answers)
}

/// Prints the link lines of the library at a path, `lib<name>.a` with its folder, or `<name>.lib` for a target of
/// Visual Studio, as `try_compile` does behind the library that it builds: by which name Cargo links it, where it is
/// sought, and the C++ library that it wants. They are wanted where `cargo_metadata` is on; to find the C++ library the
/// compiler may be asked, of whose plan a host that listens is told the warnings. Behind them are the lines of the
/// variables that were read for them. The library itself isn't looked at.
///
/// Refused with InvalidArgument where the path is no such one, with EnvVarNotFound where a sysroot is set nowhere that
/// the lines of WebAssembly want, where a line couldn't be printed, and for memory. The build is as before.
#[tactic(auto, using(cc_host::proofs::Parts::since_append))]
pub fn try_emit_link_directives<W: World, H: Host<W>>(
    rt: &impl Wait,
    build: &Build<W>,
    host: &mut H,
    library: &str,
) -> Result<(), Error>
    ensures patient { H.patience host.new ≡ H.patience host.old }
    ensures extends { H.log host.new ≡ H.log host.old ++ part H.log host.old host.new }
    ensures asked { AsksByRun W.steady W.answer build.now (part H.log host.old host.new) }
    ensures outcome { ByPart H.log host.old host.new
        (DirectivesEnd build.now (H.listens host.old) library.now result) }
{
    let listens = host.listens();
    emit_link_directives(rt, build, host, listens, library)
}
