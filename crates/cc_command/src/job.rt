// The jobs of the program, each on a build that has its variables.
ghost use Rattle.std.specs.Prelude.{◌≡◌, ◌++◌, true};
ghost use Rattle.cc_host.specs.Call.{part};
ghost use Rattle.cc_build.specs.Build.{AsksByRun};
ghost use Rattle.cc_command.specs.Call.{call_of};
ghost use Rattle.cc_command.specs.Jobs.{CompileJob, JobEnds};
ghost use Rattle.cc_command.specs.Read.{name_of};

use crate::archive::archive;
use crate::done::{Done, plain};
use crate::expand::expand;
use crate::recorded::{Record, compile_recorded};
use crate::show::show;
use crate::summary::generate_alone;
use crate::words::{Job, Request};
use cc_build::Error;
use cc_host::{Host, World};
use cc_jobs::Jobs;
use std::sync::Wait;

// Compiles, and records that where a database is asked for.
#[tactic(auto, using(cc_host::proofs::Parts::since_append))]
fn compile<W: World, H: Host<W>, J: Jobs>(
    rt: &impl Wait,
    request: &Request<W>,
    turns: u64,
    host: &mut H,
    jobs: &J,
    seat: &mut J::Seat,
) -> Result<(), Error>
    requires fits { J.fits jobs.now seat.old }
    requires empty { J.held seat.old ≡ 0 }
    ensures fits { J.fits jobs.now seat.new }
    ensures empty { J.held seat.new ≡ 0 }
    ensures extends { H.log host.new ≡ H.log host.old ++ part H.log host.old host.new }
    ensures asked { AsksByRun W.steady W.answer request.now.build
        (part H.log host.old host.new) }
    ensures ends { CompileJob (call_of H.log H.patience H.listens W.steady W.answer
        J.total J.faults J.taken J.load turns host.old host.new seat.old seat.new)
        request.now.database (name_of request.now.job) request.now.build result }
{
    let name = request.job.name();
    match &request.database {
        Some(path) => {
            let to = Record {
                alloc: request.alloc,
                name,
                path: path.as_str(),
                turns,
            };
            compile_recorded(rt, to, &request.build, host, jobs, seat)
        }
        None => request.build.try_compile(rt, host, jobs, seat, turns, name),
    }
}

/// Does the job of a request, whose build has its variables.
#[tactic(auto, using(cc_host::proofs::Parts::since_append))]
pub(crate) fn do_job<W: World, H: Host<W>, J: Jobs>(
    rt: &impl Wait,
    request: &Request<W>,
    turns: u64,
    host: &mut H,
    jobs: &J,
    seat: &mut J::Seat,
) -> Done
    requires fits { J.fits jobs.now seat.old }
    requires empty { J.held seat.old ≡ 0 }
    requires repeats { request.now.build.config.repeat_lines ≡ true }
    ensures fits { J.fits jobs.now seat.new }
    ensures empty { J.held seat.new ≡ 0 }
    ensures extends { H.log host.new ≡ H.log host.old ++ part H.log host.old host.new }
    ensures ends { JobEnds (call_of H.log H.patience H.listens W.steady W.answer
        J.total J.faults J.taken J.load turns host.old host.new seat.old seat.new)
        request.now.job request.now.database request.now.build result.result result.bench }
{
    match request.job {
        Job::Compile(_) => plain(compile(rt, request, turns, host, jobs, seat)),
        Job::Archive(_) => plain(archive(rt, request, host, turns)),
        Job::Generate(count) => generate_alone(rt, request.alloc, count, turns, host),
        Job::Expand => plain(expand(rt, request.alloc, &request.build, host)),
        Job::Show => plain(show(rt, request.alloc, &request.build, host)),
    }
}
