// Runs one command to its end, without a token.
ghost use Rattle.std.specs.Prelude.{◌≡◌, ◌+◌, ◌<◌, ◌^◌, ◌∷◌, [], false};
ghost use Rattle.cc_host.specs.Call.{part};
ghost use Rattle.cc_run.specs.Children.{nothing_kept};
ghost use Rattle.cc_run.specs.Listed.{listed_plan};
ghost use Rattle.cc_run.specs.Printing.{IsPrinted};
ghost use Rattle.cc_run.specs.Rules.{lone_rules};
ghost use Rattle.cc_run.specs.Whole.{HasRunAlone};

use crate::all::{by_failure, failure_of, run_batch};
use crate::planned::Batch;
use crate::{Listed, Planned, RunError, Shows, Turns};
use cc_host::{Host, World};
use cc_jobs::OneCaller;
use std::alloc::Global;
use std::slice;

/// Runs one command to its end, by a start and turns. It takes no token, and its start carries 0.
///
/// Refused are its failure, a missing program, a fault of the host, want of memory and want of turns, with place 0. All
/// but the first end the run at once: a child that runs is abandoned. After each answer no child of the run is left.
///
/// It prints and says as `run_all` does, without a warning of a failure, and makes no more turns than the host's
/// patience.
pub fn run_one<W: World, H: Host<W>>(
    alloc: Global,
    host: &mut H,
    turns: &mut Turns,
    cmd: &Planned,
    shows: &Shows,
) -> Result<(), RunError>
    requires few { turns.old.left + turns.old.used < 2 ^ 64 }
    ensures ran { HasRunAlone H.log H.patience
        (lone_rules (listed_plan false (cmd.now ∷ [])) shows.now)
        host.old turns.old result host.new turns.new }
    ensures lines { IsPrinted (lone_rules (listed_plan false (cmd.now ∷ [])) shows.now)
        nothing_kept result (part H.log host.old host.new) }
{
    // (where the host tells its patience it is at least 1: a law of the log that is lent)
    let _least = host.log();
    // (a pool of one, of which nobody else takes)
    let (jobs, mut seat) = OneCaller::new(1);
    let batch = Batch {
        jobs: &jobs,
        shows,
        warns: false,
        counted: false,
    };
    let mut queue = Listed::new(slice::from_ref(cmd), false);
    match run_batch(alloc, host, &mut seat, turns, &mut queue, &batch) {
        Ok(marks) => by_failure(failure_of(marks.as_slice())),
        Err(e) => Err(e),
    }
}
