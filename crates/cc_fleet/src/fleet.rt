// Several builds under one pool.
ghost use Rattle.std.specs.Prelude.{◌≡◌, ◌++◌};
ghost use Rattle.cc_host.specs.Call.{part};
ghost use Rattle.cc_fleet.specs.Fleet.{IsFleet, OnTurns, members_seen};

use crate::plans::{check_files, plan_all};
use crate::run::run_joined;
use crate::segments::end_all;
use crate::{FleetEnds, Member};
use cc_build::Error;
use cc_host::{Host, World};
use cc_jobs::Jobs;
use cc_run::Turns;
use std::alloc::Global;
use std::sync::Wait;

/// Compiles and archives several builds under one pool, so that none waits for the last source of another. It answers
/// what became of each member.
///
/// Each member is planned, in order. Two that would write one file are refused with InvalidArgument, by the first such
/// pair. Then the commands of all members are run as one list, as many side by side as there are tokens, with what the
/// first member shows, and no failure stops another command; `stop_on_failure` of a member isn't used. Then, in order,
/// the library of each member is written of which no command failed, and its link lines are printed. A member is
/// `Refused` by the command of it that failed last, or by what its library or its link lines refused, and the others
/// are built all the same.
///
/// Any other refusal ends the call: of a plan, of the run but by a failed command, by want of turns and of memory. At
/// most `turns` turns are made. The seat holds nothing, before and after. Without a member nothing is done.
#[tactic(auto, using(cc_host::proofs::Parts::since_append))]
pub fn run_fleet<W: World, H: Host<W>, J: Jobs>(
    rt: &impl Wait,
    alloc: Global,
    members: &[Member<W>],
    host: &mut H,
    jobs: &J,
    seat: &mut J::Seat,
    turns: u64,
) -> Result<FleetEnds, Error>
    requires fits { J.fits jobs.now seat.old }
    requires empty { J.held seat.old ≡ 0 }
    ensures fits { J.fits jobs.now seat.new }
    ensures empty { J.held seat.new ≡ 0 }
    ensures total { J.total seat.new ≡ J.total seat.old }
    ensures patient { H.patience host.new ≡ H.patience host.old }
    ensures extends { H.log host.new ≡ H.log host.old ++ part H.log host.old host.new }
    ensures fleet { OnTurns H.log H.patience J.total J.faults J.taken J.load turns
        host.old host.new seat.old seat.new
        (IsFleet W.steady W.answer (members_seen members.now) result) }
{
    let joined = plan_all(rt, alloc, members, host)?;
    check_files(alloc, members, &joined)?;
    let mut budget = Turns {
        left: turns,
        used: 0,
    };
    let failures = run_joined(alloc, host, jobs, seat, &mut budget, &joined)?;
    let failures = failures.as_slice();
    end_all(
        rt,
        alloc,
        members,
        host,
        &mut budget.left,
        &joined,
        failures,
    )
}
