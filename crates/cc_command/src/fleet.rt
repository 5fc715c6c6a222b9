// The job of a fleet: several builds under one pool.
ghost use Rattle.std.specs.Prelude.{◌≡◌, ◌++◌, [], Err, map, IfErr, OnOk, string_bytes};
ghost use Rattle.cc_env.specs.Snapshot.{snapshot_of};
ghost use Rattle.cc_host.specs.Call.{part};
ghost use Rattle.cc_tool.specs.Asked.{question_events};
ghost use Rattle.cc_build.specs.Captured.{CaptureEnds};
ghost use Rattle.cc_build.specs.Error.{no_memory};
ghost use Rattle.cc_fleet.specs.Fleet.{members_seen};
ghost use Rattle.cc_command.specs.Answered.{Answered};
ghost use Rattle.cc_command.specs.Call.{call_of};
ghost use Rattle.cc_command.specs.FleetWords.{read_fleet as fleet_of};
ghost use Rattle.cc_command.specs.Fleets.{listed_members, TakesListed, AnswersFleet};

use crate::ended::{Ended, ended_wanting, refuse, refuse_word};
use crate::fleet_lines::conclude_fleet;
use crate::fleet_words::read_fleet;
use crate::words::{Invocation, ReadError};
use cc_build::{Build, Error};
use cc_fleet::{Member, run_fleet};
use cc_host::{Host, World};
use cc_jobs::Jobs;
use cc_text::Vars;
use std::alloc::Global;
use std::sync::Wait;

// Has each member inherit these variables.
fn take_vars<W: World>(members: &mut Vec<Member<W>>, vars: &Vars) -> Result<(), Error>
    ensures taken { OnOk result (members_seen members.new.items
        ≡ listed_members vars.now (members_seen members.old.items)) }
    ensures refused { IfErr result (λ e. e ≡ no_memory) }
{
    for member in members.iter_mut() {
        member.build.set_envs_snapshot(vars)?;
    }
    Ok(())
}

// Has the host list its variables, which all members take.
#[tactic(auto, using(cc_host::proofs::Parts::since_append))]
fn list_vars<W: World, H: Host<W>>(
    alloc: Global,
    members: &mut Vec<Member<W>>,
    host: &mut H,
) -> Result<(), Error>
    ensures extends { H.log host.new ≡ H.log host.old ++ part H.log host.old host.new }
    ensures patient { H.patience host.new ≡ H.patience host.old }
    ensures asks_none { question_events (part H.log host.old host.new) ≡ [] }
    ensures listed { OnOk result (TakesListed (members_seen members.old.items)
        (members_seen members.new.items) (part H.log host.old host.new)) }
    ensures refused { IfErr result (λ e. CaptureEnds (part H.log host.old host.new) (Err e)) }
{
    let mut listed: Build<W> = Build::new(alloc)?;
    listed.capture(host)?;
    take_vars(members, listed.environment().inherited().vars())
}

// Builds members on the variables of the host, and says how that ended.
#[tactic(auto, using(cc_host::proofs::Parts::since_append))]
fn sail<W: World, H: Host<W>, J: Jobs>(
    rt: &impl Wait,
    invocation: Invocation<'_>,
    members: Vec<Member<W>>,
    host: &mut H,
    jobs: &J,
    seat: &mut J::Seat,
) -> Ended
    requires fits { J.fits jobs.now seat.old }
    requires empty { J.held seat.old ≡ 0 }
    ensures fits { J.fits jobs.now seat.new }
    ensures empty { J.held seat.new ≡ 0 }
    ensures extends { H.log host.new ≡ H.log host.old ++ part H.log host.old host.new }
    ensures answers { AnswersFleet (call_of H.log H.patience H.listens W.steady W.answer
        J.total J.faults J.taken J.load invocation.entry.turns host.old host.new seat.old seat.new)
        (members_seen members.items) result }
{
    let Invocation { alloc, turns, .. } = invocation;
    let mut members = members;
    match list_vars(alloc, &mut members, host) {
        Ok(()) => {
            let came = run_fleet(rt, alloc, &members, host, jobs, seat, turns);
            conclude_fleet(alloc, host, came)
        }
        Err(error) => refuse(alloc, host, error),
    }
}

/// Builds the fleet that the words behind `fleet` ask for.
#[tactic(auto, using(cc_host::proofs::Parts::since_append))]
pub(crate) fn fleet_job<W: World, H: Host<W>, J: Jobs>(
    rt: &impl Wait,
    invocation: Invocation<'_>,
    host: &mut H,
    jobs: &J,
    seat: &mut J::Seat,
) -> Ended
    requires fits { J.fits jobs.now seat.old }
    requires empty { J.held seat.old ≡ 0 }
    ensures fits { J.fits jobs.now seat.new }
    ensures empty { J.held seat.new ≡ 0 }
    ensures extends { H.log host.new ≡ H.log host.old ++ part H.log host.old host.new }
    ensures answered { Answered (call_of H.log H.patience H.listens W.steady W.answer
        J.total J.faults J.taken J.load invocation.entry.turns host.old host.new seat.old seat.new)
        (fleet_of (map string_bytes invocation.entry.words.now)) result }
{
    match read_fleet::<W>(invocation.alloc, invocation.words) {
        Ok(members) => sail(rt, invocation, members, host, jobs, seat),
        Err(ReadError::Bad(bad)) => refuse_word(invocation.alloc, host, bad),
        Err(ReadError::NoMemory) => ended_wanting(),
    }
}
