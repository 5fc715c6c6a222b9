// The libraries of members.
ghost use Rattle.std.specs.Prelude.{◌≡◌, ◌++◌, ◌+◌, length, map, None};
ghost use Rattle.std.specs.List.{slice_index_or};
ghost use Rattle.cc_host.specs.Call.{part};
ghost use Rattle.cc_run.specs.Part.{turns};
ghost use Rattle.cc_fleet.specs.Fleet.{Segment, EndsBuilt, EndsBy, EndsFailed, EndsMember, EndsTo, ends_call as is_end, site, member_seen, members_seen, objects_at};

use crate::failures::Failure;
use crate::joined::Joined;
use crate::{FleetEnd, FleetEnds, Member};
use cc_build::{Error, ErrorKind, emit_link_directives};
use cc_host::{Host, World};
use cc_run::{Planned, RunError};
use cc_text::Words;
use std::alloc::Global;
use std::sync::Wait;

// What the end of a member goes by: the commands of all members, the paths of its objects, and the command of it that
// failed last.
#[derive(Clone, Copy)]
struct Given<'a> {
    commands: &'a [Planned],
    objects: &'a Words,
    failure: Option<Failure>,
}

// Writes the library of a member, and prints how Cargo links it. Of the turns that are left it takes those that it
// makes.
#[tactic(auto, using(cc_host::proofs::Parts::since_append))]
fn archive<W: World, H: Host<W>>(
    rt: &impl Wait,
    member: &Member<W>,
    host: &mut H,
    left: &mut u64,
    objects: &Words,
) -> Result<(), Error>
    requires objects { objects.now ≡ objects_at (member_seen member.now) }
    ensures patient { H.patience host.new ≡ H.patience host.old }
    ensures extends { H.log host.new ≡ H.log host.old ++ part H.log host.old host.new }
    ensures segment { Segment (site W.steady W.answer (H.patience host.old))
        (member_seen member.now) result (part H.log host.old host.new) left.old }
    ensures sum { left.new + turns (part H.log host.old host.new) ≡ left.old }
{
    let listens = host.listens();
    let output = member.output.as_str();
    let library = member
        .build
        .create_archive(rt, host, left, output, objects)?;
    emit_link_directives(rt, &member.build, host, listens, library.as_str())
}

// Whether an error of this kind ends the whole call: want of turns, and want of memory.
fn ends_call(kind: ErrorKind) -> bool
    ensures { result ≡ is_end kind }
{
    matches!(kind, ErrorKind::TurnsSpent | ErrorKind::NoMemory)
}

// The end of a member by the answer of its library.
fn end_by(answer: Result<(), Error>) -> Result<FleetEnd, Error>
    ensures { EndsBy answer result }
{
    match answer {
        Ok(()) => Ok(FleetEnd::Built),
        Err(error) => {
            if ends_call(error.kind()) {
                Err(error)
            } else {
                Ok(FleetEnd::Refused(error))
            }
        }
    }
}

// The end of a member by its library. Of the turns that are left it takes those that it makes.
#[tactic(auto, using(cc_host::proofs::Parts::since_append))]
fn end_built<W: World, H: Host<W>>(
    rt: &impl Wait,
    member: &Member<W>,
    host: &mut H,
    left: &mut u64,
    objects: &Words,
) -> Result<FleetEnd, Error>
    requires objects { objects.now ≡ objects_at (member_seen member.now) }
    ensures patient { H.patience host.new ≡ H.patience host.old }
    ensures extends { H.log host.new ≡ H.log host.old ++ part H.log host.old host.new }
    ensures ends { EndsBuilt (site W.steady W.answer (H.patience host.old)) (member_seen member.now)
        result (part H.log host.old host.new) left.old left.new }
{
    let answer = archive(rt, member, host, left, objects);
    end_by(answer)
}

// The end of a member of which a command failed.
fn end_failed(alloc: Global, commands: &[Planned], failure: Failure) -> Result<FleetEnd, Error>
    ensures { EndsFailed commands.now failure result }
{
    let (place, status) = failure;
    let error = Error::of_run(alloc, RunError::Failed(place as u64, status), commands);
    match error.kind() {
        ErrorKind::NoMemory => Err(error),
        _ => Ok(FleetEnd::Refused(error)),
    }
}

// The end of a member: by the command of it that failed last, or by its library.
#[tactic(auto, using(cc_host::proofs::Parts::since_append))]
fn end_member<W: World, H: Host<W>>(
    rt: &impl Wait,
    alloc: Global,
    member: &Member<W>,
    host: &mut H,
    left: &mut u64,
    given: &Given<'_>,
) -> Result<FleetEnd, Error>
    requires objects { given.now.objects.now ≡ objects_at (member_seen member.now) }
    ensures patient { H.patience host.new ≡ H.patience host.old }
    ensures extends { H.log host.new ≡ H.log host.old ++ part H.log host.old host.new }
    ensures ends { EndsMember (site W.steady W.answer (H.patience host.old)) given.now.commands.now
        (member_seen member.now) given.now.failure result
        (part H.log host.old host.new) left.old left.new }
{
    match given.failure {
        Some(failure) => end_failed(alloc, given.commands, failure),
        None => end_built(rt, member, host, left, given.objects),
    }
}

/// Ends each member, in order, and answers how many turns are left, too.
#[tactic(auto, using(cc_host::proofs::Parts::since_append))]
pub(crate) fn end_all<W: World, H: Host<W>>(
    rt: &impl Wait,
    alloc: Global,
    members: &[Member<W>],
    host: &mut H,
    left: &mut u64,
    joined: &Joined,
    failures: &[Option<Failure>],
) -> Result<FleetEnds, Error>
    requires size { length failures.now ≡ length members.now }
    requires objects { joined.now.objects.items ≡ map objects_at (members_seen members.now) }
    ensures patient { H.patience host.new ≡ H.patience host.old }
    ensures extends { H.log host.new ≡ H.log host.old ++ part H.log host.old host.new }
    ensures ends { EndsTo (site W.steady W.answer (H.patience host.old)) joined.now.commands.items
        (λ place. slice_index_or failures.now place None) (members_seen members.now) result
        (part H.log host.old host.new) left.old left.new }
{
    let mut ends = FleetEnds::new(alloc);
    for (place, member) in members.iter().enumerate() {
        let given = Given {
            commands: &joined.commands,
            objects: &joined.objects[place],
            failure: failures[place],
        };
        ends.push(end_member(rt, alloc, member, host, left, &given)?)?;
    }
    Ok(ends)
}
