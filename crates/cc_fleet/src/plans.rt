// The plans of members.
ghost use Rattle.std.specs.Prelude.{◌≡◌, ◌++◌, map, IfOk, IfErr, OnOk};
ghost use Rattle.std.specs.Fmt.{decimal};
ghost use Rattle.cc_host.specs.Call.{part};
ghost use Rattle.cc_fleet.specs.Clash.{NoClash};
ghost use Rattle.cc_fleet.specs.Fleet.{IsClash, PlansTo, Joins, site, clash_error as error_of, files_of, objects_at, members_seen};

use crate::Member;
use crate::clash::find_clash;
use crate::joined::Joined;
use crate::paths::{object_paths, written_files};
use cc_build::{CompilePlan, Error, ErrorKind};
use cc_host::{Host, World};
use cc_text::{Mem, Text};
use std::alloc::Global;
use std::sync::Wait;

// Adds the plan of the next member.
fn add_plan(alloc: Global, joined: &mut Joined, plan: CompilePlan) -> Mem<()>
    ensures { OnOk result (Joins joined.old joined.new plan) }
{
    let CompilePlan {
        objects,
        commands,
        shows,
    } = plan;
    let paths = object_paths(alloc, &objects)?;
    joined.add(alloc, commands, paths, shows)
}

/// Plans each member, in order.
#[tactic(auto, using(cc_host::proofs::Parts::since_append))]
pub(crate) fn plan_all<W: World, H: Host<W>>(
    rt: &impl Wait,
    alloc: Global,
    members: &[Member<W>],
    host: &mut H,
) -> Result<Joined, Error>
    ensures patient { H.patience host.new ≡ H.patience host.old }
    ensures extends { H.log host.new ≡ H.log host.old ++ part H.log host.old host.new }
    ensures plans { PlansTo (site W.steady W.answer (H.patience host.old))
        (members_seen members.now) result (part H.log host.old host.new) }
{
    let mut joined = Joined::new(alloc);
    for member in members {
        let plan = member
            .build
            .try_plan_compile(rt, host, member.output.as_str())?;
        add_plan(alloc, &mut joined, plan)?;
    }
    Ok(joined)
}

// Adds the digits of a number.
fn push_number(alloc: Global, text: &mut Text, number: usize) -> Mem<()>
    ensures { OnOk result (text.new ≡ text.old ++ decimal number) }
{
    let digits = format!(in alloc; "{number}")?;
    text.push_str(digits.as_str())
}

// These two members write one file.
fn clash_error(alloc: Global, first: usize, second: usize) -> Mem<Error>
    ensures { IfOk result (λ e. e ≡ error_of first second) }
{
    let mut message = Text::of(alloc, "members ")?;
    push_number(alloc, &mut message, first)?;
    message.push_str(" and ")?;
    push_number(alloc, &mut message, second)?;
    message.push_str(" write the same file")?;
    Error::of(alloc, ErrorKind::InvalidArgument, "", message.as_str())
}

/// Refuses members of which two write one file.
pub(crate) fn check_files<W: World>(
    alloc: Global,
    members: &[Member<W>],
    joined: &Joined,
) -> Result<(), Error>
    requires objects { joined.now.objects.items ≡ map objects_at (members_seen members.now) }
    ensures apart { OnOk result (NoClash (map files_of (members_seen members.now))) }
    ensures refused { IfErr result (IsClash (members_seen members.now)) }
{
    let files = written_files(alloc, members, joined.objects.as_slice())?;
    match find_clash(alloc, files.as_slice())? {
        Some((first, second)) => Err(clash_error(alloc, first, second)?),
        None => Ok(()),
    }
}
