// The lines of the members of a fleet that were refused, and how the program ends by them.
ghost use Rattle.std.specs.Prelude.{◌≡◌, ◌++◌, [], IfOk, OnOk, OnErr};
ghost use Rattle.std.specs.List.{flat_map};
ghost use Rattle.std.specs.Option.{option_copied};
ghost use Rattle.cc_host.specs.Call.{part};
ghost use Rattle.cc_tool.specs.Asked.{question_events};
ghost use Rattle.cc_command.specs.Database.{optional};
ghost use Rattle.cc_command.specs.Fleets.{ended_fleet, refused_error, refusals as errors_of, PrintsEach, PrintsSome, TellsFleet, SaysFleet};

use crate::ended::{Ended, ended_wanting, ended_with, print_error, refuse};
use cc_build::Error;
use cc_fleet::{FleetEnd, FleetEnds};
use cc_host::{Host, World};
use cc_text::Mem;
use std::alloc::Global;

// Adds the error of a member, where it was refused.
fn push_refusal(errors: &mut Vec<Error>, end: Option<&FleetEnd>) -> Mem<()>
    ensures { OnOk result (errors.new.items
        ≡ errors.old.items ++ flat_map refused_error (optional (option_copied end.entry))) }
{
    match end {
        Some(FleetEnd::Refused(error)) => {
            errors.push(error.try_clone()?)?;
            Ok(())
        }
        Some(FleetEnd::Built) => Ok(()),
        None => Ok(()),
    }
}

// The errors of the members that were refused, in order.
fn refusals(alloc: Global, ends: &FleetEnds) -> Mem<Vec<Error>>
    ensures { IfOk result (λ errors. errors.items ≡ errors_of ends.now) }
{
    let mut errors = Vec::new(alloc);
    for place in 0..ends.len() {
        push_refusal(&mut errors, ends.get(place))?;
    }
    Ok(errors)
}

// Prints the line of each of these errors. Where memory for one is wanted, those behind it aren't printed.
fn print_errors<W: World, H: Host<W>>(alloc: Global, host: &mut H, errors: &[Error]) -> Mem<()>
    ensures extends { H.log host.new ≡ H.log host.old ++ part H.log host.old host.new }
    ensures asks_none { question_events (part H.log host.old host.new) ≡ [] }
    ensures printed { OnOk result (PrintsEach errors.now (part H.log host.old host.new)) }
    ensures some { OnErr result (PrintsSome errors.now (part H.log host.old host.new)) }
{
    for error in errors {
        print_error(alloc, host, error)?;
    }
    Ok(())
}

// The end of a fleet of which these were refused.
fn ended_by(ends: FleetEnds, errors: Vec<Error>) -> Ended
    ensures { result ≡ ended_fleet ends errors.items }
{
    let mut errors = errors;
    if errors.is_empty() {
        return Ended {
            fleet: Some(ends),
            ..ended_with(0)
        };
    }
    let error = errors.remove(0);
    Ended {
        error: Some(error),
        fleet: Some(ends),
        ..ended_with(1)
    }
}

// The end of a fleet whose members came to these ends, with a line for each that was refused.
#[tactic(auto, using(cc_host::proofs::Parts::since_append))]
fn tell<W: World, H: Host<W>>(alloc: Global, host: &mut H, ends: FleetEnds) -> Ended
    ensures extends { H.log host.new ≡ H.log host.old ++ part H.log host.old host.new }
    ensures asks_none { question_events (part H.log host.old host.new) ≡ [] }
    ensures tells { TellsFleet ends (part H.log host.old host.new) result }
{
    let Ok(errors) = refusals(alloc, &ends) else {
        return ended_wanting();
    };
    match print_errors(alloc, host, &errors) {
        Ok(()) => ended_by(ends, errors),
        Err(_) => ended_wanting(),
    }
}

/// The end of the program by what a fleet came to, with its lines.
#[tactic(auto, using(cc_host::proofs::Parts::since_append))]
pub(crate) fn conclude_fleet<W: World, H: Host<W>>(
    alloc: Global,
    host: &mut H,
    came: Result<FleetEnds, Error>,
) -> Ended
    ensures extends { H.log host.new ≡ H.log host.old ++ part H.log host.old host.new }
    ensures asks_none { question_events (part H.log host.old host.new) ≡ [] }
    ensures says { SaysFleet came (part H.log host.old host.new) result }
{
    match came {
        Ok(ends) => tell(alloc, host, ends),
        Err(error) => refuse(alloc, host, error),
    }
}
