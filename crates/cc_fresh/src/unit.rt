// The sources of a build, as far as a refresh knows them.
ghost use Rattle.std.specs.Prelude.{◌≡◌, slice_get, IfOk};
ghost use Rattle.std.specs.Option.{option_copied};
ghost use Rattle.cc_fresh.specs.Unit.{unit_of, units_of};

use crate::command_digest;
use cc_flags::Object;
use cc_run::Planned;
use cc_text::{Mem, Text};
use std::alloc::Global;

/// A source with its object, and the digest of the command that compiles it.
#[derive(Drop, Debug)]
pub(crate) struct TranslationUnit {
    pub source: Text,
    pub object: Text,
    pub command: Text,
}

/// What is known of a source before the run.
#[derive(Drop, Debug)]
pub(crate) enum UnitState {
    /// It is fresh.
    Kept,
    /// It is compiled; this is its digest, where it is there.
    Compiled(Option<Text>),
}

fn unit_of(alloc: Global, object: &Object, planned: &Planned) -> Mem<TranslationUnit>
    ensures { IfOk result (λ u. u ≡ unit_of (object.now, planned.now)) }
{
    Ok(TranslationUnit {
        source: object.src.try_clone()?,
        object: object.dst.try_clone()?,
        command: command_digest(alloc, &planned.cmd)?,
    })
}

// The command at a place, lent, or none past the end.
fn command_at(commands: &[Planned], place: usize) -> Option<&Planned>
    ensures { option_copied result ≡ slice_get commands.now place }
{
    commands.get(place)
}

/// The sources of these objects with their commands.
pub(crate) fn units_of(
    alloc: Global,
    objects: &[Object],
    commands: &[Planned],
) -> Mem<Vec<TranslationUnit>>
    ensures { IfOk result (λ us. us.items ≡ units_of objects.now commands.now) }
{
    let mut units = Vec::new(alloc);
    for (place, object) in objects.iter().enumerate() {
        match command_at(commands, place) {
            Some(planned) => {
                let unit = unit_of(alloc, object, planned)?;
                units.push(unit)?;
            }
            None => return Ok(units),
        }
    }
    Ok(units)
}
