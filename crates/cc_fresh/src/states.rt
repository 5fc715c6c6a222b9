// What is known of each source before the run.
ghost use Rattle.std.specs.Prelude.{◌≡◌, ◌≤◌, [], ◌∷◌, List, slice_get, IfOk, IfErr};
ghost use Rattle.cc_fresh.specs.Choice.{is_compiled as compiled, choices_of as of_reasons, IsState};
ghost use Rattle.cc_fresh.specs.InTurn.{InTurn, InTurnSome, pairs};
ghost use Rattle.cc_fresh.specs.Reads.{Adds, AddsFirst};
ghost use Rattle.cc_fresh.specs.declared.unit.UnitState.{UnitState as StateSeen};

use crate::Reason;
use crate::file::{ReadError, read_digest};
use crate::unit::{TranslationUnit, UnitState};
use cc_host::Files;
use cc_text::Mem;
use std::alloc::Global;

// Whether a source with this reason is compiled.
fn is_compiled(reason: Reason) -> bool
    ensures { result ≡ compiled reason }
{
    !matches!(reason, Reason::Fresh)
}

/// Whether each source with these reasons is compiled.
pub(crate) fn choices_of(alloc: Global, reasons: &[Reason]) -> Mem<Vec<bool>>
    ensures { IfOk result (λ choices. choices.items ≡ of_reasons reasons.now) }
{
    let mut choices = Vec::new(alloc);
    for reason in reasons {
        choices.push(is_compiled(*reason))?;
    }
    Ok(choices)
}

// What is known of a source before the run: reads it, where it is compiled.
fn state_of<F: Files>(
    alloc: Global,
    files: &mut F,
    unit: &TranslationUnit,
    is_compiled: bool,
) -> Result<UnitState, ReadError>
    ensures read { IfOk result (λ state. Adds (F.reads files.old) (F.reads files.new)
        (IsState (unit.now, is_compiled) (state ∷ []))) }
    ensures refused { IfErr result (λ e. AddsFirst (F.reads files.old) (F.reads files.new)
        (λ told. (states : List StateSeen) × IsState (unit.now, is_compiled) states told)
        e (F.faults files.old) (F.faults files.new)) }
    ensures later { F.faults files.old ≤ F.faults files.new }
{
    if is_compiled {
        let digest = read_digest(alloc, files, unit.source.as_str())?;
        Ok(UnitState::Compiled(digest))
    } else {
        Ok(UnitState::Kept)
    }
}

// The choice at a place, or none past the end.
fn choice_at(choices: &[bool], place: usize) -> Option<bool>
    ensures { result ≡ slice_get choices.now place }
{
    choices.get(place).copied()
}

/// Reads each source that is compiled, in order, and answers what is known of each.
pub(crate) fn states_of<F: Files>(
    alloc: Global,
    files: &mut F,
    units: &[TranslationUnit],
    choices: &[bool],
) -> Result<Vec<UnitState>, ReadError>
    ensures read { IfOk result (λ states. Adds (F.reads files.old) (F.reads files.new)
        (InTurn IsState (pairs units.now choices.now) states.items)) }
    ensures refused { IfErr result (λ e. AddsFirst (F.reads files.old) (F.reads files.new)
        (InTurnSome IsState (pairs units.now choices.now))
        e (F.faults files.old) (F.faults files.new)) }
    ensures later { F.faults files.old ≤ F.faults files.new }
{
    let mut states = Vec::new(alloc);
    for (place, unit) in units.iter().enumerate() {
        match choice_at(choices, place) {
            Some(is_compiled) => {
                let state = state_of(alloc, files, unit, is_compiled)?;
                states.push(state)?;
            }
            None => return Ok(states),
        }
    }
    Ok(states)
}
