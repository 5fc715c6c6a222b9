// What is kept of the sources of a refresh.
ghost use Rattle.std.specs.Prelude.{◌≡◌, ◌≤◌, ◌++◌, List, option_to_list, slice_get, IfOk, IfErr, OnOk};
ghost use Rattle.std.specs.Option.{option_copied};
ghost use Rattle.cc_fresh.specs.Choice.{entry_for};
ghost use Rattle.cc_fresh.specs.Entries.{AreEntries, IsEntry, entry_by};
ghost use Rattle.cc_fresh.specs.InTurn.{InTurnSome, pairs};
ghost use Rattle.cc_fresh.specs.Reads.{Adds, AddsFirst};
ghost use Rattle.cc_fresh.specs.declared.record.Entry.{Entry as EntrySeen};

use crate::file::ReadError;
use crate::made::read_made;
use crate::reason::entry_of;
use crate::unit::{TranslationUnit, UnitState};
use crate::{Entry, Record};
use cc_host::Files;
use cc_text::{Mem, Text, Vars};
use std::alloc::Global;

// A second entry, equal to this one.
fn copy_of(entry: Option<&Entry>) -> Mem<Option<Entry>>
    ensures { IfOk result (λ copy. copy ≡ option_copied entry.entry) }
{
    match entry {
        Some(entry) => Ok(Some(entry.try_clone()?)),
        None => Ok(None),
    }
}

// The kept entry of the object of a source.
fn kept_entry(kept: &[Entry], unit: &TranslationUnit) -> Mem<Option<Entry>>
    ensures { IfOk result (λ entry. entry ≡ entry_for kept.now unit.now.object) }
{
    copy_of(entry_of(kept, unit.object.as_str()))
}

// The entry of a source with this digest, whose compiler told of these files.
fn entry_by(unit: &TranslationUnit, digest: &Option<Text>, deps: Option<Vars>) -> Mem<Option<Entry>>
    ensures { IfOk result (λ entry. option_to_list entry ≡ entry_by unit.now digest.now deps) }
{
    match (digest, deps) {
        (Some(source), Some(deps)) => Ok(Some(Entry {
            object: unit.object.try_clone()?,
            command: unit.command.try_clone()?,
            source: source.try_clone()?,
            deps,
        })),
        _ => Ok(None),
    }
}

// The entry of a source, where it has one.
fn entry_made<F: Files>(
    alloc: Global,
    files: &mut F,
    checks_object: bool,
    kept: &[Entry],
    unit: &TranslationUnit,
    state: &UnitState,
) -> Result<Option<Entry>, ReadError>
    ensures read { IfOk result (λ entry. Adds (F.reads files.old) (F.reads files.new)
        (IsEntry checks_object kept.now (unit.now, state.now) (option_to_list entry))) }
    ensures refused { IfErr result (λ e. AddsFirst (F.reads files.old) (F.reads files.new)
        (λ told. (entries : List EntrySeen)
        × IsEntry checks_object kept.now (unit.now, state.now) entries told)
        e (F.faults files.old) (F.faults files.new)) }
    ensures later { F.faults files.old ≤ F.faults files.new }
{
    match state {
        UnitState::Kept => Ok(kept_entry(kept, unit)?),
        UnitState::Compiled(digest) => {
            let deps = read_made(alloc, files, checks_object, unit.object.as_str())?;
            Ok(entry_by(unit, digest, deps)?)
        }
    }
}

// Adds an entry, where there is one.
fn push_entry(record: &mut Record, entry: Option<Entry>) -> Mem<()>
    ensures { OnOk result (record.new ≡ record.old ++ option_to_list entry) }
{
    match entry {
        Some(entry) => record.push(entry),
        None => Ok(()),
    }
}

// The state at a place, lent, or none past the end.
fn state_at(states: &[UnitState], place: usize) -> Option<&UnitState>
    ensures { option_copied result ≡ slice_get states.now place }
{
    states.get(place)
}

/// The record of sources behind their run: the kept entry of each fresh one, and of each other the made one, where it
/// has one.
pub(crate) fn entries_of<F: Files>(
    alloc: Global,
    files: &mut F,
    checks_object: bool,
    kept: &[Entry],
    units: &[TranslationUnit],
    states: &[UnitState],
) -> Result<Record, ReadError>
    ensures read { IfOk result (λ entries. Adds (F.reads files.old) (F.reads files.new)
        (AreEntries checks_object kept.now units.now states.now entries)) }
    ensures refused { IfErr result (λ e. AddsFirst (F.reads files.old) (F.reads files.new)
        (InTurnSome (IsEntry checks_object kept.now) (pairs units.now states.now))
        e (F.faults files.old) (F.faults files.new)) }
    ensures later { F.faults files.old ≤ F.faults files.new }
{
    let mut record = Record::new(alloc);
    for (place, unit) in units.iter().enumerate() {
        match state_at(states, place) {
            Some(state) => {
                let entry = entry_made(alloc, files, checks_object, kept, unit, state)?;
                push_entry(&mut record, entry)?;
            }
            None => return Ok(record),
        }
    }
    Ok(record)
}
