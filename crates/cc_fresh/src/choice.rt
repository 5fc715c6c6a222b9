// Which sources are compiled.
ghost use Rattle.std.specs.Prelude.{◌≡◌, ◌≤◌, [], Some, true, bytes_eq, IfOk, IfErr};
ghost use Rattle.cc_host.specs.Call.{part};
ghost use Rattle.cc_host.specs.Question.{Holds, Look, Settles, exists_question, is_yes as yes};
ghost use Rattle.cc_build.specs.Build.{probes};
ghost use Rattle.cc_build.specs.Kept.{Asking};
ghost use Rattle.cc_build.specs.Questions.{AsksOnly};
ghost use Rattle.cc_fresh.specs.Choice.{kept_in, entry_for, ByEntry, IsReason, HasReason, AsksForObject, MayChoose};
ghost use Rattle.cc_fresh.specs.Refreshing.{IsChoice};
ghost use Rattle.cc_fresh.specs.InTurn.{InTurn, InTurnSome};
ghost use Rattle.cc_fresh.specs.Reads.{Adds, AddsFirst, AddsHeld, IsOne};
ghost use Rattle.cc_fresh.specs.declared.file.ReadError.TheVariants.{NoMemory as WantsMemory};
ghost use Rattle.cc_fresh.specs.declared.reason.Reason.{Reason as ReasonSeen};

use crate::file::{ReadError, read_file};
use crate::reason::{entry_of, read_reason};
use crate::states::{choices_of, states_of};
use crate::unit::{TranslationUnit, UnitState};
use crate::{Entry, Reason, Reasons, Record, read_record};
use cc_build::Build;
use cc_host::{Files, Held, Host, World};
use cc_text::Mem;
use cc_tool::Answers;
use std::alloc::Global;
use std::sync::Wait;

/// Which sources are compiled, and what was found out to choose them.
#[derive(Drop)]
pub(crate) struct Choice {
    /// What the record holds of objects.
    pub kept: Record,
    /// Why each source is compiled, or that it is fresh.
    pub reasons: Reasons,
    /// Whether each is compiled.
    pub choices: Vec<bool>,
    /// What is known of each before the run.
    pub states: Vec<UnitState>,
}

fn kept_of(alloc: Global, held: &Held) -> Mem<Record>
    ensures { IfOk result (λ kept. kept ≡ kept_in held.now) }
{
    match held {
        Held::Absent => Ok(Record::new(alloc)),
        Held::Bytes(text) => read_record(alloc, text.as_slice()),
    }
}

// What the record at a path holds of objects.
fn read_kept<F: Files>(alloc: Global, files: &mut F, path: &str) -> Result<Record, ReadError>
    ensures read { IfOk result (λ kept. AddsHeld
        (F.reads files.old) (F.reads files.new) path.now (λ held. kept ≡ kept_in held)) }
    ensures refused { IfErr result (λ e. AddsFirst (F.reads files.old) (F.reads files.new)
        (IsOne path.now) e (F.faults files.old) (F.faults files.new)) }
    ensures later { F.faults files.old ≤ F.faults files.new }
{
    let held = read_file(alloc, files, path)?;
    let kept = kept_of(alloc, &held)?;
    Ok(kept)
}

// The entry of the object of a source, made by the same command; or why there is none.
fn fitting_entry<'a>(kept: &'a [Entry], unit: &TranslationUnit) -> Result<&'a Entry, Reason>
    ensures fits { IfOk result (λ e. (entry_for kept.now unit.now.object ≡ Some e.now)
        × (bytes_eq e.now.command unit.now.command ≡ true)) }
    ensures lacks { IfErr result
        (λ reason. (look : Look) → IsReason kept.now look unit.now reason []) }
{
    match entry_of(kept, unit.object.as_str()) {
        None => Err(Reason::NoEntry),
        Some(entry) => {
            if entry.command.as_str() == unit.command.as_str() {
                Ok(entry)
            } else {
                Err(Reason::Command)
            }
        }
    }
}

// Whether there is something at a path.
fn is_there<W: World, H: Host<W>>(
    rt: &impl Wait,
    build: &Build<W>,
    host: &mut H,
    answers: &mut Answers,
    path: &str,
) -> Result<bool, ReadError>
    ensures asks { Asking W.steady W.answer (probes build.now)
        (λ look q. q ≡ exists_question path.now) H.log H.patience
        host.old host.new answers.old answers.new }
    ensures quiet { AsksOnly (part H.log host.old host.new) }
    ensures told { IfOk result (λ there. Settles answers.new
        (λ look. yes (look (exists_question path.now))) there) }
    ensures refused { IfErr result (λ e. e ≡ WantsMemory) }
{
    match build.path_exists(rt, host, path, answers) {
        Ok(there) => Ok(there),
        Err(_) => Err(ReadError::NoMemory),
    }
}

// The reason of a source with such an entry, whose object is there or not.
fn reason_by_entry<F: Files>(
    alloc: Global,
    files: &mut F,
    unit: &TranslationUnit,
    entry: &Entry,
    is_there: bool,
) -> Result<Reason, ReadError>
    ensures read { IfOk result (λ reason. Adds (F.reads files.old) (F.reads files.new)
        (ByEntry unit.now entry.now true is_there reason)) }
    ensures refused { IfErr result (λ e. AddsFirst (F.reads files.old) (F.reads files.new)
        (λ told. (reason : ReasonSeen) × ByEntry unit.now entry.now true is_there reason told)
        e (F.faults files.old) (F.faults files.new)) }
    ensures later { F.faults files.old ≤ F.faults files.new }
{
    if is_there {
        read_reason(alloc, files, unit.source.as_str(), entry)
    } else {
        Ok(Reason::NoObject)
    }
}

// Why a source is compiled, or that it is fresh. What isn't needed isn't read, and isn't asked.
#[tactic(auto, using(cc_host::proofs::Parts::since_append))]
fn reason_of<W: World, H: Host<W>, F: Files>(
    rt: &impl Wait,
    alloc: Global,
    build: &Build<W>,
    host: &mut H,
    files: &mut F,
    answers: &mut Answers,
    kept: &[Entry],
    unit: &TranslationUnit,
) -> Result<Reason, ReadError>
    ensures asks { Asking W.steady W.answer (probes build.now)
        (λ look q. q ≡ exists_question unit.now.object) H.log H.patience
        host.old host.new answers.old answers.new }
    ensures quiet { AsksOnly (part H.log host.old host.new) }
    ensures read { IfOk result (λ reason. Holds answers.new (λ look.
        Adds (F.reads files.old) (F.reads files.new) (IsReason kept.now look unit.now reason))) }
    ensures refused { IfErr result (λ e. Holds answers.new (λ look.
        AddsFirst (F.reads files.old) (F.reads files.new)
        (λ told. (reason : ReasonSeen) × IsReason kept.now look unit.now reason told)
        e (F.faults files.old) (F.faults files.new))) }
    ensures later { F.faults files.old ≤ F.faults files.new }
{
    let entry = match fitting_entry(kept, unit) {
        Ok(entry) => entry,
        Err(reason) => return Ok(reason),
    };
    let is_there = match is_there(rt, build, host, answers, unit.object.as_str()) {
        Ok(is_there) => is_there,
        Err(error) => return Err(error),
    };
    reason_by_entry(alloc, files, unit, entry, is_there)
}

// The reasons of sources, in order.
#[tactic(auto, using(cc_host::proofs::Parts::since_append))]
fn reasons_of<W: World, H: Host<W>, F: Files>(
    rt: &impl Wait,
    alloc: Global,
    build: &Build<W>,
    host: &mut H,
    files: &mut F,
    answers: &mut Answers,
    kept: &[Entry],
    units: &[TranslationUnit],
) -> Result<Reasons, ReadError>
    ensures asks { Asking W.steady W.answer (probes build.now) (AsksForObject units.now)
        H.log H.patience host.old host.new answers.old answers.new }
    ensures quiet { AsksOnly (part H.log host.old host.new) }
    ensures read { IfOk result (λ reasons. Holds answers.new (λ look.
        Adds (F.reads files.old) (F.reads files.new)
        (InTurn (HasReason kept.now look) units.now reasons))) }
    ensures refused { IfErr result (λ e. Holds answers.new (λ look.
        AddsFirst (F.reads files.old) (F.reads files.new)
        (InTurnSome (HasReason kept.now look) units.now)
        e (F.faults files.old) (F.faults files.new))) }
    ensures later { F.faults files.old ≤ F.faults files.new }
{
    let mut reasons = Reasons::new(alloc);
    for unit in units {
        let reason = reason_of(rt, alloc, build, host, files, answers, kept, unit)?;
        reasons.push(reason)?;
    }
    Ok(reasons)
}

/// Chooses the sources that are compiled, by what the record at a path holds of their objects: reads the record, finds
/// out why each source is compiled, and reads those that are. The host is asked whether objects are there.
#[tactic(auto, using(cc_host::proofs::Parts::since_append))]
pub(crate) fn choose<W: World, H: Host<W>, F: Files>(
    rt: &impl Wait,
    alloc: Global,
    build: &Build<W>,
    host: &mut H,
    files: &mut F,
    answers: &mut Answers,
    path: &str,
    units: &[TranslationUnit],
) -> Result<Choice, ReadError>
    ensures asks { Asking W.steady W.answer (probes build.now) (AsksForObject units.now)
        H.log H.patience host.old host.new answers.old answers.new }
    ensures quiet { AsksOnly (part H.log host.old host.new) }
    ensures read { IfOk result (λ choice. Holds answers.new (λ look.
        Adds (F.reads files.old) (F.reads files.new)
        (IsChoice path.now units.now look choice))) }
    ensures refused { IfErr result (λ e. Holds answers.new (λ look.
        AddsFirst (F.reads files.old) (F.reads files.new) (MayChoose path.now units.now look)
        e (F.faults files.old) (F.faults files.new))) }
    ensures later { F.faults files.old ≤ F.faults files.new }
{
    let kept = match read_kept(alloc, files, path) {
        Ok(kept) => kept,
        Err(error) => return Err(error),
    };
    let entries = kept.as_slice();
    let reasons = match reasons_of(rt, alloc, build, host, files, answers, entries, units) {
        Ok(reasons) => reasons,
        Err(error) => return Err(error),
    };
    let choices = match choices_of(alloc, reasons.as_slice()) {
        Ok(choices) => choices,
        Err(memory) => return Err(ReadError::from(memory)),
    };
    let states = match states_of(alloc, files, units, choices.as_slice()) {
        Ok(states) => states,
        Err(error) => return Err(error),
    };
    Ok(Choice {
        kept,
        reasons,
        choices,
        states,
    })
}
