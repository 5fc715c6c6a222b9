// What a compiled source was made of, as its compiler tells it.
ghost use Rattle.std.specs.Prelude.{◌≡◌, ◌≤◌, List, Option, IfOk, IfErr, OnOk};
ghost use Rattle.cc_fresh.specs.Made.{Dep, digested, names_in, ReadNames, ReadMade};
ghost use Rattle.cc_fresh.specs.Reads.{Adds, AddsFirst};

use crate::file::{ReadError, read_digest, read_file};
use crate::{DepsError, read_deps};
use cc_host::{Files, Held};
use cc_text::{Mem, NoMemory, Text, Vars, Words, with_extension};
use std::alloc::Global;

// Reads these files up to the first that is absent, and answers each with its digest, or none where one is absent.
fn read_names<F: Files>(
    alloc: Global,
    files: &mut F,
    names: &[Text],
) -> Result<Option<Vars>, ReadError>
    ensures read { IfOk result (λ deps. Adds (F.reads files.old) (F.reads files.new)
        (λ told. ReadNames names.now told deps)) }
    ensures refused { IfErr result (λ e. AddsFirst (F.reads files.old) (F.reads files.new)
        (λ told. (deps : Option (List Dep)) × ReadNames names.now told deps)
        e (F.faults files.old) (F.faults files.new)) }
    ensures later { F.faults files.old ≤ F.faults files.new }
{
    let mut deps = Vars::new(alloc);
    for name in names {
        match read_digest(alloc, files, name.as_str())? {
            Some(found) => deps.push(name.as_str(), found.as_str())?,
            None => return Ok(None),
        }
    }
    Ok(Some(deps))
}

// The names that a compiler tells of, or none where the text isn't there or is none.
fn names_of(alloc: Global, held: &Held) -> Mem<Option<Words>>
    ensures { IfOk result (λ names. names ≡ names_in held.now) }
{
    match held {
        Held::Absent => Ok(None),
        Held::Bytes(text) => match read_deps(alloc, text.as_slice()) {
            Ok(names) => Ok(Some(names)),
            Err(DepsError::NoColon) => Ok(None),
            Err(DepsError::NotText) => Ok(None),
            Err(DepsError::NoMemory) => Err(NoMemory),
        },
    }
}

// The files that are digested for an object: those of these names, and where objects are checked, the object.
fn digested_of(checks_object: bool, object: &str, names: Words) -> Mem<Words>
    ensures { IfOk result (λ files. files ≡ digested checks_object object.now names) }
{
    let mut files = names;
    if checks_object {
        files.push(object)?;
    }
    Ok(files)
}

/// Reads the text that the compiler of an object writes of its files, beside the object, and then the files that it
/// names, up to the first that is absent, and behind them the object itself, where objects are checked. Answers each
/// with its digest, or none where one is absent or there is no such text.
pub(crate) fn read_made<F: Files>(
    alloc: Global,
    files: &mut F,
    checks_object: bool,
    object: &str,
) -> Result<Option<Vars>, ReadError>
    ensures read { IfOk result (λ deps. Adds (F.reads files.old) (F.reads files.new)
        (λ told. ReadMade checks_object object.now told deps)) }
    ensures refused { IfErr result (λ e. AddsFirst (F.reads files.old) (F.reads files.new)
        (λ told. (deps : Option (List Dep)) × ReadMade checks_object object.now told deps)
        e (F.faults files.old) (F.faults files.new)) }
    ensures later { F.faults files.old ≤ F.faults files.new }
{
    let path = with_extension(alloc, object, "d")?;
    let held = read_file(alloc, files, path.as_str())?;
    match names_of(alloc, &held)? {
        Some(names) => {
            let names = digested_of(checks_object, object, names)?;
            read_names(alloc, files, names.as_slice())
        }
        None => Ok(None),
    }
}
