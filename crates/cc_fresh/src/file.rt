// Files that are read one after another.
ghost use Rattle.std.specs.Prelude.{◌≡◌, ◌≤◌, ◌++◌, [], ◌∷◌, IfOk, IfErr};
ghost use Rattle.cc_fresh.specs.Reads.{AddsFirst, AddsHeld, IsOne};
ghost use Rattle.cc_fresh.specs.Made.{digest_of as digest_in};
ghost use Rattle.cc_fresh.specs.declared.file.ReadError.TheVariants.{NoMemory as WantsMemory};

use crate::digest;
use cc_host::{FileError, Files, Held};
use cc_text::{Mem, NoMemory, Text};
use std::alloc::{AllocFailed, Global};

/// Why files weren't read further.
#[derive(Drop, Debug)]
pub(crate) enum ReadError {
    /// The file of this path couldn't be read.
    Fault(Text),
    /// Memory was refused.
    NoMemory,
}

impl From<NoMemory> for ReadError {
    ghost from_gives = { λ _ e. e ≡ WantsMemory };

    fn from(_: NoMemory) -> Self {
        ReadError::NoMemory
    }
}

impl<T: Drop> From<AllocFailed<T>> for ReadError {
    ghost from_gives = { λ _ e. e ≡ WantsMemory };

    fn from(_: AllocFailed<T>) -> Self {
        ReadError::NoMemory
    }
}

/// Reads the file of a path.
pub(crate) fn read_file<F: Files>(
    alloc: Global,
    files: &mut F,
    path: &str,
) -> Result<Held, ReadError>
    ensures read { IfOk result (λ held. F.reads files.new
        ≡ F.reads files.old ++ (path.now, held) ∷ []) }
    ensures refused { IfErr result (λ e. AddsFirst (F.reads files.old) (F.reads files.new)
        (IsOne path.now) e (F.faults files.old) (F.faults files.new)) }
    ensures later { F.faults files.old ≤ F.faults files.new }
{
    match files.read(path) {
        Ok(held) => Ok(held),
        Err(FileError::Fault) => Err(ReadError::Fault(Text::of(alloc, path)?)),
        Err(FileError::NoMemory) => Err(ReadError::NoMemory),
    }
}

// The digest of what was read, where there is a file.
fn digest_of(alloc: Global, held: &Held) -> Mem<Option<Text>>
    ensures { IfOk result (λ found. found ≡ digest_in held.now) }
{
    match held {
        Held::Absent => Ok(None),
        Held::Bytes(bytes) => Ok(Some(digest(alloc, bytes.as_slice())?)),
    }
}

/// Reads a file, and answers its digest, where there is one.
pub(crate) fn read_digest<F: Files>(
    alloc: Global,
    files: &mut F,
    path: &str,
) -> Result<Option<Text>, ReadError>
    ensures read { IfOk result (λ found. AddsHeld
        (F.reads files.old) (F.reads files.new) path.now (λ held. found ≡ digest_in held)) }
    ensures refused { IfErr result (λ e. AddsFirst (F.reads files.old) (F.reads files.new)
        (IsOne path.now) e (F.faults files.old) (F.faults files.new)) }
    ensures later { F.faults files.old ≤ F.faults files.new }
{
    let held = read_file(alloc, files, path)?;
    let found = digest_of(alloc, &held)?;
    Ok(found)
}
