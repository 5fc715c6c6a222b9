// Why sources are compiled, and which files are read to find it out.
ghost use Rattle.std.specs.Prelude.{◌≡◌, ◌≤◌, ◌++◌, [], ◌∷◌, ℕ, List, Option, length, slice_get, find, bytes_eq, IfOk, IfErr, OnOk, OnErr};
ghost use Rattle.std.specs.Option.{option_copied};
ghost use Rattle.cc_fresh.specs.Reads.{Adds, AddsFirst, IsOne};
ghost use Rattle.cc_fresh.specs.Reason.{agrees, AddsOne, ReadTo, IsRead, AreRead};
ghost use Rattle.cc_fresh.specs.declared.reason.Reason.{Reason as ReasonSeen};

use crate::file::{ReadError, read_file};
use crate::{Entry, digest};
use cc_host::{Files, Held};
use cc_text::{Mem, Text};
use std::alloc::Global;
use std::marker::Model;

/// Why the object of a source is made anew, or why it isn't: the first of these that applies, in this order, and else
/// it is fresh.
#[derive(Clone, Copy, Debug, PartialEq, Eq)]
pub enum Reason {
    /// All agrees with what is kept of it.
    Fresh,
    /// Nothing is kept of it.
    NoEntry,
    /// Its command is another than the one that made it.
    Command,
    /// It isn't there.
    NoObject,
    /// Its source is absent, or another than it was made of.
    Source,
    /// So is the further file at this place, counted from 0, and those before it agree.
    Dependency(u64),
}

/// The reasons of sources, in their order. Contracts see a list.
#[derive(Drop, Debug)]
pub struct Reasons {
    items: Vec<Reason>,
}

impl Model for Reasons {
    ghost Value = { List ReasonSeen };

    ghost view = { λ r. r.items.items };
}

impl Reasons {
    /// No reason. It takes no memory.
    pub(crate) fn new(alloc: Global) -> Reasons
        ensures { result ≡ [] }
    {
        Reasons {
            items: Vec::new(alloc),
        }
    }

    /// Adds a reason last. Refused for memory, they stay as they were.
    pub(crate) fn push(&mut self, reason: Reason) -> Mem<()>
        ensures ok { OnOk result (self.new ≡ self.old ++ reason ∷ []) }
        ensures err { OnErr result (self.new ≡ self.old) }
    {
        self.items.push(reason)?;
        Ok(())
    }

    /// How many there are. It takes no memory.
    pub fn len(&self) -> usize
        ensures { result ≡ length self.now }
    {
        self.items.len()
    }

    /// The reason of the source at a place, counted from 0, lent, or none past the end. It takes no memory.
    pub fn get(&self, place: usize) -> Option<&Reason>
        ensures { option_copied result ≡ slice_get self.now place }
    {
        self.items.get(place)
    }

    /// The reasons in order, lent. It takes no memory.
    pub(crate) fn as_slice(&self) -> &[Reason]
        ensures { result.now ≡ self.now }
    {
        self.items.as_slice()
    }
}

// Whether what was read has this digest.
fn has_digest(alloc: Global, held: &Held, wanted: &str) -> Mem<bool>
    ensures { IfOk result (λ same. same ≡ agrees wanted.now held.now) }
{
    match held {
        Held::Absent => Ok(false),
        Held::Bytes(bytes) => {
            let found = digest(alloc, bytes.as_slice())?;
            Ok(found.as_str() == wanted)
        }
    }
}

// Reads a file, and tells whether it has this digest.
fn read_one<F: Files>(
    alloc: Global,
    files: &mut F,
    path: &str,
    wanted: &str,
) -> Result<bool, ReadError>
    ensures read { IfOk result (λ same. AddsOne
        (F.reads files.old) (F.reads files.new) path.now wanted.now same) }
    ensures refused { IfErr result (λ e. AddsFirst (F.reads files.old) (F.reads files.new)
        (IsOne path.now) e (F.faults files.old) (F.faults files.new)) }
    ensures later { F.faults files.old ≤ F.faults files.new }
{
    let held = read_file(alloc, files, path)?;
    let same = has_digest(alloc, &held, wanted)?;
    Ok(same)
}

// Reads these files, each with the digest that it is to have, up to the first that doesn't have it, and answers its
// place.
fn first_off<F: Files>(
    alloc: Global,
    files: &mut F,
    deps: &[(Text, Text)],
) -> Result<Option<usize>, ReadError>
    ensures read { IfOk result (λ off. Adds (F.reads files.old) (F.reads files.new)
        (λ told. ReadTo 0 deps.now told off)) }
    ensures refused { IfErr result (λ e. AddsFirst (F.reads files.old) (F.reads files.new)
        (λ told. (off : Option ℕ) × ReadTo 0 deps.now told off)
        e (F.faults files.old) (F.faults files.new)) }
    ensures later { F.faults files.old ≤ F.faults files.new }
{
    for (place, dep) in deps.iter().enumerate() {
        if !read_one(alloc, files, dep.0.as_str(), dep.1.as_str())? {
            return Ok(Some(place));
        }
    }
    Ok(None)
}

/// The entry of an object, the first where there are several, or none. It takes no memory.
pub(crate) fn entry_of<'a>(entries: &'a [Entry], object: &str) -> Option<&'a Entry>
    ensures { option_copied result ≡ find (λ e. bytes_eq e.object object.now) entries.now }
{
    entries.iter().find(|entry| entry.object.as_str() == object)
}

/// The reason that the files of an entry give: reads its source and the further files, up to the first that is absent
/// or has another digest.
pub(crate) fn read_reason<F: Files>(
    alloc: Global,
    files: &mut F,
    source: &str,
    entry: &Entry,
) -> Result<Reason, ReadError>
    ensures read { IfOk result (λ reason. Adds (F.reads files.old) (F.reads files.new)
        (IsRead source.now entry.now reason)) }
    ensures refused { IfErr result (λ e. AddsFirst (F.reads files.old) (F.reads files.new)
        (AreRead source.now entry.now) e (F.faults files.old) (F.faults files.new)) }
    ensures later { F.faults files.old ≤ F.faults files.new }
{
    if !read_one(alloc, files, source, entry.source.as_str())? {
        return Ok(Reason::Source);
    }
    match first_off(alloc, files, entry.deps.as_slice())? {
        Some(place) => Ok(Reason::Dependency(place as u64)),
        None => Ok(Reason::Fresh),
    }
}
