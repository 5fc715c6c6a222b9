// What is kept of objects.
ghost use Rattle.std.specs.Prelude.{◌≡◌, ◌++◌, [], ◌∷◌, List, length, slice_get, IfOk, OnOk, OnErr};
ghost use Rattle.std.specs.Option.{option_copied};
ghost use Rattle.cc_fresh.specs.Record.{AreTexts, read_record, record_text};
ghost use Rattle.cc_fresh.specs.declared.record.Entry.{Entry as EntrySeen};

use cc_text::{Mem, Text, Vars};
use std::alloc::Global;
use std::marker::Model;

/// What an object was made of: a command, a source and further files, by the digests that they had.
#[derive(Drop, Debug)]
pub struct Entry {
    /// The object's path.
    pub object: Text,
    /// The digest of the command that made it.
    pub command: Text,
    /// The digest of its source.
    pub source: Text,
    /// The paths of the further files, each with its digest.
    pub deps: Vars,
}

impl Entry {
    /// A second entry, equal to this one, which shares the list of the further files. Only want of memory refuses;
    /// nothing is kept then.
    pub fn try_clone(&self) -> Mem<Entry>
        ensures { IfOk result (λ e. e ≡ self.now) }
    {
        Ok(Entry {
            object: self.object.try_clone()?,
            command: self.command.try_clone()?,
            source: self.source.try_clone()?,
            deps: self.deps.try_clone()?,
        })
    }
}

/// What objects were made of, an entry for each. Contracts see a list of entries.
#[derive(Drop, Debug)]
pub struct Record {
    entries: Vec<Entry>,
}

impl Model for Record {
    ghost Value = { List EntrySeen };

    ghost view = { λ r. r.entries.items };
}

impl Record {
    /// The empty record. It takes no memory; the first push may.
    pub fn new(alloc: Global) -> Record
        ensures { result ≡ [] }
    {
        Record {
            entries: Vec::new(alloc),
        }
    }

    /// The record of these entries, taken over. It takes no memory.
    pub(crate) fn owning(entries: Vec<Entry>) -> Record
        ensures { result ≡ entries.items }
    {
        Record { entries }
    }

    /// Adds an entry last, and takes it over. Refused for memory, the record stays as it was, and the entry is dropped.
    pub fn push(&mut self, entry: Entry) -> Mem<()>
        ensures ok { OnOk result (self.new ≡ self.old ++ entry ∷ []) }
        ensures err { OnErr result (self.new ≡ self.old) }
    {
        self.entries.push(entry)?;
        Ok(())
    }

    /// How many entries there are. It takes no memory.
    pub fn len(&self) -> usize
        ensures { result ≡ length self.now }
    {
        self.entries.len()
    }

    /// The entry at a place, counted from 0, lent, or none past the end. It takes no memory.
    pub fn get(&self, place: usize) -> Option<&Entry>
        ensures { option_copied result ≡ slice_get self.now place }
    {
        self.entries.get(place)
    }

    /// The entries in order, lent. It takes no memory.
    pub(crate) fn as_slice(&self) -> &[Entry]
        ensures { result.now ≡ self.now }
    {
        self.entries.as_slice()
    }
}

/// What is read of a record's text is the record. This is the law alone; it does nothing.
pub fn reads_back()
    ensures { (kept : List EntrySeen) → AreTexts kept → read_record (record_text kept) ≡ kept }
{}

#[cfg(test)]
mod tests {
    use super::*;
    use crate::{read_record, write_record};
    use std::test::Fail;

    fn entry(alloc: Global, object: &str) -> Mem<Entry> {
        let mut deps = Vars::new(alloc);
        deps.push("p", "d")?;
        Ok(Entry {
            object: Text::of(alloc, object)?,
            command: Text::of(alloc, "c")?,
            source: Text::of(alloc, "s")?,
            deps,
        })
    }

    #[test]
    fn entries_are_written_and_read_in_order(rt: HostRuntime) -> Result<(), Fail> {
        let alloc = rt.alloc();
        let mut kept = Record::new(alloc);
        kept.push(entry(alloc, "o")?.try_clone()?)?;
        let one =
            r#"{"objects":[{"command":"c","deps":[["p","d"]],"object":"o","source":"s"}],"version":1}"#;
        assert!(rt; write_record(alloc, &kept)?.as_slice() == one.as_bytes());
        kept.push(entry(alloc, "q")?)?;
        let back = read_record(alloc, write_record(alloc, &kept)?.as_slice())?;
        let mut objects = Text::new(alloc);
        for place in 0..3 {
            if let Some(entry) = back.get(place) {
                objects.push_str(entry.object.as_str())?;
            }
        }
        assert_eq!(rt; objects.as_str(), "oq");
        Ok(())
    }
}
