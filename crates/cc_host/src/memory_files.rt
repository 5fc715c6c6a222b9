// Files in memory.
ghost use Rattle.std.specs.Prelude.{◌≡◌, ◌≤◌, ◌++◌, ◌∷◌, [], Some, IfOk, OnOk, OnErr, IfErr};
ghost use Rattle.cc_host.specs.Event.{Rose};
ghost use Rattle.cc_host.specs.Files.{MemoryFilesSeen, no_files, with_bytes, with_failed_read, fails_next, read_of, held_in, IsRead};
ghost use Rattle.cc_host.specs.declared.files.FileError.TheVariants.{Fault};

use crate::calls::plus_one;
use crate::{FileError, Files, Held};
use cc_text::{Bytes, Mem, Text, VecMap};
use std::alloc::Global;
use std::marker::Model;

/// Files in memory. They are those that were put there, and a read faults exactly where `fail` names it.
#[derive(Drop)]
pub struct MemoryFiles {
    alloc: Global,
    files: VecMap<Text, Bytes>,
    reads: Vec<(Text, Held)>,
    failures: Vec<u64>,
    made: u64,
    faults: u64,
}

impl Model for MemoryFiles {
    ghost Value = { MemoryFilesSeen };

    ghost view = { λ f. record {
      files = f.files;
      reads = f.reads.items;
      failures = f.failures.items;
      made = f.made;
      faults = f.faults;
    } };
}

impl MemoryFiles {
    /// No file. It takes no memory.
    pub fn new(alloc: Global) -> Mem<MemoryFiles>
        ensures { IfOk result (λ f. f ≡ no_files) }
    {
        Ok(MemoryFiles {
            alloc,
            files: VecMap::new(alloc),
            reads: Vec::new(alloc),
            failures: Vec::new(alloc),
            made: 0,
            faults: 0,
        })
    }

    /// Puts a file with these bytes at the path, in the place of one that is there. Refused for memory, the files stay as they were.
    pub fn put(&mut self, path: &str, bytes: &[u8]) -> Mem<()>
        ensures ok { OnOk result (self.new ≡ with_bytes path.now bytes.now self.old) }
        ensures err { OnErr result (self.new ≡ self.old) }
    {
        let path = Text::of(self.alloc, path)?;
        let bytes = Bytes::of(self.alloc, bytes)?;
        self.files.insert(path, bytes)
    }

    /// Makes the nth read, from 1, fault. A read that was refused for memory counts for none. Refused for memory itself, the files stay
    /// as they were.
    pub fn fail(&mut self, nth: u64) -> Mem<()>
        ensures ok { OnOk result (self.new ≡ with_failed_read nth self.old) }
        ensures err { OnErr result (self.new ≡ self.old) }
    {
        self.failures.push(nth)?;
        Ok(())
    }

    // Whether the next read is to fail.
    fn fails_next(&self) -> bool
        ensures { result ≡ fails_next self.now }
    {
        let made = self.made;
        self.failures
            .iter()
            .any(|nth| nth.checked_sub(1) == Some(made))
    }

    // What a path holds.
    fn held(&self, path: &Text) -> Mem<Held>
        ensures { IfOk result (λ held. held ≡ held_in self.now.files path.now) }
    {
        match self.files.get(path) {
            Some(bytes) => Ok(Held::Bytes(bytes.try_clone()?)),
            None => Ok(Held::Absent),
        }
    }
}

impl Files for MemoryFiles {
    ghost reads = { λ f. f.reads };

    ghost faults = { λ f. f.faults };

    ghost told = { λ f. Some f.files };

    fn read(&mut self, path: &str) -> Result<Held, FileError>
        ensures adds { self.new.reads ≡ self.old.reads ++ read_of path.now result }
        ensures held { IfOk result (λ held. held ≡ held_in self.old.files path.now) }
        ensures later { self.old.faults ≤ self.new.faults }
        ensures cause { IfErr result (λ e. e ≡ Fault → Rose self.old.faults self.new.faults) }
        ensures same { Some self.new.files ≡ Some self.old.files }
        ensures answers { IsRead path.now self.old self.new result }
    {
        if self.fails_next() {
            self.made = plus_one(self.made);
            self.faults = plus_one(self.faults);
            return Err(FileError::Fault);
        }
        let name = Text::of(self.alloc, path)?;
        let held = self.held(&name)?;
        let kept = held.try_clone()?;
        self.reads.reserve(1)?;
        self.reads.push_reserved((name, kept));
        self.made = plus_one(self.made);
        Ok(held)
    }
}
