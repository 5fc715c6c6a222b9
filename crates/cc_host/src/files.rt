// Files that are read.
ghost use Rattle.std.specs.Prelude.{◌≡◌, ◌≤◌, ◌++◌, List, ℕ, Option, IfOk, IfErr, IfSome};
ghost use Rattle.cc_host.specs.Event.{Rose};
ghost use Rattle.cc_host.specs.Files.{read_of, held_in};
ghost use Rattle.cc_host.specs.declared.files.Held.{Held};
ghost use Rattle.cc_host.specs.declared.files.FileError.TheVariants.{Fault, NoMemory as WantsMemory};

use cc_text::{Bytes, Mem, NoMemory};
use std::alloc::AllocError;

/// What a path holds.
#[derive(Drop, Debug)]
pub enum Held {
    /// No file.
    Absent,
    /// A file with these bytes.
    Bytes(Bytes),
}

impl Held {
    /// A second one, equal to this one. Refused only for memory.
    pub fn try_clone(&self) -> Mem<Held>
        ensures { IfOk result (λ h. h ≡ self.now) }
    {
        match self {
            Held::Absent => Ok(Held::Absent),
            Held::Bytes(bytes) => Ok(Held::Bytes(bytes.try_clone()?)),
        }
    }
}

/// A refusal of a read.
#[derive(Clone, Copy, Debug, PartialEq, Eq)]
pub enum FileError {
    /// The file couldn't be read. The fault is counted.
    Fault,
    /// Memory was refused.
    NoMemory,
}

impl From<NoMemory> for FileError {
    ghost from_gives = { λ _ e. e ≡ WantsMemory };

    fn from(_: NoMemory) -> Self {
        FileError::NoMemory
    }
}

impl From<AllocError> for FileError {
    ghost from_gives = { λ _ e. e ≡ WantsMemory };

    fn from(_: AllocError) -> Self {
        FileError::NoMemory
    }
}

/// Files that are read. Each read that isn't refused is kept, with what it gave.
pub trait Files {
    /// The reads so far, oldest first: each path with what it gave.
    ghost reads: { Self → List (List ℕ × Held) };

    /// How often a read has failed. It never falls.
    ghost faults: { Self → ℕ };

    /// The files, each path with its bytes, where they are told. No read changes them.
    ghost told: { Self → Option (List (List ℕ × List ℕ)) };

    /// Reads the file of a path whole. Where there is none it is absent, which is no fault. A refused read adds nothing to the reads.
    fn read(&mut self, path: &str) -> Result<Held, FileError>
        ensures adds { reads self.new ≡ reads self.old ++ read_of path.now result }
        ensures held { IfOk result
            (λ held. IfSome (told self.old) (λ files. held ≡ held_in files path.now)) }
        ensures later { faults self.old ≤ faults self.new }
        ensures cause { IfErr result (λ e. e ≡ Fault → Rose (faults self.old) (faults self.new)) }
        ensures same { told self.new ≡ told self.old };
}
