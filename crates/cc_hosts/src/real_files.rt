// Files of the machine that are read.
ghost use Rattle.std.specs.Prelude.{◌≡◌, None, IfOk};
ghost use Rattle.cc_hosts.specs.FilesSeen.{FilesSeen, unread};

use cc_host::{FileError, Files, Held};
use cc_text::{Bytes, Mem, NoMemory, Text};
use std::alloc::{AllocGlobal, Global};
use std::io::ErrorKind;
use std::marker::Model;
use std::{fs, rt};

/// The files of the machine, by its runtime. They keep the trait `Files`, and no more is proved of them: no proof can say what a file
/// holds.
#[derive(Drop)]
pub struct RealFiles<R> {
    rt: R,
    alloc: Global,
    reads: Vec<(Text, Held)>,
    faults: u64,
}

impl<R> Model for RealFiles<R> {
    ghost Value = { FilesSeen };

    ghost view = { λ f. record { reads = f.reads.items; faults = f.faults } };
}

impl<R: AllocGlobal> RealFiles<R> {
    /// The files before the first read.
    pub fn new(rt: R) -> Mem<RealFiles<R>>
        ensures { IfOk result (λ f. f ≡ unread) }
    {
        let alloc = rt.alloc();
        Ok(RealFiles {
            rt,
            alloc,
            reads: Vec::new(alloc),
            faults: 0,
        })
    }
}

// What a path holds, or none where that can't be read.
fn held_at(rt: &(impl rt::Files + AllocGlobal), path: &str) -> Mem<Option<Held>> {
    match fs::read(rt, path) {
        Ok(bytes) => Ok(Some(Held::Bytes(Bytes::owning(bytes)))),
        Err(error) => match error.kind() {
            ErrorKind::NotFound => Ok(Some(Held::Absent)),
            ErrorKind::NotADirectory => Ok(Some(Held::Absent)),
            ErrorKind::OutOfMemory => Err(NoMemory),
            _ => Ok(None),
        },
    }
}

impl<R: rt::Files + AllocGlobal> Files for RealFiles<R> {
    ghost reads = { λ f. f.reads };

    ghost faults = { λ f. f.faults };

    ghost told = { λ _. None };

    fn read(&mut self, path: &str) -> Result<Held, FileError> {
        self.reads.reserve(1)?;
        let name = Text::of(self.alloc, path)?;
        let Some(held) = held_at(&self.rt, path)? else {
            self.faults = self.faults.saturating_add(1);
            return Err(FileError::Fault);
        };
        let kept = held.try_clone()?;
        self.reads.push_reserved((name, kept));
        Ok(held)
    }
}
