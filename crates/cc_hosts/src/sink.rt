// What takes the place of the null device on a machine where that can't be opened: a pipe that is read and dropped.
use crate::waiting::{awaited, is_told, left_out, wait_for};
use libc::types::pollfd;
use std::fs::OpenOptions;
use std::io::{self, PipeReader, PipeWriter, Read, pipe};
use std::process::Stdio;
use std::rt::Files;

/// A pipe for what children write to nobody, which is to be read and dropped, and one at its end for those that have nothing to read.
#[derive(Drop)]
pub struct Sink {
    heard: PipeReader,
    taken: PipeWriter,
    empty: PipeReader,
}

// How much is dropped at once, and how often in a row.
const READ: usize = 8192;

const READS: u32 = 64;

fn has_null(files: &impl Files) -> bool {
    OpenOptions::new()
        .read(true)
        .write(true)
        .open(files, "/dev/null")
        .is_ok()
}

impl Sink {
    /// A sink where the null device can't be opened, and pipes can be made.
    pub fn for_null(files: &impl Files) -> Option<Sink> {
        if has_null(files) {
            None
        } else {
            Sink::new(files).ok()
        }
    }

    /// A sink, where pipes can be made.
    pub fn new(files: &impl Files) -> io::Result<Sink> {
        let (heard, taken) = pipe(files)?;
        let (empty, _) = pipe(files)?;
        Ok(Sink {
            heard,
            taken,
            empty,
        })
    }

    /// A standard input at its end.
    pub fn input(&self) -> io::Result<Stdio> {
        Ok(Stdio::from(self.empty.try_clone()?))
    }

    /// An output to nobody.
    pub fn output(&self) -> io::Result<Stdio> {
        Ok(Stdio::from(self.taken.try_clone()?))
    }

    /// Its pipe, to be waited for.
    pub fn pipe(&self) -> pollfd {
        awaited(&self.heard)
    }

    /// Drops what was written to it.
    pub fn drain(&self) {
        for _ in 0..READS {
            let mut asked = [self.pipe()];
            if !wait_for(&mut asked, 0) || !is_told(&asked[0]) {
                return;
            }
            let mut heard = &self.heard;
            let _ = heard.read(&mut [0; READ]);
        }
    }
}

/// The pipe of a sink, to be waited for, where there is one.
pub fn pipe_of(sink: Option<&Sink>) -> pollfd {
    match sink {
        Some(sink) => sink.pipe(),
        None => left_out(),
    }
}

/// Drops what was written to a sink, where there is one.
pub fn drain(sink: Option<&Sink>) {
    if let Some(sink) = sink {
        sink.drain();
    }
}
