// What ends the rest of a host: a pipe to which the threads of its children write, so that one `poll(2)` waits for them and for the pipes of the children
// that have no thread.
use crate::waiting::{awaited, left_out};
use libc::types::pollfd;
use std::io::{PipeReader, PipeWriter, Read, Write, pipe};
use std::rt::Files;
use std::sync::{Mutex, Wait, WaitMethods};

/// A bell that threads ring and a host hears as it rests, where a pipe could be made for it.
#[derive(Drop)]
pub struct Bell {
    rung: Mutex<bool>,
    ends: Option<(PipeReader, PipeWriter)>,
}

impl Bell {
    /// A bell that nobody rang.
    pub fn new(files: &impl Files) -> Bell {
        Bell {
            rung: Mutex::new(false),
            ends: pipe(files).ok(),
        }
    }

    /// Whether it has a pipe. Else nobody hears it.
    pub fn is_heard(&self) -> bool {
        self.ends.is_some()
    }

    /// Its pipe, to be waited for.
    pub fn pipe(&self) -> pollfd {
        match &self.ends {
            Some((heard, _)) => awaited(heard),
            None => left_out(),
        }
    }

    /// Rings. It stays rung, and the pipe has one byte, until it is hushed.
    pub fn ring(&self, rt: &impl Wait) {
        let mut rung = self.rung.lock(rt);
        if *rung {
            return;
        }
        if let Some((_, rings)) = &self.ends {
            let mut rings = rings;
            *rung = rings.write(&[1]).is_ok();
        }
    }

    /// Hears a ring, so that the next one is another. What it was rung for is to be looked at behind that.
    pub fn hush(&self, rt: &impl Wait) {
        let mut rung = self.rung.lock(rt);
        if !*rung {
            return;
        }
        if let Some((heard, _)) = &self.ends {
            let mut heard = heard;
            *rung = heard.read(&mut [0]).is_err();
        }
    }
}
