// The outputs of a child that is run to its end, each read as it comes.
use crate::late::Late;
use crate::sink::{Sink, drain, pipe_of};
use crate::waiting::{awaited, is_told, left_out, wait_for};
use libc::types::pollfd;
use std::alloc::Global;
use std::io::{self, ErrorKind, PipeReader, Read};
use std::process::{Child, OpenProcess};
use std::sync::{Wait, WaitMethods};

// How much is read at once.
const READ: usize = 8192;

// How long they are waited for before the child is asked whether it ended, in milliseconds.
const PATIENCE: i32 = 50;

/// What a child wrote on an output, and whether another process holds it on.
#[derive(Drop)]
pub struct Output {
    pub bytes: Vec<u8>,
    pub is_held: bool,
}

/// What a child wrote on its outputs.
#[derive(Drop)]
pub struct Written {
    pub out: Output,
    pub err: Output,
}

// An output that is read: its pipe until that is closed.
#[derive(Drop)]
struct Outlet {
    pipe: Option<PipeReader>,
    bytes: Vec<u8>,
}

impl Outlet {
    fn new(alloc: Global, pipe: Option<PipeReader>) -> Outlet {
        Outlet {
            pipe,
            bytes: Vec::new(alloc),
        }
    }

    fn is_closed(&self) -> bool {
        self.pipe.is_none()
    }

    // Its pipe, to be waited for. One that is closed is left out.
    fn awaited(&self) -> pollfd {
        match &self.pipe {
            Some(pipe) => awaited(pipe),
            None => left_out(),
        }
    }

    // Reads once.
    fn read(&mut self) -> io::Result<()> {
        let mut buffer = [0; READ];
        let read = match &mut self.pipe {
            Some(pipe) => pipe.read(&mut buffer),
            None => return Ok(()),
        };
        match read {
            Ok(0) => self.pipe = None,
            Ok(len) => self.bytes.extend_from_slice(&buffer[..len])?,
            Err(error) if error.kind() == ErrorKind::Interrupted => {}
            Err(error) => return Err(error),
        }
        Ok(())
    }

    fn into_output(self) -> Output {
        Output {
            is_held: self.pipe.is_some(),
            bytes: self.bytes,
        }
    }
}

// Reads once what comes on either output within the patience, and drops what comes to the sink. Answers whether both were silent. Where they can't be
// waited for, one that is left alone is read all the same.
fn hear(out: &mut Outlet, err: &mut Outlet, sink: Option<&Sink>) -> io::Result<bool> {
    let mut asked = [out.awaited(), err.awaited(), pipe_of(sink)];
    if !wait_for(&mut asked, PATIENCE) {
        return hear_one(out, err);
    }
    if is_told(&asked[2]) {
        drain(sink);
    }
    if is_told(&asked[0]) {
        out.read()?;
    }
    if is_told(&asked[1]) {
        err.read()?;
    }
    Ok(!is_told(&asked[0]) && !is_told(&asked[1]))
}

fn hear_one(out: &mut Outlet, err: &mut Outlet) -> io::Result<bool> {
    if out.is_closed() {
        err.read()?;
    } else if err.is_closed() {
        out.read()?;
    } else {
        return Err(io::Error::from(ErrorKind::Unsupported));
    }
    Ok(false)
}

// Whether a child ended, or can't be asked.
fn has_ended<P: OpenProcess + Drop>(child: &mut Child<P>) -> bool {
    !matches!(child.try_wait(), Ok(None))
}

/// Reads the outputs of a child until both are closed, or, behind its end, for so long as one is heard on that another process holds. Where there is a
/// sink, it reads on to the child's end.
pub fn read_outputs<R: Wait, P: OpenProcess + Drop>(
    rt: &R,
    alloc: Global,
    child: &mut Child<P>,
    pipes: (Option<PipeReader>, Option<PipeReader>),
    sink: Option<&Sink>,
) -> io::Result<Written> {
    let mut out = Outlet::new(alloc, pipes.0);
    let mut err = Outlet::new(alloc, pipes.1);
    let mut late = Late::new();
    for _ in rt.forever() {
        if out.is_closed() && err.is_closed() && (sink.is_none() || late.has_begun()) {
            break;
        }
        let is_silent = hear(&mut out, &mut err, sink)?;
        if late.leaves(is_silent) {
            break;
        }
        if late.asks(is_silent) && has_ended(child) {
            late.begin();
        }
    }
    Ok(Written {
        out: out.into_output(),
        err: err.into_output(),
    })
}
