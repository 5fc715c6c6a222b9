// What was heard of a child, and is kept until the host takes it.
ghost use Rattle.std.specs.Prelude.{◌≡◌, IfOk};
ghost use Rattle.cc_host.specs.ChildLog.{IsPieceBy, piece_by};

use cc_host::{News, RunningChild, Status};
use cc_text::{Bytes, Mem};
use std::alloc::Global;

/// How many bytes of a child's standard error are kept until the host takes them. The child that writes more waits, as at any full pipe.
pub const KEPT: usize = 65536;

// For how many there is room from the start. Most children write less.
const FIRST: usize = 1024;

/// What was heard of a child and not yet taken, how it ended, and whether it was left.
#[derive(Drop)]
pub struct Heard {
    bytes: Vec<u8>,
    pub unread: bool,
    pub ended: Option<Status>,
    pub is_left: bool,
}

/// What was taken of a child, so that it can be forgotten.
#[derive(Clone, Copy, Debug)]
pub struct Taken {
    bytes: usize,
    unread: bool,
    pub ended: bool,
}

impl Taken {
    /// Nothing.
    pub const fn none() -> Taken {
        Taken {
            bytes: 0,
            unread: false,
            ended: false,
        }
    }
}

// The piece that a child gives, where its standard error can be read.
fn piece_by(alloc: Global, mute: bool, bytes: &[u8]) -> Mem<Option<Bytes>>
    ensures { IfOk result (λ piece. piece ≡ piece_by mute bytes.now) }
{
    if mute || bytes.is_empty() {
        Ok(None)
    } else {
        Ok(Some(Bytes::of(alloc, bytes)?))
    }
}

impl Heard {
    /// Nothing yet.
    pub fn new(alloc: Global) -> Mem<Heard> {
        Ok(Heard {
            bytes: Vec::with_capacity(alloc, FIRST)?,
            unread: false,
            ended: None,
            is_left: false,
        })
    }

    /// Whether the child did something since the last turn.
    pub fn has_news(&self) -> bool {
        !self.bytes.is_empty() || self.unread || self.ended.is_some()
    }

    /// How many bytes more can be kept. Where memory for more is wanting, what is kept has to be taken first.
    pub fn room(&mut self) -> usize {
        let len = self.bytes.len();
        if len == self.bytes.capacity() && len < KEPT {
            let _ = self.bytes.reserve(len);
        }
        self.bytes.capacity().min(KEPT).saturating_sub(len)
    }

    /// Keeps what was read, for which there was room. Bytes that can't be kept count as unread.
    pub fn add(&mut self, bytes: &[u8]) {
        if self.bytes.extend_from_slice(bytes).is_err() {
            self.unread = true;
        }
    }

    /// What the child did since the last turn.
    #[tactic(auto, using(crate::proofs::RunningLemmas::piece_is))]
    pub fn news(&self, alloc: Global, child: RunningChild) -> Mem<News>
        ensures own { IfOk result (λ n. n.id ≡ child.id) }
        ensures piece { IfOk result (λ n. IsPieceBy child.mute n.piece) }
    {
        Ok(News {
            id: child.id,
            piece: piece_by(alloc, child.mute, &self.bytes)?,
            unread: self.unread,
            ended: self.ended,
        })
    }

    /// What is taken with the news.
    pub fn taken(&self) -> Taken {
        Taken {
            bytes: self.bytes.len(),
            unread: self.unread,
            ended: self.ended.is_some(),
        }
    }

    /// Forgets what was taken. What came since is kept.
    pub fn forget(&mut self, taken: Taken) {
        let len = self.bytes.len();
        if taken.bytes < len {
            self.bytes.copy_within(taken.bytes.., 0);
            self.bytes.truncate(len - taken.bytes);
        } else {
            self.bytes.clear();
        }
        if taken.unread {
            self.unread = false;
        }
    }
}
