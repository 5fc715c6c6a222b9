// Bytes that come in pieces, cut into lines.
ghost use Rattle.std.specs.Prelude.{◌≡◌, ◌++◌, [], map, IfOk, OnOk, OnErr};
ghost use Rattle.cc_run.specs.Lines.{pieces, whole_lines, rest_of, last_line};

use cc_text::{Bytes, Mem};
use std::alloc::Global;
use std::marker::Model;
use std::mem;

/// The lines of a standard error that comes in pieces, however it is cut. Contracts see the bytes that came since the
/// last line feed.
#[derive(Drop)]
pub struct Forwarder {
    alloc: Global,
    rest: Vec<u8>,
}

impl Model for Forwarder {
    ghost use Rattle.std.specs.Prelude.{List, ℕ};
    ghost use Rattle.cc_run.specs.Lines.{IsUncut};

    ghost Value = { List ℕ };

    ghost view = { λ f. f.rest.items };

    ghost invariant = { λ f. IsUncut f.rest.items };
}

impl Forwarder {
    /// No bytes yet. It takes no memory.
    pub fn new(alloc: Global) -> Forwarder
        ensures { result ≡ [] }
    {
        Forwarder {
            alloc,
            rest: Vec::new(alloc),
        }
    }

    /// Takes the next piece, and gives the lines that it ends, without their line feeds. Refused for memory, it stays
    /// as it was.
    pub fn take(&mut self, piece: &[u8]) -> Mem<Vec<Bytes>>
        ensures lines { IfOk result (λ lines. lines.items ≡ whole_lines (self.old ++ piece.now)) }
        ensures rest { OnOk result (self.new ≡ rest_of (self.old ++ piece.now)) }
        ensures err { OnErr result (self.new ≡ self.old) }
    {
        let mut lines = Vec::new(self.alloc);
        let parts = pieces_of(self.alloc, piece)?;
        match parts.as_slice() {
            [head, middle @ .., last] => {
                let mut first = Vec::from_slice(self.alloc, self.rest.as_slice())?;
                first.extend_from_slice(head)?;
                lines.push(Bytes::owning(first))?;
                push_each(self.alloc, &mut lines, middle)?;
                self.rest = Vec::from_slice(self.alloc, last)?;
                Ok(lines)
            }
            [only] => {
                self.rest.extend_from_slice(only)?;
                Ok(lines)
            }
            [] => Ok(lines),
        }
    }

    /// The bytes after the last line feed, where there are some. It takes no memory.
    pub fn finish(&mut self) -> Option<Bytes>
        ensures line { result ≡ last_line self.old }
        ensures none { self.new ≡ [] }
    {
        let rest = mem::replace(&mut self.rest, Vec::new(self.alloc));
        if rest.is_empty() {
            return None;
        }
        Some(Bytes::owning(rest))
    }
}

// The pieces of a text between line feeds, lent.
pub(crate) fn pieces_of<'a>(alloc: Global, text: &'a [u8]) -> Mem<Vec<&'a [u8]>>
    ensures { IfOk result (λ parts. map (λ p. p.now) parts.items ≡ pieces text.now) }
{
    let parts = text.split(|b| *b == b'\n').collect(alloc)?;
    Ok(parts)
}

// Adds each of these lines last.
fn push_each(alloc: Global, lines: &mut Vec<Bytes>, parts: &[&[u8]]) -> Mem<()>
    ensures { OnOk result (lines.new.items ≡ lines.old.items ++ map (λ p. p.now) parts.now) }
{
    for part in parts {
        lines.push(Bytes::of(alloc, part)?)?;
    }
    Ok(())
}
