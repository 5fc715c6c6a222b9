// Values on the heap, and short lines, which keep an event of the log small.
ghost use Rattle.std.specs.Prelude.{◌≡◌, List, ℕ, IfOk};

use cc_text::Mem;
use smallvec::SmallVec;
use std::alloc::Global;
use std::boxed::Box;
use std::marker::Model;

/// A value on the heap. What holds it stays small, whatever the size of the value. Contracts see the value.
#[derive(Drop, Debug)]
pub struct Boxed<T> {
    value: Box<T, Global>,
}

impl<T> Model for Boxed<T> {
    ghost Value = { T };

    ghost view = { λ b. b.value.value };
}

impl<T> Boxed<T> {
    /// The value, lent. It takes no memory.
    pub fn get(&self) -> &T
        ensures { result.now ≡ self.now }
    {
        self.value.as_ref()
    }
}

impl<T: Drop> Boxed<T> {
    /// The value, taken over and put on the heap. Only want of memory refuses; the value is dropped then.
    pub fn new(alloc: Global, value: T) -> Mem<Boxed<T>>
        ensures { IfOk result (λ b. b ≡ value) }
    {
        Ok(Boxed {
            value: Box::new(alloc, value)?,
        })
    }
}

/// The bytes of a printed line. Up to 16 of them take no memory of their own, as those of a warning without a text do. Contracts see the
/// bytes.
#[derive(Drop, Debug)]
pub struct Line {
    bytes: SmallVec<u8, 16>,
}

impl Model for Line {
    ghost Value = { List ℕ };

    ghost view = { λ l. l.bytes.items };
}

impl Line {
    /// A line of its own with these bytes. Only want of memory refuses; nothing is kept then.
    pub fn of(alloc: Global, bytes: &[u8]) -> Mem<Line>
        ensures { IfOk result (λ l. l ≡ bytes.now) }
    {
        Ok(Line {
            bytes: SmallVec::from_slice(alloc, bytes)?,
        })
    }

    /// The bytes, lent. It takes no memory.
    pub fn as_slice(&self) -> &[u8]
        ensures { result.now ≡ self.now }
    {
        self.bytes.as_slice()
    }
}
