// The hash FNV-1a of 64 bits, by its authors' page (Fowler, Noll, Vo: "FNV Hash"), and its digits.
ghost use Rattle.std.specs.Prelude.{◌≡◌, ℕ, ◌+◌, ◌<◌, ◌≤◌, ◌++◌, [], ◌∷◌, IfOk, OnOk};
ghost use Rattle.cc_text.specs.Hash.{fnv1a, fnv1a_step, fnv1a_from};
ghost use Rattle.cc_text.specs.Hex.{hex16, hex_digit, hex_digits};

use crate::{Mem, Text};
use std::alloc::Global;

/// The hash of one byte more.
#[tactic(auto, unfolding(crate::specs::Hash::fnv1a_step))]
fn fnv1a_step(hash: u64, byte: u8) -> u64
    ensures { result ≡ fnv1a_step hash byte }
{
    (hash ^ u64::from(byte)).wrapping_mul(0x0000_0100_0000_01b3)
}

/// The hash that goes on from `start` over the bytes, so that a caller can hash piece by piece:
/// `fnv1a_from(fnv1a(a), b)` is the hash of `a` and then `b`. It takes no memory.
pub fn fnv1a_from(start: u64, bytes: &[u8]) -> u64
    ensures { result ≡ fnv1a_from start bytes.now }
{
    bytes
        .iter()
        .fold(start, |hash, byte| fnv1a_step(hash, *byte))
}

/// FNV-1a of 64 bits over the bytes, with the offset basis and the prime of its authors' page. It is no safeguard
/// against those who seek two texts with one hash. It takes no memory.
pub fn fnv1a(bytes: &[u8]) -> u64
    ensures { result ≡ fnv1a bytes.now }
{
    fnv1a_from(0xcbf2_9ce4_8422_2325, bytes)
}

/// A digit of base 16, in lower case.
pub(crate) fn hex_digit(digit: u8) -> char
    requires { digit < 16 }
    ensures { result ≡ hex_digit digit }
{
    if digit < 10 {
        char::from(b'0' + digit)
    } else {
        char::from(b'a' + (digit - 10))
    }
}

/// Adds the `count` lowest digits of a number, the highest first.
#[tactic(auto, unfolding(crate::specs::Hex::hex_digits))]
fn push_digits(text: &mut Text, count: u8, n: u64) -> Mem<()>
    ensures { OnOk result (text.new ≡ text.old ++ hex_digits count n) }
{
    if count > 0 {
        push_digits(text, count - 1, n / 16)?;
        text.push(hex_digit((n % 16) as u8))?;
    }
    Ok(())
}

/// The sixteen digits of a number in hexadecimal, in lower case, with leading zeros. Only want of memory refuses;
/// nothing is kept then.
#[tactic(auto, unfolding(crate::specs::Hex::hex16))]
pub fn hex16(alloc: Global, n: u64) -> Mem<Text>
    ensures { IfOk result (λ text. text ≡ hex16 n) }
{
    let mut text = Text::new(alloc);
    push_digits(&mut text, 16, n)?;
    Ok(text)
}
