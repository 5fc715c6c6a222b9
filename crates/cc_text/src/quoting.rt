// Texts in double quotes, as messages show paths and words.
ghost use Rattle.std.specs.Prelude.{◌≡◌, ℕ, ◌+◌, ◌<◌, ◌≤◌, ◌++◌, [], ◌∷◌, IfOk, OnOk, flat_map, encode_utf8};
ghost use Rattle.std.specs.Str.{chars};
ghost use Rattle.cc_text.specs.Quoted.{quoted, quoted_char, escaped};
ghost use Rattle.cc_text.specs.Hex.{hex_digit};

use crate::hash::hex_digit;
use crate::{Mem, Text};
use std::alloc::Global;

/// Adds `\u{h}`, with the number below 256 in hexadecimal without leading zeros.
#[tactic(auto, unfolding(crate::specs::Quoted::escaped))]
fn push_code(text: &mut Text, code: u8) -> Mem<()>
    ensures { OnOk result (text.new ≡ text.old ++ escaped code) }
{
    text.push_str("\\u{")?;
    if code >= 16 {
        text.push(hex_digit(code / 16))?;
    }
    text.push(hex_digit(code % 16))?;
    text.push_str("}")
}

/// Adds a character as it stands in quotes.
#[tactic(auto, unfolding(crate::specs::Quoted::quoted_char))]
fn push_quoted(text: &mut Text, c: char) -> Mem<()>
    ensures { OnOk result (text.new ≡ text.old ++ quoted_char c) }
{
    match c {
        '"' => text.push_str("\\\""),
        '\\' => text.push_str("\\\\"),
        '\n' => text.push_str("\\n"),
        '\r' => text.push_str("\\r"),
        '\t' => text.push_str("\\t"),
        '\0' => text.push_str("\\0"),
        '\u{1}'..='\u{1f}' | '\u{7f}' => push_code(text, c as u8),
        _ => text.push(c),
    }
}

/// The text in double quotes, so that a reader sees where it ends: a backslash before `"` and `\`; line feed,
/// carriage return, tab and NUL as `\n`, `\r`, `\t` and `\0`; other characters below U+0020, and U+007F, as `\u{h}`
/// with `h` in lower case hexadecimal without leading zeros; all else as it is. As Rust's `Debug` of a `str` writes
/// ASCII text. Only want of memory refuses; nothing is kept then.
#[tactic(auto, unfolding(crate::specs::Quoted::quoted))]
pub fn quoted(alloc: Global, s: &str) -> Mem<Text>
    ensures { IfOk result (λ text. text ≡ quoted s.now) }
{
    let mut text = Text::of(alloc, "\"")?;
    for c in s.chars() {
        push_quoted(&mut text, c)?;
    }
    text.push_str("\"")?;
    Ok(text)
}
