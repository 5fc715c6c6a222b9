// A text as the words between its blanks, and words as one text.
ghost use Rattle.std.specs.Prelude.{◌≡◌, ◌++◌, IfOk, OnOk, flat_map, encode_utf8};
ghost use Rattle.std.specs.List.{join_by};
ghost use Rattle.cc_text.specs.Pieces.{ascii_words};

use crate::{Mem, Text, Words};
use std::alloc::Global;

/// The words of a text that stand between ASCII blanks: space, tab, line feed, form feed and carriage return. No
/// word is empty, and quotes mean nothing. As Rust's `str::split_ascii_whitespace` has it. Only want of memory
/// refuses; nothing is kept then.
pub fn ascii_words(alloc: Global, s: &str) -> Mem<Words>
    ensures { IfOk result (λ words. words ≡ ascii_words s.now) }
{
    let mut words = Words::new(alloc);
    for word in s.split_ascii_whitespace() {
        words.push(word)?;
    }
    Ok(words)
}

/// Adds each word, after the delimiter.
fn push_each(text: &mut Text, words: &[Text], delimiter: char) -> Mem<()>
    ensures { OnOk result (text.new
        ≡ text.old ++ flat_map (λ word. encode_utf8 delimiter ++ word) words.now) }
{
    for word in words {
        text.push(delimiter)?;
        text.push_str(word.as_str())?;
    }
    Ok(())
}

/// The texts in a row, with the delimiter between each two; the empty text where there are none. Only want of
/// memory refuses; nothing is kept then.
pub fn join_texts(alloc: Global, words: &Words, delimiter: char) -> Mem<Text>
    ensures { IfOk result (λ text. text ≡ join_by (λ word. word) (encode_utf8 delimiter) words.now) }
{
    match words.as_slice() {
        [] => Ok(Text::new(alloc)),
        [first, others @ ..] => {
            let mut text = first.try_clone()?;
            push_each(&mut text, others, delimiter)?;
            Ok(text)
        }
    }
}
