// Words between white space, and texts that have a byte.
ghost use Rattle.std.specs.Prelude.{◌≡◌, ◌++◌, ◌∷◌, [], IfOk, OnOk};
ghost use Rattle.std.specs.List.{filter};
ghost use Rattle.std.specs.Option.{option_copied};
ghost use Rattle.cc_flags.specs.Blanks.{nonempty, white_words};
ghost use Rattle.cc_text.specs.Pieces.{has_bytes};

use cc_text::{Mem, Text, Words};
use std::alloc::Global;

/// The text, where there is one and it has a byte.
pub fn nonempty(text: Option<&str>) -> Option<&str>
    ensures { option_copied result ≡ nonempty (option_copied text.entry) }
{
    match text {
        Some("") => None,
        Some(text) => Some(text),
        None => None,
    }
}

// Adds a word that has a byte.
fn push_nonempty(words: &mut Words, word: Text) -> Mem<()>
    ensures { OnOk result (words.new ≡ words.old ++ filter has_bytes (word ∷ [])) }
{
    if !word.as_str().is_empty() {
        words.push_text(word)?;
    }
    Ok(())
}

/// The words of a text between the characters that Unicode counts as white space. As `str::split_whitespace` has it.
#[tactic(auto, unfolding(crate::specs::Blanks::white_words))]
pub fn white_words(alloc: Global, text: &str) -> Mem<Words>
    ensures { IfOk result (λ words. words ≡ white_words text.now) }
{
    let mut words = Words::new(alloc);
    let mut word = Text::new(alloc);
    for c in text.chars() {
        if c.is_whitespace() {
            push_nonempty(&mut words, word)?;
            word = Text::new(alloc);
        } else {
            word.push(c)?;
        }
    }
    push_nonempty(&mut words, word)?;
    Ok(words)
}
