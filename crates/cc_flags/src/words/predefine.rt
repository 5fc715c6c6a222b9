// The symbols that an assembler for Arm knows before it reads a source: `-predefine` of Microsoft's "ARM Assembler command-line reference",
// whose argument is a directive, `SETA` for a number, `SETS` for a text and `SETL` for a truth value (Microsoft's "ARM Assembler
// Directives").
ghost use Rattle.std.specs.Prelude.{◌≡◌, ◌++◌, ◌∷◌, [], IfOk, OnOk, string_bytes};
ghost use Rattle.std.specs.Fmt.{signed_decimal};
ghost use Rattle.cc_flags.specs.Predefine as spec;

use crate::Definition;
use cc_text::{Mem, Text, Words, begins_with, ends_with};
use std::alloc::Global;

// The number of 32 bits with a sign that a text spells in decimal, as Rust's `str::parse` reads it.
fn i32_of(text: &str) -> Option<i32>
    ensures { result ≡ spec.i32_of text.now }
{
    text.parse::<i32>().ok()
}

// The text stands between quotes.
#[tactic(auto, unfolding(crate::specs::Predefine::is_quoted))]
fn is_quoted(text: &str) -> bool
    ensures { result ≡ spec.is_quoted text.now }
{
    begins_with(text, "\"") && ends_with(text, "\"")
}

// Adds a text, between quotes.
fn push_between_quotes(word: &mut Text, text: &str) -> Mem<()>
    ensures { OnOk result (word.new ≡ word.old ++ spec.between_quotes text.now) }
{
    if is_quoted(text) {
        return word.push_str(text);
    }
    word.push_str("\"")?;
    word.push_str(text)?;
    word.push_str("\"")?;
    Ok(())
}

pub(crate) fn number(alloc: Global, n: i32) -> Mem<String>
    ensures { IfOk result (λ s. string_bytes s ≡ signed_decimal n) }
{
    Ok(format!(in alloc; "{n}")?)
}

// Adds a number in decimal.
fn push_number(word: &mut Text, alloc: Global, n: i32) -> Mem<()>
    ensures { OnOk result (word.new ≡ word.old ++ signed_decimal n) }
{
    let digits = number(alloc, n)?;
    word.push_str(digits.as_str())?;
    Ok(())
}

// Adds what a symbol is set to by a value: a number in decimal, or else a text.
fn push_number_or_text(word: &mut Text, alloc: Global, value: &str) -> Mem<()>
    ensures { OnOk result (word.new
        ≡ word.old ++ spec.number_or_text value.now (spec.i32_of value.now)) }
{
    match i32_of(value) {
        Some(n) => {
            word.push_str(" SETA ")?;
            push_number(word, alloc, n)?;
        }
        None => {
            word.push_str(" SETS ")?;
            push_between_quotes(word, value)?;
        }
    }
    Ok(())
}

// Adds what a symbol is set to. Without a value it is true.
fn push_setting(word: &mut Text, alloc: Global, value: &Option<Text>) -> Mem<()>
    ensures { OnOk result (word.new ≡ word.old ++ spec.setting value.now) }
{
    match value {
        Some(value) => push_number_or_text(word, alloc, value.as_str()),
        None => word.push_str(" SETL {TRUE}"),
    }
}

// Adds a symbol, with what it is set to.
fn push_symbol(words: &mut Words, alloc: Global, definition: &Definition) -> Mem<()>
    ensures { OnOk result (words.new ≡ words.old
        ++ (definition.now.name ++ spec.setting definition.now.value) ∷ []) }
{
    let mut word = Text::of(alloc, definition.name.as_str())?;
    push_setting(&mut word, alloc, &definition.value)?;
    words.push_text(word)?;
    Ok(())
}

// Adds the words of a symbol.
fn push_predefined(words: &mut Words, alloc: Global, definition: &Definition) -> Mem<()>
    ensures { OnOk result (words.new ≡ words.old ++ spec.predefined definition.now) }
{
    words.push("-PreDefine")?;
    push_symbol(words, alloc, definition)?;
    Ok(())
}

// The symbols, in the order added.
#[tactic(auto, unfolding(crate::specs::Predefine::predefine_words))]
pub(crate) fn push_predefine_words(
    words: &mut Words,
    alloc: Global,
    definitions: &[Definition],
) -> Mem<()>
    ensures { OnOk result (words.new ≡ words.old ++ spec.predefine_words definitions.now) }
{
    for definition in definitions {
        push_predefined(words, alloc, definition)?;
    }
    Ok(())
}
