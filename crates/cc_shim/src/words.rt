// What the words ask for: the forms of GCC, `cl.exe` and `ar` that tests use, and words `--shim-..` of its own.
ghost use Rattle.std.specs.Prelude.{◌≡◌, ◌<◌, ◌++◌, length, find, nat_eq, bytes_eq, IfOk, IfSome, OnOk};
ghost use Rattle.std.specs.List.{position, starts_with};
ghost use Rattle.std.specs.Option.{option_copied};
ghost use Rattle.cc_shim.specs.Shim.{has, value_of, next_to, with_digit, number_of, line, lines, x_lines, lines_asked, text_asked, heard, copied, output, is_archiving, archived, status};

use cc_text::{Mem, Text, after_prefix, begins_with};
use std::alloc::Global;

// Whether the word `-?` is given.
fn has_no_source(words: &[Text]) -> bool
    ensures { result ≡ has words.now "-?" }
{
    words.iter().any(|word| word.as_str() == "-?")
}

fn is_preprocessing(words: &[Text]) -> bool
    ensures { result ≡ has words.now "-E" }
{
    words.iter().any(|word| word.as_str() == "-E")
}

// The first word that begins with the prefix.
fn first_with<'a>(words: &'a [Text], prefix: &str) -> Option<&'a Text>
    ensures { option_copied result ≡ find (λ word. starts_with nat_eq word prefix.now) words.now }
{
    words.iter().find(|word| begins_with(word.as_str(), prefix))
}

/// What follows the prefix in the first word that begins with it, lent, or none. It takes no memory.
#[tactic(auto, unfolding(crate::specs::Shim::value_of))]
pub fn value_of<'a>(words: &'a [Text], prefix: &str) -> Option<&'a str>
    ensures { option_copied result ≡ value_of words.now prefix.now }
{
    match first_with(words, prefix) {
        Some(word) => after_prefix(word.as_str(), prefix),
        None => None,
    }
}

// The place of the first word that is this.
fn place_of(words: &[Text], name: &str) -> Option<usize>
    ensures place { result ≡ position (λ word. bytes_eq word name.now) words.now }
    ensures within { IfSome result (λ place. place < length words.now) }
{
    words.iter().position(|word| word.as_str() == name)
}

// The word behind the first one that is this.
#[tactic(auto, unfolding(crate::specs::Shim::next_to))]
fn next_to<'a>(words: &'a [Text], name: &str) -> Option<&'a str>
    ensures { option_copied result ≡ next_to words.now name.now }
{
    match place_of(words, name) {
        Some(place) => match words.get(place + 1) {
            Some(word) => Some(word.as_str()),
            None => None,
        },
        None => None,
    }
}

fn with_digit(n: u32, digit: u8) -> u32
    ensures { result ≡ with_digit n digit }
{
    n.saturating_mul(10)
        .saturating_add(u32::from(digit.saturating_sub(b'0')))
}

// Decimal digits as a number.
#[tactic(auto, unfolding(crate::specs::Shim::number_of))]
fn number_of(digits: &str) -> u32
    ensures { result ≡ number_of digits.now }
{
    digits
        .as_bytes()
        .iter()
        .fold(0, |n, digit| with_digit(n, *digit))
}

// Adds so many lines `x`.
fn push_x_lines(text: &mut Text, count: u32) -> Mem<()>
    ensures { OnOk result (text.new ≡ text.old ++ x_lines count) }
{
    for _line in 0..count {
        text.push_str("x\n")?;
    }
    Ok(())
}

#[tactic(auto, unfolding(crate::specs::Shim::lines_asked))]
fn push_lines(text: &mut Text, word: &str) -> Mem<()>
    ensures { OnOk result (text.new ≡ text.old ++ lines_asked word.now) }
{
    if let Some(digits) = after_prefix(word, "--shim-lines=") {
        push_x_lines(text, number_of(digits))?;
    }
    Ok(())
}

#[tactic(auto, unfolding(crate::specs::Shim::text_asked))]
fn push_text(text: &mut Text, word: &str) -> Mem<()>
    ensures { OnOk result (text.new ≡ text.old ++ text_asked word.now) }
{
    if let Some(said) = after_prefix(word, "--shim-err=") {
        push_line(text, said)?;
    }
    Ok(())
}

/// What is written to standard error: for each `--shim-lines=N` N lines `x`, and then the text of each
/// `--shim-err=TEXT` as a line. Only want of memory refuses; nothing is kept then.
#[tactic(auto, unfolding(crate::specs::Shim::heard))]
pub fn heard(alloc: Global, words: &[Text]) -> Mem<Text>
    ensures { IfOk result (λ text. text ≡ heard words.now) }
{
    let mut text = Text::new(alloc);
    for word in words {
        push_lines(&mut text, word.as_str())?;
    }
    for said in words {
        push_text(&mut text, said.as_str())?;
    }
    Ok(text)
}

// Adds a word as a line.
fn push_line(text: &mut Text, word: &str) -> Mem<()>
    ensures { OnOk result (text.new ≡ text.old ++ line word.now) }
{
    text.push_str(word)?;
    text.push_str("\n")?;
    Ok(())
}

/// The words, each as a line with its line feed. Only want of memory refuses; nothing is kept then.
pub fn lines(alloc: Global, words: &[Text]) -> Mem<Text>
    ensures { IfOk result (λ text. text ≡ lines words.now) }
{
    let mut text = Text::new(alloc);
    for word in words {
        push_line(&mut text, word.as_str())?;
    }
    Ok(text)
}

/// The file that is copied to standard output: with `-E`, the last word; else none. It takes no memory.
#[tactic(auto, unfolding(crate::specs::Shim::copied))]
pub fn copied(words: &[Text]) -> Option<&str>
    ensures { option_copied result ≡ copied words.now }
{
    if !is_preprocessing(words) {
        return None;
    }
    match words.last() {
        Some(word) => Some(word.as_str()),
        None => None,
    }
}

/// The file that the words are written to: the word after `-o`, else what follows `-Fo`; none without either. It
/// takes no memory.
#[tactic(auto, unfolding(crate::specs::Shim::output))]
pub fn output(words: &[Text]) -> Option<&str>
    ensures { option_copied result ≡ output words.now }
{
    match next_to(words, "-o") {
        Some(path) => Some(path),
        None => value_of(words, "-Fo"),
    }
}

// The place of the word that asks for an archive.
fn archiving_place(words: &[Text]) -> Option<usize>
    ensures place { result ≡ position is_archiving words.now }
    ensures within { IfSome result (λ place. place < length words.now) }
{
    words
        .iter()
        .position(|word| word.as_str() == "cqD" || word.as_str() == "cq")
}

/// The words after the first `cqD` or `cq`, by which `ar` is asked for an archive: the library, and then its
/// members. Nothing where neither is given. It takes no memory.
#[tactic(auto, unfolding(crate::specs::Shim::archived))]
pub fn archived(words: &[Text]) -> &[Text]
    ensures { result.now ≡ archived words.now }
{
    match archiving_place(words) {
        Some(place) => &words[place + 1..],
        None => &[],
    }
}

/// The status that the program ends with: that of `--shim-status=N`, in its lowest 8 bits; else 1 where the word
/// `-?` is given, as compilers other than `cl.exe` refuse it; else 2 where a file failed (`failed`); else 0. It
/// takes no memory.
#[tactic(auto, unfolding(crate::specs::Shim::status))]
pub fn status(words: &[Text], failed: bool) -> u8
    ensures { result ≡ status words.now failed }
{
    if let Some(digits) = value_of(words, "--shim-status=") {
        return (number_of(digits) % 256) as u8;
    }
    if has_no_source(words) {
        1
    } else if failed {
        2
    } else {
        0
    }
}
