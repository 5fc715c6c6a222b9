// What is given, read.
use crate::CallError;
use cc_env::EnvSnapshot;
use cc_text::{ToolFamily, Vars, Words, ascii_words, key_and_value};
use std::alloc::Global;

pub type Read<T> = Result<T, CallError>;

/// The one text that is given.
pub fn one_text(given: &[String]) -> Read<&str> {
    match given {
        [only] => Ok(only.as_str()),
        _ => Err(CallError::Given),
    }
}

/// The two texts that are given.
pub fn two_texts(given: &[String]) -> Read<(&str, &str)> {
    match given {
        [first, second] => Ok((first.as_str(), second.as_str())),
        _ => Err(CallError::Given),
    }
}

/// The three texts that are given.
pub fn three_texts(given: &[String]) -> Read<(&str, &str, &str)> {
    match given {
        [first, second, third] => Ok((first.as_str(), second.as_str(), third.as_str())),
        _ => Err(CallError::Given),
    }
}

/// The first text and the others.
pub fn first_text(given: &[String]) -> Read<(&str, &[String])> {
    match given {
        [first, rest @ ..] => Ok((first.as_str(), rest)),
        _ => Err(CallError::Given),
    }
}

pub fn number(text: &str) -> Read<u64> {
    match text.parse::<u64>() {
        Ok(number) => Ok(number),
        Err(_) => Err(CallError::Given),
    }
}

pub fn small_number(text: &str) -> Read<u32> {
    match text.parse::<u32>() {
        Ok(number) => Ok(number),
        Err(_) => Err(CallError::Given),
    }
}

/// What stands before and after the first blank; all of a text without one.
pub fn step(text: &str) -> (&str, &str) {
    match text.split_once(' ') {
        Some(parts) => parts,
        None => (text, ""),
    }
}

/// Each text as a word.
pub fn words_of(alloc: Global, texts: &[String]) -> Read<Words> {
    let mut words = Words::new(alloc);
    for text in texts {
        words.push(text.as_str())?;
    }
    Ok(words)
}

/// Adds a pair `NAME=value` last.
pub fn push_var(vars: &mut Vars, pair: &str) -> Read<()> {
    match key_and_value(pair) {
        Some((name, value)) => Ok(vars.push(name, value)?),
        None => Err(CallError::Given),
    }
}

/// Each text as a pair.
pub fn vars_of(alloc: Global, texts: &[String]) -> Read<Vars> {
    let mut vars = Vars::new(alloc);
    for text in texts {
        push_var(&mut vars, text.as_str())?;
    }
    Ok(vars)
}

fn push_vars(vars: &mut Vars, words: &Words) -> Read<()> {
    for word in words.as_slice() {
        push_var(vars, word.as_str())?;
    }
    Ok(())
}

/// The pairs of a text, between blanks.
pub fn vars_in(alloc: Global, text: &str) -> Read<Vars> {
    let mut vars = Vars::new(alloc);
    push_vars(&mut vars, &ascii_words(alloc, text)?)?;
    Ok(vars)
}

pub fn snapshot_of(alloc: Global, texts: &[String]) -> Read<EnvSnapshot> {
    let vars = vars_of(alloc, texts)?;
    Ok(EnvSnapshot::from_vars(alloc, &vars)?)
}

pub fn snapshot_in(alloc: Global, text: &str) -> Read<EnvSnapshot> {
    let vars = vars_in(alloc, text)?;
    Ok(EnvSnapshot::from_vars(alloc, &vars)?)
}

/// A family: `gnu`, `clang`, `zig`, `cl` or `clang-cl`.
pub fn family(word: &str) -> Read<ToolFamily> {
    match word {
        "gnu" => Ok(ToolFamily::Gnu),
        "clang" => Ok(ToolFamily::Clang { zig_cc: false }),
        "zig" => Ok(ToolFamily::Clang { zig_cc: true }),
        "cl" => Ok(ToolFamily::Msvc { clang_cl: false }),
        "clang-cl" => Ok(ToolFamily::Msvc { clang_cl: true }),
        _ => Err(CallError::Given),
    }
}
