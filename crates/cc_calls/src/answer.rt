// Answers, told as texts.
use crate::CallError;
use cc_text::{Mem, Text, Vars, Words};
use std::alloc::Global;

/// What a function gives.
pub type Answer = Result<Vec<String>, CallError>;

/// Adds a text last.
pub fn push(texts: &mut Vec<String>, text: &str) -> Mem<()> {
    let alloc = *texts.allocator();
    texts.push(String::from_str(alloc, text)?)?;
    Ok(())
}

/// Adds a pair last, as `NAME=value`.
pub fn push_pair(texts: &mut Vec<String>, name: &str, value: &str) -> Mem<()> {
    let alloc = *texts.allocator();
    texts.push(format!(in alloc; "{name}={value}")?)?;
    Ok(())
}

/// Adds a number last, in decimal.
pub fn push_number(texts: &mut Vec<String>, number: u64) -> Mem<()> {
    let alloc = *texts.allocator();
    texts.push(format!(in alloc; "{number}")?)?;
    Ok(())
}

/// `true` or `false`.
pub fn truth_word(holds: bool) -> &'static str {
    if holds { "true" } else { "false" }
}

pub fn strs(alloc: Global, words: &[&str]) -> Answer {
    let mut texts = Vec::new(alloc);
    for word in words {
        push(&mut texts, word)?;
    }
    Ok(texts)
}

pub fn one(alloc: Global, text: &str) -> Answer {
    strs(alloc, &[text])
}

pub fn none(alloc: Global) -> Answer {
    Ok(Vec::new(alloc))
}

pub fn option(alloc: Global, text: Option<&str>) -> Answer {
    match text {
        Some(text) => one(alloc, text),
        None => none(alloc),
    }
}

pub fn option_of(alloc: Global, text: Option<&Text>) -> Answer {
    match text {
        Some(text) => one(alloc, text.as_str()),
        None => none(alloc),
    }
}

pub fn truth(alloc: Global, holds: bool) -> Answer {
    one(alloc, truth_word(holds))
}

pub fn number(alloc: Global, number: u64) -> Answer {
    let mut texts = Vec::new(alloc);
    push_number(&mut texts, number)?;
    Ok(texts)
}

/// Adds each word last.
pub fn push_words(texts: &mut Vec<String>, words: &Words) -> Mem<()> {
    for word in words.as_slice() {
        push(texts, word.as_str())?;
    }
    Ok(())
}

pub fn words(alloc: Global, words: &Words) -> Answer {
    let mut texts = Vec::new(alloc);
    push_words(&mut texts, words)?;
    Ok(texts)
}

/// Adds each pair last.
pub fn push_pairs(texts: &mut Vec<String>, vars: &Vars) -> Mem<()> {
    for (name, value) in vars.as_slice() {
        push_pair(texts, name.as_str(), value.as_str())?;
    }
    Ok(())
}

pub fn pairs(alloc: Global, vars: &Vars) -> Answer {
    let mut texts = Vec::new(alloc);
    push_pairs(&mut texts, vars)?;
    Ok(texts)
}

/// A refusal of this kind.
pub fn refused(alloc: Global, kind: &str) -> Answer {
    strs(alloc, &["refused", kind])
}
