// Texts, bytes, hashes and want of memory.
use crate::CallError;
use crate::answer::{Answer, one, push, truth};
use crate::given::{number, one_text, two_texts};
use cc_text::{Bytes, Mem, NoMemory, Text};
use std::alloc::{AllocError, AllocFailed, Global};
use std::collections::BTreeSet;

// A text and what is sought in it.
fn contains(alloc: Global, given: &[String]) -> Answer {
    let (text, part) = two_texts(given)?;
    truth(alloc, cc_text::contains(text, part))
}

fn begins_with(alloc: Global, given: &[String]) -> Answer {
    let (text, part) = two_texts(given)?;
    truth(alloc, cc_text::begins_with(text, part))
}

fn ends_with(alloc: Global, given: &[String]) -> Answer {
    let (text, part) = two_texts(given)?;
    truth(alloc, cc_text::ends_with(text, part))
}

fn contains_ignore_ascii_case(alloc: Global, given: &[String]) -> Answer {
    let (text, part) = two_texts(given)?;
    truth(alloc, cc_text::contains_ignore_ascii_case(text, part))
}

fn starts_with_ignore_ascii_case(alloc: Global, given: &[String]) -> Answer {
    let (text, part) = two_texts(given)?;
    truth(alloc, cc_text::starts_with_ignore_ascii_case(text, part))
}

fn ends_with_ignore_ascii_case(alloc: Global, given: &[String]) -> Answer {
    let (text, part) = two_texts(given)?;
    truth(alloc, cc_text::ends_with_ignore_ascii_case(text, part))
}

// Two texts, as lists of bytes.
fn same_bytes(alloc: Global, given: &[String]) -> Answer {
    let (first, second) = two_texts(given)?;
    let first = Bytes::of(alloc, first.as_bytes())?;
    let second = Bytes::of(alloc, second.as_bytes())?;
    truth(alloc, first == second)
}

// A text; the hash of its bytes in hexadecimal.
fn fnv1a(alloc: Global, given: &[String]) -> Answer {
    let hash = cc_text::fnv1a(one_text(given)?.as_bytes());
    one(alloc, format!(in alloc; "{hash:016x}")?.as_str())
}

// A number in decimal.
fn hex16(alloc: Global, given: &[String]) -> Answer {
    let number = number(one_text(given)?)?;
    one(alloc, cc_text::hex16(alloc, number)?.as_str())
}

fn set_of(alloc: Global, given: &[String]) -> Mem<BTreeSet<Text>> {
    let mut set = BTreeSet::new(alloc);
    for text in given {
        set.insert(Text::of(alloc, text.as_str())?)?;
    }
    Ok(set)
}

// Texts; each of them once, in their order.
fn text_set(alloc: Global, given: &[String]) -> Answer {
    let mut texts = Vec::new(alloc);
    for text in set_of(alloc, given)?.iter() {
        push(&mut texts, text.as_str())?;
    }
    Ok(texts)
}

// A refusal of an allocator; what the want of memory that is made of it prints.
fn no_memory(alloc: Global, given: &[String]) -> Answer {
    let want = match one_text(given)? {
        "AllocError" => NoMemory::from(AllocError),
        "AllocFailed" => NoMemory::from(AllocFailed { value: 7u32 }),
        _ => return Err(CallError::Given),
    };
    one(alloc, format!(in alloc; "{want}")?.as_str())
}

fn call_on_parts(alloc: Global, name: &str, given: &[String]) -> Option<Answer> {
    match name {
        "contains" => Some(contains(alloc, given)),
        "begins_with" => Some(begins_with(alloc, given)),
        "ends_with" => Some(ends_with(alloc, given)),
        "contains_ignore_ascii_case" => Some(contains_ignore_ascii_case(alloc, given)),
        "starts_with_ignore_ascii_case" => Some(starts_with_ignore_ascii_case(alloc, given)),
        "ends_with_ignore_ascii_case" => Some(ends_with_ignore_ascii_case(alloc, given)),
        _ => None,
    }
}

pub fn call(alloc: Global, name: &str, given: &[String]) -> Option<Answer> {
    match name {
        "same_bytes" => Some(same_bytes(alloc, given)),
        "fnv1a" => Some(fnv1a(alloc, given)),
        "hex16" => Some(hex16(alloc, given)),
        "text_set" => Some(text_set(alloc, given)),
        "no_memory" => Some(no_memory(alloc, given)),
        _ => call_on_parts(alloc, name, given),
    }
}
