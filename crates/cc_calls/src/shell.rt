// Words in a text, and texts put together.
use crate::CallError;
use crate::answer::{Answer, one, words};
use crate::given::{Read, first_text, one_text, words_of};
use std::alloc::Global;

fn shell_words(alloc: Global, given: &[String]) -> Answer {
    words(alloc, &cc_text::shell_words(alloc, one_text(given)?)?)
}

fn ascii_words(alloc: Global, given: &[String]) -> Answer {
    words(alloc, &cc_text::ascii_words(alloc, one_text(given)?)?)
}

fn quoted(alloc: Global, given: &[String]) -> Answer {
    one(alloc, cc_text::quoted(alloc, one_text(given)?)?.as_str())
}

// The one character of a text.
fn only_char(text: &str) -> Read<char> {
    let mut chars = text.chars();
    match (chars.next(), chars.next()) {
        (Some(only), None) => Ok(only),
        _ => Err(CallError::Given),
    }
}

// A delimiter, and the texts.
fn join_texts(alloc: Global, given: &[String]) -> Answer {
    let (delimiter, texts) = first_text(given)?;
    let delimiter = only_char(delimiter)?;
    let texts = words_of(alloc, texts)?;
    one(
        alloc,
        cc_text::join_texts(alloc, &texts, delimiter)?.as_str(),
    )
}

pub fn call(alloc: Global, name: &str, given: &[String]) -> Option<Answer> {
    match name {
        "shell_words" => Some(shell_words(alloc, given)),
        "ascii_words" => Some(ascii_words(alloc, given)),
        "quoted" => Some(quoted(alloc, given)),
        "join_texts" => Some(join_texts(alloc, given)),
        _ => None,
    }
}
