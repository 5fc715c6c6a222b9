// Lists of texts and of pairs, and the small map.
use crate::CallError;
use crate::answer::{
    Answer, option_of, push, push_number, push_pair, push_pairs, push_words, truth_word,
};
use crate::given::{Read, first_text, number, push_var, small_number, step, two_texts, vars_of};
use cc_text::{Mem, Vars, VecMap, Words, ascii_words, key_and_value};
use std::alloc::Global;

// Two numbers with a blank between.
fn two_numbers(text: &str) -> Read<(u32, u32)> {
    let (first, second) = step(text);
    Ok((small_number(first)?, small_number(second)?))
}

// Adds to the value of a key, where it has one.
fn add_to(map: &mut VecMap<u32, u32>, key: u32, more: u32) -> bool {
    match map.get_mut(&key) {
        Some(value) => {
            *value = value.saturating_add(more);
            true
        }
        None => false,
    }
}

fn push_value(texts: &mut Vec<String>, value: Option<&u32>) -> Mem<()> {
    match value {
        Some(value) => push_number(texts, u64::from(*value)),
        None => push(texts, "none"),
    }
}

fn map_step(map: &mut VecMap<u32, u32>, texts: &mut Vec<String>, word: &str) -> Read<()> {
    let (verb, rest) = step(word);
    match verb {
        "insert" => {
            let (key, value) = two_numbers(rest)?;
            map.insert(key, value)?;
        }
        "add" => {
            let (key, more) = two_numbers(rest)?;
            push(texts, truth_word(add_to(map, key, more)))?;
        }
        "get" => push_value(texts, map.get(&small_number(rest)?))?,
        "length" => push_number(texts, map.as_slice().len() as u64)?,
        _ => return Err(CallError::Given),
    }
    Ok(())
}

fn push_entries(texts: &mut Vec<String>, entries: &[(u32, u32)]) -> Mem<()> {
    let alloc = *texts.allocator();
    for (key, value) in entries {
        texts.push(format!(in alloc; "{key} {value}")?)?;
    }
    Ok(())
}

// Steps of a map that is empty at first: `insert KEY VALUE`; `add KEY MORE`, by the value that is lent; `get KEY`;
// `length`. What the last three answer, and then the pairs.
fn vec_map(alloc: Global, given: &[String]) -> Answer {
    let mut map = VecMap::new(alloc);
    let mut texts = Vec::new(alloc);
    for word in given {
        map_step(&mut map, &mut texts, word.as_str())?;
    }
    push_entries(&mut texts, map.as_slice())?;
    Ok(texts)
}

// Three groups, `c d`, `x` and `e`, each chosen where its word is `true`.
fn push_groups(words: &mut Words, chosen: &str) -> Mem<()> {
    let (first, others) = step(chosen);
    let (second, third) = step(others);
    let (first, second, third) = (first == "true", second == "true", third == "true");
    words.push_chosen(&[(first, &["c", "d"]), (second, &["x"]), (third, &["e"])])
}

fn push_all(words: &mut Words, alloc: Global, text: &str) -> Mem<()> {
    let parts: Vec<&str> = text.split_ascii_whitespace().collect(alloc)?;
    words.push_all(parts.as_slice())
}

fn push_step(words: &mut Words, alloc: Global, verb: &str, rest: &str) -> Read<()> {
    match verb {
        "push" => words.push(rest)?,
        "push_all" => push_all(words, alloc, rest)?,
        "push_joined" => {
            let (front, text) = step(rest);
            words.push_joined(front, text)?;
        }
        "push_chosen" => push_groups(words, rest)?,
        "extend" => words.extend(&ascii_words(alloc, rest)?)?,
        "clone" => *words = words.try_clone()?,
        _ => return Err(CallError::Given),
    }
    Ok(())
}

fn words_step(words: &mut Words, texts: &mut Vec<String>, word: &str) -> Read<()> {
    let alloc = *texts.allocator();
    let (verb, rest) = step(word);
    match verb {
        "length" => Ok(push_number(texts, words.len() as u64)?),
        "equals" => {
            let same = *words == ascii_words(alloc, rest)?;
            Ok(push(texts, truth_word(same))?)
        }
        _ => push_step(words, alloc, verb, rest),
    }
}

// Steps of a list that is empty at first: `push WORD`; `push_all WORD..`; `push_joined FRONT TEXT`; `push_chosen TRUTH TRUTH
// TRUTH`, of the groups `c d`, `x` and `e`; `extend WORD..`; `clone`; `length`; `equals WORD..`. What the last two answer,
// and then the words.
fn words_list(alloc: Global, given: &[String]) -> Answer {
    let mut list = Words::new(alloc);
    let mut texts = Vec::new(alloc);
    for word in given {
        words_step(&mut list, &mut texts, word.as_str())?;
    }
    push_words(&mut texts, &list)?;
    Ok(texts)
}

fn set_var(vars: &mut Vars, pair: &str) -> Read<()> {
    match key_and_value(pair) {
        Some((name, value)) => Ok(vars.set(name, value)?),
        None => Err(CallError::Given),
    }
}

fn push_var_at(texts: &mut Vec<String>, vars: &Vars, place: usize) -> Mem<()> {
    match vars.get(place) {
        Some((name, value)) => push_pair(texts, name.as_str(), value.as_str()),
        None => push(texts, "none"),
    }
}

fn vars_step(vars: &mut Vars, texts: &mut Vec<String>, word: &str) -> Read<()> {
    let (verb, rest) = step(word);
    match verb {
        "push" => push_var(vars, rest),
        "set" => set_var(vars, rest),
        "length" => Ok(push_number(texts, vars.len() as u64)?),
        "get" => Ok(push_var_at(texts, vars, number(rest)? as usize)?),
        _ => Err(CallError::Given),
    }
}

// Steps of a list that is empty at first: `push NAME=value`; `set NAME=value`; `length`; `get PLACE`. What the last two
// answer, and then the pairs.
fn vars_list(alloc: Global, given: &[String]) -> Answer {
    let mut vars = Vars::new(alloc);
    let mut texts = Vec::new(alloc);
    for word in given {
        vars_step(&mut vars, &mut texts, word.as_str())?;
    }
    push_pairs(&mut texts, &vars)?;
    Ok(texts)
}

// A name, and the pairs of the table.
fn lookup(alloc: Global, given: &[String]) -> Answer {
    let (name, table) = first_text(given)?;
    let table = vars_of(alloc, table)?;
    option_of(alloc, cc_text::lookup(&table, name))
}

fn lookup_in_none(alloc: Global, name: &str) -> Answer {
    let table = Vars::new(alloc);
    option_of(alloc, cc_text::lookup_sorted(&table, name))
}

fn lookup_in_four(alloc: Global, name: &str) -> Answer {
    let mut table = Vars::new(alloc);
    table.push("a", "1")?;
    table.push("ab", "2")?;
    table.push("b", "3")?;
    table.push("é", "4")?;
    option_of(alloc, cc_text::lookup_sorted(&table, name))
}

// A table, which is one of two that are known to ascend, and a name.
fn lookup_sorted(alloc: Global, given: &[String]) -> Answer {
    let (table, name) = two_texts(given)?;
    match table {
        "" => lookup_in_none(alloc, name),
        "a=1 ab=2 b=3 é=4" => lookup_in_four(alloc, name),
        _ => Err(CallError::Given),
    }
}

pub fn call(alloc: Global, name: &str, given: &[String]) -> Option<Answer> {
    match name {
        "vec_map" => Some(vec_map(alloc, given)),
        "words" => Some(words_list(alloc, given)),
        "vars" => Some(vars_list(alloc, given)),
        "lookup" => Some(lookup(alloc, given)),
        "lookup_sorted" => Some(lookup_sorted(alloc, given)),
        _ => None,
    }
}
