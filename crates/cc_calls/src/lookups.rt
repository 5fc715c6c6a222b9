// Look-ups by the names of a target and a host.
use crate::CallError;
use crate::answer::{Answer, none, option_of, push, push_words, truth, words};
use crate::given::{one_text, snapshot_of, three_texts};
use cc_text::Words;
use std::alloc::Global;

fn env_value_is_true(alloc: Global, given: &[String]) -> Answer {
    truth(alloc, cc_env::env_value_is_true(one_text(given)?))
}

// A variable, a target and a host.
fn target_envs(alloc: Global, given: &[String]) -> Answer {
    let (var, target, host) = three_texts(given)?;
    words(alloc, &cc_env::target_envs(alloc, var, target, host)?)
}

// A variable, a target, a host, and the pairs of the environment.
fn single(alloc: Global, given: &[String]) -> Answer {
    let [var, target, host, pairs @ ..] = given else {
        return Err(CallError::Given);
    };
    let env = snapshot_of(alloc, pairs)?;
    let value = cc_env::single(alloc, &env, var.as_str(), target.as_str(), host.as_str())?;
    option_of(alloc, value.as_ref())
}

// `set` and the words, or nothing.
fn set_words(alloc: Global, flags: Option<Words>) -> Answer {
    match flags {
        Some(flags) => {
            let mut texts = Vec::new(alloc);
            push(&mut texts, "set")?;
            push_words(&mut texts, &flags)?;
            Ok(texts)
        }
        None => none(alloc),
    }
}

// A variable, a target, a host, `shell` or `blanks`, and the pairs of the environment; `set` and the flags where they
// are set.
fn flags_of(alloc: Global, given: &[String]) -> Answer {
    let [var, target, host, split, pairs @ ..] = given else {
        return Err(CallError::Given);
    };
    let shell = split.as_str() == "shell";
    let env = snapshot_of(alloc, pairs)?;
    let (var, target, host) = (var.as_str(), target.as_str(), host.as_str());
    let flags = cc_env::flags_of(alloc, &env, var, target, host, shell)?;
    set_words(alloc, flags)
}

pub fn call(alloc: Global, name: &str, given: &[String]) -> Option<Answer> {
    match name {
        "env_value_is_true" => Some(env_value_is_true(alloc, given)),
        "target_envs" => Some(target_envs(alloc, given)),
        "single" => Some(single(alloc, given)),
        "flags_of" => Some(flags_of(alloc, given)),
        _ => None,
    }
}
