// The words of a tool, and the wrapper that it is run through.
ghost use Rattle.std.specs.Prelude.{◌≡◌, IfOk};
ghost use Rattle.std.specs.Option.{option_copied};
ghost use Rattle.std.specs.List.{list_any};
ghost use Rattle.cc_text.specs.Words.{texts};
ghost use Rattle.cc_flags.specs.Wrappers as spec;

use crate::Choice;
use cc_env::BuildEnv;
use cc_text::{Mem, Text, Words, file_stem};
use std::alloc::Global;

fn is_same_name(a: &str, b: &str) -> bool
    ensures { result ≡ spec.is_same_name a.now b.now }
{
    a.eq_ignore_ascii_case(b)
}

fn some_name_is(names: &[&str], stem: &str) -> bool
    ensures { result ≡ list_any (λ name. spec.is_same_name stem.now name.now) names.now }
{
    names.iter().any(|name| is_same_name(stem, name))
}

fn is_name_among(names: &[&str], stem: &str) -> bool
    ensures { result ≡ spec.is_name_among (texts names.now) stem.now }
{
    some_name_is(names, stem)
}

// The file stem of the path is one of some names.
#[tactic(auto, unfolding(crate::specs::Wrappers::has_stem_among))]
fn has_stem_among(names: &[&str], path: &str) -> bool
    ensures { result ≡ spec.has_stem_among (texts names.now) path.now }
{
    match file_stem(path) {
        Some(stem) => is_name_among(names, stem),
        None => false,
    }
}

fn wrapper_names() -> &'static [&'static str]
    ensures { texts result.now ≡ spec.wrapper_names }
{
    &[
        "ccache",
        "distcc",
        "sccache",
        "icecc",
        "cachepot",
        "buildcache",
        "kache",
    ]
}

fn rustc_wrapper_names() -> &'static [&'static str]
    ensures { texts result.now ≡ spec.rustc_wrapper_names }
{
    &["sccache", "cachepot", "buildcache", "kache"]
}

// The program is the one that the environment names as a wrapper.
#[tactic(auto, unfolding(crate::specs::Wrappers::is_custom_wrapper))]
fn is_custom_wrapper(env: &BuildEnv, path: &str) -> bool
    ensures { result ≡ spec.is_custom_wrapper env.now path.now }
{
    match env.inherited().get("CC_KNOWN_WRAPPER_CUSTOM") {
        Some(name) => has_stem_among(&[name], path),
        None => false,
    }
}

// The program is known to run compilers.
#[tactic(auto, unfolding(crate::specs::Wrappers::is_wrapper))]
fn is_wrapper(env: &BuildEnv, path: &str) -> bool
    ensures { result ≡ spec.is_wrapper env.now path.now }
{
    has_stem_among(wrapper_names(), path) || is_custom_wrapper(env, path)
}

// The wrapper of Rust's compiler (Cargo's book, `RUSTC_WRAPPER`), where it serves other compilers.
#[tactic(auto, unfolding(crate::specs::Wrappers::rustc_wrapper))]
fn rustc_wrapper(env: &BuildEnv) -> Option<&str>
    ensures { option_copied result ≡ spec.rustc_wrapper env.now }
{
    let wrapper = env.inherited().get("RUSTC_WRAPPER")?;
    if has_stem_among(rustc_wrapper_names(), wrapper) {
        Some(wrapper)
    } else {
        None
    }
}

// A text of its own, where there is one.
fn owned(alloc: Global, text: Option<&str>) -> Mem<Option<Text>>
    ensures { IfOk result (λ owned. owned ≡ option_copied text.entry) }
{
    match text {
        Some(text) => Ok(Some(Text::of(alloc, text)?)),
        None => Ok(None),
    }
}

/// A tool with its words, run through the wrapper of Rust's compiler where that serves other compilers. Only want of
/// memory refuses.
#[tactic(auto, unfolding(crate::specs::Wrappers::in_rustc_wrapper))]
pub fn in_rustc_wrapper(alloc: Global, env: &BuildEnv, path: &str, words: Words) -> Mem<Choice>
    ensures { IfOk result (λ choice. choice ≡ spec.in_rustc_wrapper env.now path.now words) }
{
    let wrapper = owned(alloc, rustc_wrapper(env))?;
    Ok(Choice {
        path: Text::of(alloc, path)?,
        wrapper,
        words,
    })
}

fn words_of(alloc: Global, words: &[Text]) -> Mem<Words>
    ensures { IfOk result (λ list. list ≡ words.now) }
{
    let mut list = Words::new(alloc);
    for word in words {
        list.push(word.as_str())?;
    }
    Ok(list)
}

// A wrapper with the tool behind it.
fn behind_wrapper(alloc: Global, wrapper: &str, path: &str, words: &[Text]) -> Mem<Choice>
    ensures { IfOk result (λ choice. choice ≡ spec.behind_wrapper wrapper.now path.now words.now) }
{
    Ok(Choice {
        path: Text::of(alloc, path)?,
        wrapper: Some(Text::of(alloc, wrapper)?),
        words: words_of(alloc, words)?,
    })
}

// The first word is the tool, unless it is a wrapper and a second word follows.
#[tactic(auto, unfolding(crate::specs::Wrappers::tool_of_words))]
fn tool_of_words(alloc: Global, env: &BuildEnv, first: &str, rest: &[Text]) -> Mem<Choice>
    ensures { IfOk result (λ choice. choice ≡ spec.tool_of_words env.now first.now rest.now) }
{
    if let [second, others @ ..] = rest {
        if is_wrapper(env, first) {
            return behind_wrapper(alloc, first, second.as_str(), others);
        }
    }
    in_rustc_wrapper(alloc, env, first, words_of(alloc, rest)?)
}

/// The tool that the words of a text name, with its wrapper, or none: a first word without a file stem names no tool.
/// Only want of memory refuses.
#[tactic(auto, unfolding(crate::specs::Wrappers::tool_in_words))]
pub fn tool_in_words(alloc: Global, env: &BuildEnv, words: &[Text]) -> Mem<Option<Choice>>
    ensures { IfOk result (λ choice. choice ≡ spec.tool_in_words env.now words.now) }
{
    match words {
        [] => Ok(None),
        [first, rest @ ..] => {
            let first = first.as_str();
            if file_stem(first).is_none() {
                return Ok(None);
            }
            Ok(Some(tool_of_words(alloc, env, first, rest)?))
        }
    }
}
