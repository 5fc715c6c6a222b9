//! Calls of single functions by name: texts in, texts out, so that a worked row of one call is a line of data.
//!
//! Stands on every crate below the builds. Each function has a small adapter, which reads the texts that are given, makes
//! the one call and tells the answer as texts: a truth as `true` or `false`, none as no text, a refusal as `refused`, its
//! kind and its details. A type with several calls takes a list of steps. The crate above uses one thing, `call`.
#![tactic(auto)]

mod answer;
mod databases;
mod environments;
mod error;
mod given;
mod host;
mod lists;
mod lookups;
mod names;
mod paths;
mod pools;
mod runs;
mod rustflags;
mod shell;
mod targets;
mod texts;
mod tools;

pub use error::CallError;
use std::alloc::Global;

// A call of a function on texts alone.
fn call_on_texts(alloc: Global, name: &str, given: &[String]) -> Option<answer::Answer> {
    if let Some(answer) = paths::call(alloc, name, given) {
        return Some(answer);
    }
    if let Some(answer) = shell::call(alloc, name, given) {
        return Some(answer);
    }
    if let Some(answer) = texts::call(alloc, name, given) {
        return Some(answer);
    }
    lists::call(alloc, name, given)
}

// A call of a function on the settings of a build.
fn call_on_settings(alloc: Global, name: &str, given: &[String]) -> Option<answer::Answer> {
    if let Some(answer) = lookups::call(alloc, name, given) {
        return Some(answer);
    }
    if let Some(answer) = environments::call(alloc, name, given) {
        return Some(answer);
    }
    if let Some(answer) = targets::call(alloc, name, given) {
        return Some(answer);
    }
    if let Some(answer) = rustflags::call(alloc, name, given) {
        return Some(answer);
    }
    names::call(alloc, name, given)
}

// A call of a function on what is run.
fn call_on_runs(alloc: Global, name: &str, given: &[String]) -> Option<answer::Answer> {
    if let Some(answer) = host::call(alloc, name, given) {
        return Some(answer);
    }
    if let Some(answer) = databases::call(alloc, name, given) {
        return Some(answer);
    }
    if let Some(answer) = tools::call(alloc, name, given) {
        return Some(answer);
    }
    if let Some(answer) = pools::call(alloc, name, given) {
        return Some(answer);
    }
    runs::call(alloc, name, given)
}

/// What the function of this name gives for these texts. Which texts it takes stands at its adapter.
pub fn call(alloc: Global, name: &str, given: &[String]) -> Result<Vec<String>, CallError> {
    if let Some(answer) = call_on_texts(alloc, name, given) {
        return answer;
    }
    if let Some(answer) = call_on_settings(alloc, name, given) {
        return answer;
    }
    match call_on_runs(alloc, name, given) {
        Some(answer) => answer,
        None => Err(CallError::Unknown),
    }
}
