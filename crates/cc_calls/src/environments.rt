// Snapshots of an environment, and the environment of a build. A text of pairs has `NAME=value` between blanks.
use crate::answer::{
    Answer, one, option, pairs, push, push_number, push_pairs, refused, truth, truth_word,
};
use crate::given::{
    Read, number, one_text, push_var, snapshot_in, three_texts, two_texts, vars_in,
};
use cc_env::{BuildEnv, EnvSnapshot, NotSet};
use cc_text::{Mem, Vars};
use std::alloc::Global;

// Pairs.
fn env_snapshot(alloc: Global, given: &[String]) -> Answer {
    let env = snapshot_in(alloc, one_text(given)?)?;
    pairs(alloc, env.vars())
}

fn push_snapshot(texts: &mut Vec<String>, env: &EnvSnapshot, is_same: bool) -> Mem<()> {
    push_pairs(texts, env.vars())?;
    push(texts, truth_word(is_same))
}

fn push_second(texts: &mut Vec<String>, env: &EnvSnapshot) -> Mem<()> {
    let second = env.try_clone()?;
    push_snapshot(texts, &second, second == *env)
}

// Pairs; those of a second snapshot, and whether the two are equal.
fn env_snapshot_clone(alloc: Global, given: &[String]) -> Answer {
    let env = snapshot_in(alloc, one_text(given)?)?;
    let mut texts = Vec::new(alloc);
    push_second(&mut texts, &env)?;
    Ok(texts)
}

// Pairs.
fn env_snapshot_debug(alloc: Global, given: &[String]) -> Answer {
    let env = snapshot_in(alloc, one_text(given)?)?;
    one(alloc, format!(in alloc; "{env:?}")?.as_str())
}

// Pairs of two snapshots.
fn same_env_snapshot(alloc: Global, given: &[String]) -> Answer {
    let (first, second) = two_texts(given)?;
    let first = snapshot_in(alloc, first)?;
    let second = snapshot_in(alloc, second)?;
    truth(alloc, first == second)
}

// Pairs; whether their snapshot equals the one without variables.
fn is_empty_env_snapshot(alloc: Global, given: &[String]) -> Answer {
    let env = snapshot_in(alloc, one_text(given)?)?;
    truth(alloc, EnvSnapshot::empty(alloc) == env)
}

// A name and pairs.
fn env_snapshot_get(alloc: Global, given: &[String]) -> Answer {
    let (name, pairs) = two_texts(given)?;
    let env = snapshot_in(alloc, pairs)?;
    option(alloc, env.get(name))
}

// A name and pairs.
fn get_cargo_var(alloc: Global, given: &[String]) -> Answer {
    let (name, pairs) = two_texts(given)?;
    let env = snapshot_in(alloc, pairs)?;
    match env.get_cargo_var(name) {
        Ok(value) => one(alloc, value),
        Err(NotSet) => refused(alloc, "NotSet"),
    }
}

// Pairs, and the entries of a child.
fn env_snapshot_child_vars(alloc: Global, given: &[String]) -> Answer {
    let (inherited, entries) = two_texts(given)?;
    let env = snapshot_in(alloc, inherited)?;
    let entries = vars_in(alloc, entries)?;
    pairs(alloc, &env.child_vars(alloc, &entries)?)
}

fn push_numbered(vars: &mut Vars, alloc: Global, n: u64, round: u64) -> Mem<()> {
    let name = format!(in alloc; "NAME_{n}")?;
    let value = format!(in alloc; "{round}")?;
    vars.push(name.as_str(), value.as_str())
}

// So many rounds of so many names, each with its round as value.
fn numbered_vars(alloc: Global, names: u64, rounds: u64) -> Mem<Vars> {
    let mut vars = Vars::new(alloc);
    for round in 0..rounds {
        for n in 0..names {
            push_numbered(&mut vars, alloc, n, round)?;
        }
    }
    Ok(vars)
}

fn has_numbered(env: &EnvSnapshot, alloc: Global, n: u64, value: &str) -> Mem<bool> {
    let name = format!(in alloc; "NAME_{n}")?;
    Ok(env.get(name.as_str()) == Some(value))
}

// How many of those names have the value.
fn count_numbered(env: &EnvSnapshot, alloc: Global, names: u64, value: &str) -> Mem<u64> {
    let mut count = 0u64;
    for n in 0..names {
        if has_numbered(env, alloc, n, value)? {
            count = count.saturating_add(1);
        }
    }
    Ok(count)
}

fn push_child(texts: &mut Vec<String>, env: &EnvSnapshot, vars: &Vars) -> Mem<()> {
    let alloc = *texts.allocator();
    let child = env.child_vars(alloc, vars)?;
    push(texts, truth_word(child == *env.vars()))
}

fn tell_many(texts: &mut Vec<String>, env: &EnvSnapshot, names: u64, value: &str) -> Mem<()> {
    let alloc = *texts.allocator();
    push_number(texts, env.vars().len() as u64)?;
    push_number(texts, count_numbered(env, alloc, names, value)?)
}

fn tell_both(texts: &mut Vec<String>, vars: &Vars, names: u64, value: &str) -> Mem<()> {
    let alloc = *texts.allocator();
    let env = EnvSnapshot::from_vars(alloc, vars)?;
    tell_many(texts, &env, names, value)?;
    push_child(texts, &env, vars)
}

// How many names there are, in how many rounds they are set to the round's number, from 0, and a value. How many
// variables the snapshot has, how many of the names have the value there, and whether a child that is given all pairs
// again has the same variables.
fn env_snapshot_of_many(alloc: Global, given: &[String]) -> Answer {
    let (names, rounds, value) = three_texts(given)?;
    let names = number(names)?;
    let vars = numbered_vars(alloc, names, number(rounds)?)?;
    let mut texts = Vec::new(alloc);
    tell_both(&mut texts, &vars, names, value)?;
    Ok(texts)
}

fn add_entries(env: &mut BuildEnv, entries: &Vars) -> Mem<()> {
    for (name, value) in entries.as_slice() {
        env.add_explicit(name.as_str(), value.as_str())?;
    }
    Ok(())
}

fn inheriting(alloc: Global, inherited: &str) -> Read<BuildEnv> {
    let snapshot = snapshot_in(alloc, inherited)?;
    let mut env = BuildEnv::empty(alloc);
    env.set_inherited(snapshot);
    Ok(env)
}

// The environment that inherits some pairs, and has others as entries.
fn build_env(alloc: Global, inherited: &str, entries: &str) -> Read<BuildEnv> {
    let entries = vars_in(alloc, entries)?;
    let mut env = inheriting(alloc, inherited)?;
    add_entries(&mut env, &entries)?;
    Ok(env)
}

// A name, the inherited pairs and the entries.
fn overridable(alloc: Global, given: &[String]) -> Answer {
    let (name, inherited, entries) = three_texts(given)?;
    let env = build_env(alloc, inherited, entries)?;
    option(alloc, env.overridable(name))
}

// A name, the inherited pairs and the entries; the inherited value.
fn build_env_inherited(alloc: Global, given: &[String]) -> Answer {
    let (name, inherited, entries) = three_texts(given)?;
    let env = build_env(alloc, inherited, entries)?;
    option(alloc, env.inherited().get(name))
}

// The inherited pairs and the entries.
fn build_env_explicit(alloc: Global, given: &[String]) -> Answer {
    let (inherited, entries) = two_texts(given)?;
    let env = build_env(alloc, inherited, entries)?;
    pairs(alloc, env.explicit())
}

fn second_build_env(alloc: Global, inherited: &str, entries: &str) -> Read<BuildEnv> {
    let env = build_env(alloc, inherited, entries)?;
    Ok(env.try_clone()?)
}

fn child_of(alloc: Global, env: &BuildEnv) -> Answer {
    pairs(alloc, &env.child_vars(alloc)?)
}

// The inherited pairs and the entries; the variables of a child of a second such environment.
fn build_env_child_vars(alloc: Global, given: &[String]) -> Answer {
    let (inherited, entries) = two_texts(given)?;
    let env = second_build_env(alloc, inherited, entries)?;
    child_of(alloc, &env)
}

fn call_on_build_env(alloc: Global, name: &str, given: &[String]) -> Option<Answer> {
    match name {
        "overridable" => Some(overridable(alloc, given)),
        "build_env_inherited" => Some(build_env_inherited(alloc, given)),
        "build_env_explicit" => Some(build_env_explicit(alloc, given)),
        "build_env_child_vars" => Some(build_env_child_vars(alloc, given)),
        _ => None,
    }
}

pub fn call(alloc: Global, name: &str, given: &[String]) -> Option<Answer> {
    match name {
        "env_snapshot" => Some(env_snapshot(alloc, given)),
        "env_snapshot_clone" => Some(env_snapshot_clone(alloc, given)),
        "env_snapshot_debug" => Some(env_snapshot_debug(alloc, given)),
        "same_env_snapshot" => Some(same_env_snapshot(alloc, given)),
        "is_empty_env_snapshot" => Some(is_empty_env_snapshot(alloc, given)),
        "env_snapshot_get" => Some(env_snapshot_get(alloc, given)),
        "get_cargo_var" => Some(get_cargo_var(alloc, given)),
        "env_snapshot_child_vars" => Some(env_snapshot_child_vars(alloc, given)),
        "env_snapshot_of_many" => Some(env_snapshot_of_many(alloc, given)),
        _ => call_on_build_env(alloc, name, given),
    }
}
