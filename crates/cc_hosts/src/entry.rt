// The environment of this process.
ghost use Rattle.std.specs.Prelude.{◌≡◌, ◌≤◌, ◌++◌, vec_len, option_to_list, is_some, IfOk, IfSome, OnOk, OnErr};
ghost use Rattle.std.specs.Option.{option_copied};
ghost use Rattle.cc_text.specs.Cuts.{key_and_value};
ghost use Rattle.cc_hosts.specs.Entry.{text_of, variable_of, behind_equals, entry_vars};

use cc_text::{Mem, NoMemory, Text, Vars, Words, key_and_value};
use std::alloc::Global;
use std::env::{Env, FillError};

/// The variables of an environment, and the names of those that were left out since they aren't UTF-8, with U+FFFD in place of what isn't text.
#[derive(Drop)]
pub struct Listing {
    pub vars: Vars,
    pub left_out: Words,
}

// The text of an entry, or none where it isn't UTF-8.
#[tactic(auto, using(crate::proofs::EntryLemmas::text_is, crate::proofs::EntryLemmas::no_text))]
fn text_of(entry: &[u8]) -> Option<&str>
    ensures { option_copied result ≡ text_of entry.now }
{
    match str::from_utf8(entry) {
        Ok(text) => Some(text),
        Err(_) => None,
    }
}

// Adds the variable whose name is an `=` and what stands before the first `=` of this, where it has one. Refused for memory, the variables
// stay as they were.
fn push_behind_equals(alloc: Global, vars: &mut Vars, rest: &str) -> Mem<()>
    ensures ok { OnOk result
        (vars.new ≡ vars.old ++ option_to_list (behind_equals (key_and_value rest.now))) }
    ensures err { OnErr result (vars.new ≡ vars.old) }
{
    let Some((name, value)) = key_and_value(rest) else {
        return Ok(());
    };
    let mut whole = Text::of(alloc, "=")?;
    whole.push_str(name)?;
    vars.push(whole.as_str(), value)
}

// Adds the variable of an entry that is text, where it has one. Refused for memory, the variables stay as they were.
#[tactic(auto, using(crate::proofs::EntryLemmas::nameless, crate::proofs::EntryLemmas::named), unfolding(crate::specs::Entry::variable_of))]
fn push_variable(alloc: Global, vars: &mut Vars, entry: &str) -> Mem<()>
    ensures ok { OnOk result
        (vars.new ≡ vars.old ++ option_to_list (variable_of entry.now)) }
    ensures err { OnErr result (vars.new ≡ vars.old) }
{
    let Some((name, value)) = key_and_value(entry) else {
        return Ok(());
    };
    if name.is_empty() {
        return push_behind_equals(alloc, vars, value);
    }
    vars.push(name, value)
}

/// Adds the variable of an entry `NAME=VALUE` last, which is parted at the first `=` behind its first byte, as std has it. An entry without
/// such an `=` adds none, and so does one that isn't UTF-8. Replies whether it is. Refused for memory, the variables stay as they were.
pub fn add_entry(alloc: Global, vars: &mut Vars, entry: &[u8]) -> Mem<bool>
    ensures ok { OnOk result (vars.new ≡ vars.old ++ entry_vars entry.now) }
    ensures text { IfOk result (λ b. b ≡ is_some (text_of entry.now)) }
    ensures err { OnErr result (vars.new ≡ vars.old) }
{
    let Some(text) = text_of(entry) else {
        return Ok(false);
    };
    push_variable(alloc, vars, text)?;
    Ok(true)
}

// Reads an entry of the environment into the buffer, which grows until the entry fits. Its length, or none past the last.
fn read_entry(env: &impl Env, place: usize, buffer: &mut Vec<u8>) -> Mem<Option<usize>>
    ensures { IfOk result (λ read. IfSome read (λ len. len ≤ vec_len buffer.new)) }
{
    for _ in 0..usize::BITS {
        match env.var_at(place, buffer.as_mut_slice()) {
            Ok(len) => return Ok(Some(len)),
            Err(FillError::NotPresent) => return Ok(None),
            Err(FillError::TooLong) => {}
        }
        let longer = buffer.len().saturating_mul(2);
        buffer.resize(longer, 0)?;
    }
    Err(NoMemory)
}

// Adds the name of an entry, with U+FFFD in place of what isn't text.
fn push_name(alloc: Global, names: &mut Words, entry: &[u8]) -> Mem<()> {
    let name = entry.split(|b| *b == b'=').next().unwrap_or(entry);
    let text = String::from_utf8_lossy(alloc, name).map_err(NoMemory::from)?;
    names.push(text.as_str())
}

/// The variables of this process, in the order of its environment.
pub fn list_vars(alloc: Global, env: &impl Env) -> Mem<Listing> {
    let mut listing = Listing {
        vars: Vars::new(alloc),
        left_out: Words::new(alloc),
    };
    let mut buffer = Vec::new(alloc);
    buffer.resize(256, 0)?;
    for place in 0..usize::MAX {
        let Some(len) = read_entry(env, place, &mut buffer)? else {
            break;
        };
        let entry = &buffer[..len];
        if !add_entry(alloc, &mut listing.vars, entry)? {
            push_name(alloc, &mut listing.left_out, entry)?;
        }
    }
    Ok(listing)
}
