// Pairs with distinct names, and maps from each name to its place.
ghost use Rattle.std.specs.Prelude.{◌≡◌, OnOk, bytes_eq};
ghost use Rattle.cc_text.specs.Map.{with_pair};
ghost use Rattle.cc_env.specs.Index.{IsIndexed, place_in as place_of_name};
ghost use Rattle.cc_env.specs.Snapshot.{child_of};

use cc_text::{Mem, Vars};
use std::alloc::Global;
use std::collections::BTreeMap;

/// From each name of a list to the place of its pair, counted from 0, so that look-ups need not go through the
/// list.
pub type Places = BTreeMap<String, usize>;

// The place of a name in the first map that has it.
fn place_in(first: &Places, second: &Places, name: &str) -> Option<usize>
    ensures { result ≡ place_of_name first.now second.now name.now }
{
    match first.get(name) {
        Some(place) => Some(*place),
        None => second.get(name).copied(),
    }
}

// Gives a name a value: in its place where it has one, else in a pair that is added last, whose place is noted in
// `more`.
fn put(
    alloc: Global,
    vars: &mut Vars,
    base: &Places,
    more: &mut Places,
    name: &str,
    value: &str,
) -> Mem<()>
    requires { IsIndexed vars.old (place_of_name base.now more.old) }
    ensures value { OnOk result (vars.new ≡ with_pair bytes_eq vars.old name.now value.now) }
    ensures indexed { OnOk result (IsIndexed vars.new (place_of_name base.now more.new)) }
{
    match place_in(base, more, name) {
        Some(place) => vars.set_at(place, value)?,
        None => {
            more.insert(String::from_str(alloc, name)?, vars.len())?;
            vars.push(name, value)?;
        }
    }
    Ok(())
}

/// Gives each entry's name its value, in order: in place where the name is there, else in a pair added last.
/// Refused for memory, `vars` and `more` may hold a part of the entries, and their caller drops both.
pub fn put_all(
    alloc: Global,
    vars: &mut Vars,
    base: &Places,
    more: &mut Places,
    entries: &Vars,
) -> Mem<()>
    requires { IsIndexed vars.old (place_of_name base.now more.old) }
    ensures child { OnOk result (vars.new ≡ child_of vars.old entries.now) }
    ensures indexed { OnOk result (IsIndexed vars.new (place_of_name base.now more.new)) }
{
    for (name, value) in entries.as_slice() {
        put(alloc, vars, base, more, name.as_str(), value.as_str())?;
    }
    Ok(())
}
