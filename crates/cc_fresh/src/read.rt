// The record of a text.
ghost use Rattle.std.specs.Prelude.{◌≡◌, List, ℕ, map, codes, IfOk, option_map};
ghost use Rattle.std.specs.Option.{option_copied};
ghost use Rattle.serde_json.specs.View.{view, items_of};
ghost use Rattle.cc_fresh.specs.Record.{all_some, pair_of, has_members, text_at, dep_of, deps_of, entry_of_members, entry_of, is_first, version_of, values_at, record_of, record_in_text, read_record};

use crate::{Entry, Record};
use cc_text::{Mem, NoMemory, Text, Vars};
use serde_json::Value;
use std::alloc::Global;

// Whether it is an object with so many members.
fn has_members(value: &Value, count: usize) -> bool
    ensures { result ≡ has_members count (view value.now) }
{
    match value.as_object() {
        Some(members) => members.len() == count,
        None => false,
    }
}

// The text under a key.
fn text_at<'v>(value: &'v Value, key: &str) -> Option<&'v str>
    ensures { option_copied result ≡ text_at key.now (view value.now) }
{
    match value.get(key) {
        Some(found) => found.as_str(),
        None => None,
    }
}

// The values of an array under a key.
fn values_at<'v>(value: &'v Value, key: &str) -> Option<&'v [Value]>
    ensures { option_map (λ values. map view values.now) result
        ≡ values_at key.now (view value.now) }
{
    match value.get(key) {
        Some(found) => match found.as_array() {
            Some(values) => Some(values.as_slice()),
            None => None,
        },
        None => None,
    }
}

// The texts of two values.
fn pair_of(values: &[Value]) -> Option<(&str, &str)>
    ensures { option_map (λ dep. (dep.0.now, dep.1.now)) result
        ≡ pair_of (items_of (map view values.now)) }
{
    if values.len() == 2 {
        let path = values[0].as_str()?;
        let digest = values[1].as_str()?;
        Some((path, digest))
    } else {
        None
    }
}

// A file and its digest: an array of two texts.
fn dep_of(value: &Value) -> Option<(&str, &str)>
    ensures { option_map (λ dep. (dep.0.now, dep.1.now)) result ≡ dep_of (view value.now) }
{
    match value.as_array() {
        Some(values) => pair_of(values.as_slice()),
        None => None,
    }
}

// Files with their digests, where each value is one.
fn deps_among(alloc: Global, values: &[Value]) -> Mem<Option<Vars>>
    ensures { IfOk result (λ deps. deps ≡ all_some (map dep_of (map view values.now))) }
{
    let mut deps = Vars::new(alloc);
    for value in values {
        match dep_of(value) {
            Some((path, digest)) => deps.push(path, digest)?,
            None => return Ok(None),
        }
    }
    Ok(Some(deps))
}

// The files of an entry.
fn deps_in(alloc: Global, value: &Value) -> Mem<Option<Vars>>
    ensures { IfOk result (λ deps. deps ≡ deps_of (view value.now)) }
{
    match values_at(value, "deps") {
        Some(values) => {
            let deps = deps_among(alloc, values)?;
            Ok(deps)
        }
        None => Ok(None),
    }
}

// An entry of the four members, where each is there.
#[tactic(auto, unfolding(crate::specs::Record::entry_of_members))]
fn entry_of_members(alloc: Global, value: &Value) -> Mem<Option<Entry>>
    ensures { IfOk result (λ entry. entry ≡ entry_of_members (view value.now)) }
{
    let Some(command) = text_at(value, "command") else {
        return Ok(None);
    };
    let Some(deps) = deps_in(alloc, value)? else {
        return Ok(None);
    };
    let Some(object) = text_at(value, "object") else {
        return Ok(None);
    };
    let Some(source) = text_at(value, "source") else {
        return Ok(None);
    };
    Ok(Some(Entry {
        object: Text::of(alloc, object)?,
        command: Text::of(alloc, command)?,
        source: Text::of(alloc, source)?,
        deps,
    }))
}

// An entry, where the value is one.
fn entry_in(alloc: Global, value: &Value) -> Mem<Option<Entry>>
    ensures { IfOk result (λ entry. entry ≡ entry_of (view value.now)) }
{
    if has_members(value, 4) {
        let entry = entry_of_members(alloc, value)?;
        Ok(entry)
    } else {
        Ok(None)
    }
}

// Entries, where each value is one.
fn entries_among(alloc: Global, values: &[Value]) -> Mem<Option<Vec<Entry>>>
    ensures { IfOk result (λ entries. option_map (λ list. list.items) entries
        ≡ all_some (map entry_of (map view values.now))) }
{
    let mut entries = Vec::new(alloc);
    for value in values {
        match entry_in(alloc, value)? {
            Some(entry) => entries.push(entry)?,
            None => return Ok(None),
        }
    }
    Ok(Some(entries))
}

// Whether its version is the one that is written.
fn is_first(value: &Value) -> bool
    ensures { result ≡ is_first (version_of (view value.now)) }
{
    match value.get("version") {
        Some(version) => version.as_u64() == Some(1),
        None => false,
    }
}

// The entries of a value, where it is a record.
fn record_in(alloc: Global, value: &Value) -> Mem<Option<Vec<Entry>>>
    ensures { IfOk result (λ entries. option_map (λ list. list.items) entries
        ≡ record_of (view value.now)) }
{
    if !has_members(value, 2) {
        return Ok(None);
    }
    if !is_first(value) {
        return Ok(None);
    }
    match values_at(value, "objects") {
        Some(values) => {
            let entries = entries_among(alloc, values)?;
            Ok(entries)
        }
        None => Ok(None),
    }
}

// The entries of a text, where it is a record's.
fn record_in_text(alloc: Global, text: &[u8]) -> Mem<Option<Vec<Entry>>>
    ensures { IfOk result (λ entries. option_map (λ list. list.items) entries
        ≡ record_in_text text.now) }
{
    match Value::from_slice(alloc, text) {
        Ok(value) => {
            let entries = record_in(alloc, &value)?;
            Ok(entries)
        }
        Err(error) => {
            if error.is_memory() {
                Err(NoMemory)
            } else {
                Ok(None)
            }
        }
    }
}

/// The record that a text is, as `write_record` writes it, with blanks and keys in any order too. A text of another
/// shape, with a further key, or of another version is the empty record. Only want of memory refuses.
#[tactic(auto, unfolding(crate::specs::Record::read_record))]
pub fn read_record(alloc: Global, text: &[u8]) -> Mem<Record>
    ensures { IfOk result (λ kept. kept ≡ read_record text.now) }
{
    match record_in_text(alloc, text)? {
        Some(entries) => Ok(Record::owning(entries)),
        None => Ok(Record::new(alloc)),
    }
}

#[cfg(test)]
mod tests {
    use super::*;
    use crate::write_record;
    use std::test::Fail;

    const ONE: &str =
        r#"{"objects":[{"command":"c","deps":[["p","d"]],"object":"o","source":"s"}],"version":1}"#;

    #[test]
    fn written_as_it_was_read(rt: HostRuntime) -> Result<(), Fail> {
        let alloc = rt.alloc();
        for text in [
            ONE,
            r#"{"objects":[],"version":1}"#,
            r#"{"objects":[{"command":"","deps":[],"object":"\"","source":"\\"},{"command":"","deps":[["é","\n"],["a","b"]],"object":"o","source":""}],"version":1}"#,
        ] {
            let kept = read_record(alloc, text.as_bytes())?;
            let written = write_record(alloc, &kept)?;
            assert!(rt; written.as_slice() == text.as_bytes());
        }
        Ok(())
    }

    #[test]
    fn shapes(rt: HostRuntime) -> Result<(), Fail> {
        let alloc = rt.alloc();
        for (text, entries) in [
            (ONE, 1),
            (r#" {"version": 1, "objects": []} "#, 0),
            (
                r#"{"version":1,"objects":[{"source":"s","object":"o","deps":[],"command":"c"}]}"#,
                1,
            ),
            (
                r#"{"objects":[{"command":"c","deps":[],"object":"o","source":"s"}],"version":2}"#,
                0,
            ),
            (
                r#"{"objects":[{"command":"c","deps":[],"object":"o","source":"s"}],"version":1.0}"#,
                0,
            ),
            (
                r#"{"objects":[{"command":"c","deps":[],"object":"o","source":"s"}],"version":1,"x":0}"#,
                0,
            ),
            (
                r#"{"objects":[{"command":"c","deps":[],"object":"o","source":"s","x":0}],"version":1}"#,
                0,
            ),
            (
                r#"{"objects":[{"command":"c","deps":[["p"]],"object":"o","source":"s"}],"version":1}"#,
                0,
            ),
            (
                r#"{"objects":[{"command":"c","deps":["p"],"object":"o","source":"s"}],"version":1}"#,
                0,
            ),
            (
                r#"{"objects":[{"command":"c","deps":[],"object":"o"}],"version":1}"#,
                0,
            ),
            (r#"{"objects":{},"version":1}"#, 0),
            (r#"{"objects":["#, 0),
            ("[]", 0),
            ("", 0),
        ] {
            assert_eq!(rt; read_record(alloc, text.as_bytes())?.len(), entries);
        }
        assert_eq!(rt; read_record(alloc, &[34, 255, 34])?.len(), 0);
        Ok(())
    }

    #[test]
    fn text_that_is_cut_off(rt: HostRuntime) -> Result<(), Fail> {
        let alloc = rt.alloc();
        for end in 0..ONE.len() {
            assert_eq!(rt; read_record(alloc, &ONE.as_bytes()[..end])?.len(), 0);
        }
        Ok(())
    }

    #[test]
    fn text_that_nests_deep(rt: HostRuntime) -> Result<(), Fail> {
        let alloc = rt.alloc();
        let mut text = Text::new(alloc);
        for _level in 0..100_000 {
            text.push('[')?;
        }
        assert_eq!(rt; read_record(alloc, text.as_str().as_bytes())?.len(), 0);
        Ok(())
    }
}
