// The text of a record.
ghost use Rattle.std.specs.Prelude.{◌≡◌, map, IfOk};
ghost use Rattle.serde_json.specs.Data.{array};
ghost use Rattle.serde_json.specs.View.{view, items_of};
ghost use Rattle.cc_fresh.specs.Record.{dep_data, entry_data, record_data, record_text, read_record};

use crate::{Entry, Record};
use cc_text::{Bytes, Mem, Text};
use serde_json::{Value, json};
use std::alloc::{AllocError, Global};

// A file and its digest.
fn dep_value(alloc: Global, path: &str, digest: &str) -> Result<Value, AllocError>
    ensures { IfOk result (λ value. view value ≡ dep_data (path.now, digest.now)) }
{
    json!(in alloc; [path, digest])
}

// Files with their digests.
fn deps_value(alloc: Global, deps: &[(Text, Text)]) -> Result<Value, AllocError>
    ensures { IfOk result (λ value. view value ≡ array (items_of (map dep_data deps.now))) }
{
    let mut values = Vec::new(alloc);
    for (path, digest) in deps {
        values.push(dep_value(alloc, path.as_str(), digest.as_str())?)?;
    }
    Ok(Value::Array(values))
}

// An entry.
fn entry_value(alloc: Global, entry: &Entry) -> Result<Value, AllocError>
    ensures { IfOk result (λ value. view value ≡ entry_data entry.now) }
{
    let command = entry.command.as_str();
    let deps = deps_value(alloc, entry.deps.as_slice())?;
    let object = entry.object.as_str();
    let source = entry.source.as_str();
    json!(in alloc; {"command": command, "deps": deps, "object": object, "source": source})
}

// Entries.
fn entries_value(alloc: Global, entries: &[Entry]) -> Result<Value, AllocError>
    ensures { IfOk result (λ value. view value
        ≡ array (items_of (map entry_data entries.now))) }
{
    let mut values = Vec::new(alloc);
    for entry in entries {
        values.push(entry_value(alloc, entry)?)?;
    }
    Ok(Value::Array(values))
}

// The value of a record.
fn record_value(alloc: Global, entries: &[Entry]) -> Result<Value, AllocError>
    ensures { IfOk result (λ value. view value ≡ record_data entries.now) }
{
    let objects = entries_value(alloc, entries)?;
    json!(in alloc; {"objects": objects, "version": 1u64})
}

/// The text of a record: JSON without blanks, in which the keys of each object ascend, and which `read_record` reads
/// back. Only want of memory refuses.
pub fn write_record(alloc: Global, kept: &Record) -> Mem<Bytes>
    ensures text { IfOk result (λ text. text ≡ record_text kept.now) }
    ensures reads_back { IfOk result (λ text. read_record text ≡ kept.now) }
{
    let value = record_value(alloc, kept.as_slice())?;
    let text = value.to_vec(alloc)?;
    Ok(Bytes::owning(text))
}
