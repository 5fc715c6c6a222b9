// Calls of single functions.
use crate::error::Read;
use crate::fields::Fields;
use crate::line::quoted_list;
use crate::row::CallRow;
use std::collections::BTreeSet;
use toml::Value;

fn given_text(fields: Fields<'_, '_>) -> Read<String> {
    let given = fields.texts("given")?;
    Ok(quoted_list(fields.alloc, &given)?)
}

// Notes what a function is given, which no earlier row of it is.
fn note_given(seen: &mut BTreeSet<String>, fields: Fields<'_, '_>) -> Read<()> {
    if seen.insert(given_text(fields)?)? {
        Ok(())
    } else {
        Err(fields.refuse("given", "an earlier row has it"))
    }
}

fn call_of(fields: Fields<'_, '_>, function: &str) -> Read<CallRow> {
    fields.only(&["given", "gives"])?;
    if !fields.has(&["gives"]) {
        return Err(fields.refuse("gives", "wanted"));
    }
    Ok(CallRow {
        function: String::from_str(fields.alloc, function)?,
        given: fields.texts("given")?,
        gives: fields.texts("gives")?,
    })
}

fn add_call(
    calls: &mut Vec<CallRow>,
    seen: &mut BTreeSet<String>,
    fields: Fields<'_, '_>,
    function: &str,
) -> Read<()> {
    note_given(seen, fields)?;
    calls.push(call_of(fields, function)?)?;
    Ok(())
}

// Adds the calls of a function.
fn add_calls(calls: &mut Vec<CallRow>, table: Fields<'_, '_>, function: &str) -> Read<()> {
    let place = format!(in table.alloc; "[calls] {function}")?;
    let fields = table.at(place.as_str());
    let mut seen = BTreeSet::new(table.alloc);
    for value in table.values(function)? {
        add_call(calls, &mut seen, fields.below("given", value)?, function)?;
    }
    Ok(())
}

fn add_all(calls: &mut Vec<CallRow>, table: Fields<'_, '_>) -> Read<()> {
    for function in table.table.keys() {
        add_calls(calls, table, function.as_str())?;
    }
    Ok(())
}

pub fn read_calls(file: Fields<'_, '_>) -> Read<Vec<CallRow>> {
    let mut calls = Vec::new(file.alloc);
    if let Some(value) = file.table.get("calls") {
        let table = file.below("calls", value)?;
        add_all(&mut calls, table.at("[calls]"))?;
    }
    Ok(calls)
}
