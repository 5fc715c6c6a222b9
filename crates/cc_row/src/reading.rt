// The rows and the calls of a file's text.
mod calls;
mod expected;
mod knobs;

use crate::error::{Read, RowError};
use crate::fields::Fields;
use crate::row::{Book, Row};
use calls::read_calls;
use expected::read_expected;
use knobs::read_knobs;
use std::alloc::Global;
use std::collections::BTreeSet;
use toml::{Table, Value};

const KEYS: &[&str] = &[
    "name", "words", "vars", "files", "random", "listens", "script", "missing", "answer", "fail",
    "read", "tokens", "held", "turns", "status", "healed", "error", "word", "log", "has", "lacks",
    "once",
];

// The name of the row of this number, from 1.
fn row_name<'a>(file: Fields<'_, 'a>, number: usize, value: &'a Value) -> Read<String> {
    let place = format!(in file.alloc; "row {number}")?;
    let row = file.at(place.as_str());
    row.below("row", value)?.wanted("name")
}

fn row_of(fields: Fields<'_, '_>, name: &str) -> Read<Row> {
    Ok(Row {
        name: String::from_str(fields.alloc, name)?,
        words: fields.words("words")?,
        knobs: read_knobs(fields)?,
        expected: read_expected(fields)?,
    })
}

// Notes the name of a row, which no earlier one has.
fn note_name(names: &mut BTreeSet<String>, fields: Fields<'_, '_>, name: &str) -> Read<()> {
    let name = String::from_str(fields.alloc, name)?;
    if names.insert(name)? {
        Ok(())
    } else {
        Err(fields.refuse("name", "an earlier row has it"))
    }
}

fn read_row<'a>(
    file: Fields<'_, 'a>,
    names: &mut BTreeSet<String>,
    name: &str,
    value: &'a Value,
) -> Read<Row> {
    let place = format!(in file.alloc; "row \"{name}\"")?;
    let row = file.at(place.as_str());
    let fields = row.below("row", value)?;
    fields.only(KEYS)?;
    note_name(names, fields, name)?;
    row_of(fields, name)
}

fn read_rows(file: Fields<'_, '_>) -> Read<Vec<Row>> {
    let mut names = BTreeSet::new(file.alloc);
    let mut rows = Vec::new(file.alloc);
    for value in file.values("row")? {
        let name = row_name(file, rows.len().saturating_add(1), value)?;
        rows.push(read_row(file, &mut names, name.as_str(), value)?)?;
    }
    Ok(rows)
}

// Whether what the file abbreviates are texts.
fn check_abbreviations(file: Fields<'_, '_>) -> Read<()> {
    let place = file.at("[let]");
    for (name, value) in file.abbreviations.iter() {
        if !value.is_str() {
            return Err(place.refuse(name.as_str(), "not a text"));
        }
    }
    Ok(())
}

fn book_of<'a>(alloc: Global, document: &'a Table, abbreviations: &'a Table) -> Read<Book> {
    let file = Fields {
        alloc,
        place: "file",
        table: document,
        abbreviations,
    };
    file.only(&["let", "row", "calls"])?;
    check_abbreviations(file)?;
    Ok(Book {
        rows: read_rows(file)?,
        calls: read_calls(file)?,
    })
}

// The lines of a text as one.
fn on_one_line(alloc: Global, text: &str) -> Read<String> {
    let mut line = String::new(alloc);
    for part in text.lines() {
        if !line.is_empty() {
            line.push_str(": ")?;
        }
        line.push_str(part)?;
    }
    Ok(line)
}

fn refusal(alloc: Global, error: &toml::de::Error) -> Read<String> {
    let why = format!(in alloc; "{error}")?;
    on_one_line(alloc, why.as_str())
}

fn parse(alloc: Global, text: &str) -> Read<Table> {
    match toml::table_from_str(alloc, text) {
        Ok(document) => Ok(document),
        Err(error) if error.is_memory() => Err(RowError::NoMemory),
        Err(error) => Err(RowError::Refused(refusal(alloc, &error)?)),
    }
}

/// The rows and the calls of a file's text. All of it is read before anything is played.
pub fn read_book(alloc: Global, text: &str) -> Read<Book> {
    let document = parse(alloc, text)?;
    match document.get("let") {
        None => book_of(alloc, &document, &Table::new(alloc)),
        Some(Value::Table(abbreviations)) => book_of(alloc, &document, abbreviations),
        Some(_) => Err(RowError::refused(alloc, "file", "let", "not a table")),
    }
}
