// Compile commands of the text of a compilation database.
ghost use Rattle.std.specs.Prelude.{◌≡◌, ◌≢◌, map, codes, Some, None, Ok, Err, IfOk, IfErr, option_map};
ghost use Rattle.std.specs.Option.{option_copied};
ghost use Rattle.serde_json.specs.Read.{read};
ghost use Rattle.serde_json.specs.Find.{as_str, as_array};
ghost use Rattle.serde_json.specs.View.{view};
ghost use Rattle.cc_text.specs.Shell.{shell_words};
ghost use Rattle.cc_db.specs.Read.{all_some, text_at, texts_of, words_at, output_at, command_of, entries, array_commands, read_database};
ghost use Rattle.cc_db.specs.declared.read.DatabaseError.TheVariants.{NotJson, NoMemory as WantsMemory};

use cc_host::CompileCommand;
use cc_text::{Mem, NoMemory, Text, Words, shell_words};
use serde_json::Value;
use std::alloc::{AllocFailed, Global};

/// Why a text gives no compile commands.
#[derive(Clone, Copy, PartialEq, Eq, Debug)]
pub enum DatabaseError {
    /// It isn't JSON, or a number in it or its depth is too large for the reader.
    NotJson,
    /// It is JSON, and not an array.
    NotArray,
    /// The entry at that place, from 0, is the first that lacks the shape.
    Entry(u64),
    /// Memory was wanted and refused.
    NoMemory,
}

impl From<NoMemory> for DatabaseError {
    ghost from_gives = { λ _ e. e ≡ WantsMemory };

    fn from(_: NoMemory) -> Self {
        DatabaseError::NoMemory
    }
}

impl<T: Drop> From<AllocFailed<T>> for DatabaseError {
    ghost from_gives = { λ _ e. e ≡ WantsMemory };

    fn from(_: AllocFailed<T>) -> Self {
        DatabaseError::NoMemory
    }
}

/// The text under a key.
fn text_at<'v>(value: &'v Value, key: &str) -> Option<&'v str>
    ensures { option_copied result ≡ text_at key.now (view value.now) }
{
    match value.get(key) {
        Some(found) => found.as_str(),
        None => None,
    }
}

/// The texts of some values, if each is one.
fn texts_among(alloc: Global, values: &[Value]) -> Mem<Option<Words>>
    ensures { IfOk result (λ words. words ≡ all_some (map as_str (map view values.now))) }
{
    let mut words = Words::new(alloc);
    for value in values {
        match value.as_str() {
            Some(text) => words.push(text)?,
            None => return Ok(None),
        }
    }
    Ok(Some(words))
}

/// The texts of an array of texts.
fn texts_in(alloc: Global, value: &Value) -> Mem<Option<Words>>
    ensures { IfOk result (λ words. words ≡ texts_of (view value.now)) }
{
    match value.as_array() {
        Some(values) => {
            let words = texts_among(alloc, values.as_slice())?;
            Ok(words)
        }
        None => Ok(None),
    }
}

/// The shell words of `command`.
fn command_words(alloc: Global, entry: &Value) -> Mem<Option<Words>>
    ensures { IfOk result (λ words. words
        ≡ option_map shell_words (text_at (codes "command") (view entry.now))) }
{
    match text_at(entry, "command") {
        Some(command) => Ok(Some(shell_words(alloc, command)?)),
        None => Ok(None),
    }
}

/// The words of an entry. `command` is read only where there is no key `arguments`.
fn words_at(alloc: Global, entry: &Value) -> Mem<Option<Words>>
    ensures { IfOk result (λ words. words ≡ words_at (view entry.now)) }
{
    match entry.get("arguments") {
        Some(arguments) => {
            let words = texts_in(alloc, arguments)?;
            Ok(words)
        }
        None => {
            let words = command_words(alloc, entry)?;
            Ok(words)
        }
    }
}

/// The object of an entry; the empty text where there is no key `output`.
fn output_at(entry: &Value) -> Option<&str>
    ensures { option_copied result ≡ output_at (view entry.now) }
{
    match entry.get("output") {
        Some(output) => output.as_str(),
        None => Some(""),
    }
}

/// The compile command of an entry, if it has the shape.
#[tactic(auto, unfolding(crate::specs::Read::command_of))]
fn command_in(alloc: Global, entry: &Value) -> Mem<Option<CompileCommand>>
    ensures { IfOk result (λ command. command ≡ command_of (view entry.now)) }
{
    let Some(directory) = text_at(entry, "directory") else {
        return Ok(None);
    };
    let Some(file) = text_at(entry, "file") else {
        return Ok(None);
    };
    let Some(output) = output_at(entry) else {
        return Ok(None);
    };
    let Some(words) = words_at(alloc, entry)? else {
        return Ok(None);
    };
    let directory = Text::of(alloc, directory)?;
    let file = Text::of(alloc, file)?;
    let output = Text::of(alloc, output)?;
    Ok(Some(CompileCommand::from_parts(directory, file, words, output)))
}

/// The compile commands of entries.
fn commands_in(alloc: Global, values: &[Value]) -> Result<Vec<CompileCommand>, DatabaseError>
    ensures ok { IfOk result (λ commands. entries (map view values.now) ≡ Ok commands.items) }
    ensures err { IfErr result (λ e. e ≢ WantsMemory → entries (map view values.now) ≡ Err e) }
{
    let mut commands = Vec::new(alloc);
    for value in values {
        match command_in(alloc, value)? {
            Some(command) => commands.push(command)?,
            None => return Err(DatabaseError::Entry(commands.len() as u64)),
        }
    }
    Ok(commands)
}

/// The compile commands of an array of entries.
#[tactic(auto, using(crate::proofs::ReadLemmas::commands_there))]
fn array_commands(alloc: Global, value: &Value) -> Result<Vec<CompileCommand>, DatabaseError>
    ensures ok { IfOk result (λ commands. array_commands (as_array (view value.now))
        ≡ Ok commands.items) }
    ensures err { IfErr result (λ e. e ≢ WantsMemory
        → array_commands (as_array (view value.now)) ≡ Err e) }
{
    match value.as_array() {
        Some(values) => {
            let commands = commands_in(alloc, values.as_slice())?;
            Ok(commands)
        }
        None => Err(DatabaseError::NotArray),
    }
}

/// The value of a JSON text.
fn parse(alloc: Global, text: &str) -> Result<Value, DatabaseError>
    ensures ok { IfOk result (λ value. read text.now ≡ Some (view value)) }
    ensures err { IfErr result (λ e. e ≢ WantsMemory
        → (e ≡ NotJson) × (read text.now ≡ None)) }
{
    match Value::from_str(alloc, text) {
        Ok(value) => Ok(value),
        Err(error) => {
            if error.is_memory() {
                Err(DatabaseError::NoMemory)
            } else {
                Err(DatabaseError::NotJson)
            }
        }
    }
}

/// The compile commands of a compilation database, in order. An entry is an object with texts under `directory` and
/// `file`, an array of texts under `arguments` or, where there is no such key, a text under `command`, whose shell
/// words are taken, and a text under `output`, or no such key, for the empty text. Other keys are ignored, and paths
/// are kept as they stand. So LLVM's page "JSON Compilation Database Format Specification" has it. Refused are a text
/// that `serde_json` refuses, a value that is no array, and the first entry without the shape; else only want of memory
/// refuses. Nothing is kept then.
#[tactic(auto, unfolding(crate::specs::Read::read_database))]
pub fn read_database(alloc: Global, text: &str) -> Result<Vec<CompileCommand>, DatabaseError>
    ensures ok { IfOk result (λ commands. read_database text.now ≡ Ok commands.items) }
    ensures err { IfErr result (λ e. e ≢ WantsMemory → read_database text.now ≡ Err e) }
{
    let value = parse(alloc, text)?;
    let commands = array_commands(alloc, &value)?;
    Ok(commands)
}
