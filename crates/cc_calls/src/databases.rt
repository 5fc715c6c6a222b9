// Compilation databases.
use crate::CallError;
use crate::answer::{Answer, one, refused, strs, words};
use crate::given::{Read, one_text};
use crate::host::compile_command_of;
use cc_db::{DatabaseError, json_compilation_database, read_database};
use cc_host::CompileCommand;
use cc_text::{Mem, shell_words};
use std::alloc::Global;

fn command_in(alloc: Global, text: &str) -> Read<CompileCommand> {
    let words = words(alloc, &shell_words(alloc, text)?)?;
    compile_command_of(alloc, words.as_slice())
}

fn commands_in(alloc: Global, given: &[String]) -> Read<Vec<CompileCommand>> {
    let mut commands = Vec::new(alloc);
    for text in given {
        commands.push(command_in(alloc, text.as_str())?)?;
    }
    Ok(commands)
}

fn text_of(alloc: Global, given: &[String]) -> Read<String> {
    let commands = commands_in(alloc, given)?;
    let mut text = String::new(alloc);
    json_compilation_database(commands, &mut text)?;
    Ok(text)
}

// Compile commands, each the shell words of one text: a folder, a source, an object, a program and its words.
fn database(alloc: Global, given: &[String]) -> Answer {
    one(alloc, text_of(alloc, given)?.as_str())
}

fn push_part(texts: &mut Vec<String>, name: &str, part: &str) -> Mem<()> {
    let alloc = *texts.allocator();
    texts.push(format!(in alloc; "{name}: {part}")?)?;
    Ok(())
}

fn push_parts(texts: &mut Vec<String>, command: &CompileCommand) -> Mem<()> {
    push_part(texts, "directory", command.directory())?;
    push_part(texts, "file", command.file())?;
    for argument in command.arguments().as_slice() {
        push_part(texts, "argument", argument.as_str())?;
    }
    push_part(texts, "output", command.output())
}

fn parts(alloc: Global, commands: &[CompileCommand]) -> Answer {
    let mut texts = Vec::new(alloc);
    for command in commands {
        push_parts(&mut texts, command)?;
    }
    Ok(texts)
}

fn refused_with(alloc: Global, error: DatabaseError) -> Answer {
    match error {
        DatabaseError::NotJson => refused(alloc, "NotJson"),
        DatabaseError::NotArray => refused(alloc, "NotArray"),
        DatabaseError::Entry(place) => {
            let place = format!(in alloc; "{place}")?;
            strs(alloc, &["refused", "Entry", place.as_str()])
        }
        DatabaseError::NoMemory => Err(CallError::NoMemory),
    }
}

fn parts_of(alloc: Global, text: &str) -> Answer {
    match read_database(alloc, text) {
        Ok(commands) => parts(alloc, commands.as_slice()),
        Err(error) => refused_with(alloc, error),
    }
}

// The text of a database; each part of its compile commands, with its name.
fn commands_of(alloc: Global, given: &[String]) -> Answer {
    parts_of(alloc, one_text(given)?)
}

// Compile commands, as above; each part of those that are read from their database, with its name.
fn database_read_back(alloc: Global, given: &[String]) -> Answer {
    parts_of(alloc, text_of(alloc, given)?.as_str())
}

pub fn call(alloc: Global, name: &str, given: &[String]) -> Option<Answer> {
    match name {
        "database" => Some(database(alloc, given)),
        "read_database" => Some(commands_of(alloc, given)),
        "database_read_back" => Some(database_read_back(alloc, given)),
        _ => None,
    }
}
