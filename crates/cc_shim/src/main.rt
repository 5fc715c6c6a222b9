//! A stand-in for a compiler and an archiver, for tests: it does what its words ask for, and writes down its words.
//! So a test needs no compiler, and sees each command line in the file that the command made.
//!
//! Stands on `cc_text`. What the words ask for stands in `words.rt`, with a contract for each answer; `main` alone
//! reads and writes files.
#![tactic(auto)]

mod words;

use cc_text::{Mem, Text, Words};
use std::fs::{File, OpenOptions};
use std::io::{ErrorKind, Write};
use std::process::ExitCode;
use std::{env, fs, io};

// The words behind the program's own name.
fn words_of(rt: &HostRuntime) -> io::Result<Words> {
    let mut words = Words::new(rt.alloc());
    let mut first = true;
    for word in env::args(rt)? {
        if !first {
            enough(words.push(word.as_str()))?;
        }
        first = false;
    }
    Ok(words)
}

// An answer for which there was memory.
fn enough<T>(answer: Mem<T>) -> io::Result<T> {
    match answer {
        Ok(value) => Ok(value),
        Err(_) => Err(io::Error::from(ErrorKind::OutOfMemory)),
    }
}

// Copies the file that is asked for to standard output.
fn copy_source(rt: &HostRuntime, words: &[Text]) -> io::Result<()> {
    if let Some(path) = words::copied(words) {
        let mut file = File::open(rt, path)?;
        io::copy(&mut file, &mut rt.stdout())?;
    }
    Ok(())
}

// Writes the words to the file that is named for them.
fn write_words(rt: &HostRuntime, words: &[Text]) -> io::Result<()> {
    if let Some(path) = words::output(words) {
        let lines = enough(words::lines(rt.alloc(), words))?;
        fs::write(rt, path, lines.as_str())?;
    }
    Ok(())
}

// Appends the members that are named behind the library to the library.
fn append_members(rt: &HostRuntime, words: &[Text]) -> io::Result<()> {
    if let Some((library, members)) = words::archived(words).split_first() {
        let lines = enough(words::lines(rt.alloc(), members))?;
        let mut options = OpenOptions::new();
        let mut file = options
            .append(true)
            .create(true)
            .open(rt, library.as_str())?;
        file.write_all(lines.as_str().as_bytes())?;
    }
    Ok(())
}

const LOOKS: u32 = 1_000_000;

// Whether the file that is waited for came, where one is.
fn came(rt: &HostRuntime, words: &[Text]) -> bool {
    let Some(path) = words::value_of(words, "--shim-wait=") else {
        return true;
    };
    for _look in 0..LOOKS {
        if fs::exists(rt, path).unwrap_or(false) {
            return true;
        }
    }
    false
}

fn main(rt: HostRuntime) -> io::Result<ExitCode> {
    let all = words_of(&rt)?;
    let words = all.as_slice();
    let said = enough(words::heard(rt.alloc(), words))?;
    let mut failed = rt.stderr().write_all(said.as_str().as_bytes()).is_err();
    failed = copy_source(&rt, words).is_err() || failed;
    failed = write_words(&rt, words).is_err() || failed;
    failed = append_members(&rt, words).is_err() || failed;
    if !came(&rt, words) {
        return Ok(ExitCode::from(3));
    }
    Ok(ExitCode::from(words::status(words, failed)))
}
