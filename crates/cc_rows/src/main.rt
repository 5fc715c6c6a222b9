//! Plays the worked rows of each file that an argument names, and prints those that end otherwise than they expect.
//!
//! Stands on `cc_row`, which reads them, on `cc_command`, whose `drive_files` runs a row on a host and files in memory,
//! and on `cc_calls`, which makes the calls of single functions. It ends with 0 where every file was read and all was
//! as expected, and else with 1.
#![tactic(auto)]

mod calls;
mod compare;
mod names;
mod play;

use calls::{is_known, name_of, play_call};
use cc_row::{Book, CallRow, Row, RowError, read_book};
use cc_text::{Mem, NoMemory};
use compare::Difference;
use play::play;
use std::process::ExitCode;
use std::rt::Files;
use std::sync::Wait;
use std::{env, fs, io};

// The last part of a path.
fn file_name(path: &str) -> &str {
    match path.rsplit_once('/') {
        Some((_, name)) => name,
        None => path,
    }
}

fn print_refusal(rt: &impl Print, file: &str, error: &RowError) -> io::Result<()> {
    match error {
        RowError::Refused(why) => println!(rt; "{file}: {why}"),
        RowError::NoMemory => println!(rt; "{file}: no memory"),
    }
}

fn print_counts(rt: &impl Print, file: &str, book: &Book) -> io::Result<()> {
    let rows = book.rows.len();
    let calls = book.calls.len();
    if calls == 0 {
        println!(rt; "{file}: {rows} rows")
    } else if rows == 0 {
        println!(rt; "{file}: {calls} calls")
    } else {
        println!(rt; "{file}: {rows} rows, {calls} calls")
    }
}

// Prints how a row or a call differs, if it does. Gives whether it was as expected.
fn print_played(rt: &impl Print, name: &str, played: &Mem<Option<Difference>>) -> io::Result<bool> {
    match played {
        Ok(None) => return Ok(true),
        Ok(Some(difference)) => {
            println!(rt; "  {name}")?;
            println!(rt; "    expected: {}", difference.expected)?;
            println!(rt; "    found:    {}", difference.found)?;
        }
        Err(_) => println!(rt; "  {name}: no memory")?,
    }
    Ok(false)
}

fn play_rows(rt: &(impl Print + Wait + AllocGlobal), rows: &[Row]) -> io::Result<bool> {
    let mut well = true;
    for row in rows {
        let played = play(rt, rt.alloc(), row);
        well &= print_played(rt, row.name.as_str(), &played)?;
    }
    Ok(well)
}

fn print_called(
    rt: &(impl Print + AllocGlobal),
    call: &CallRow,
    played: &Mem<Option<Difference>>,
) -> io::Result<bool> {
    match name_of(rt.alloc(), call) {
        Ok(name) => print_played(rt, name.as_str(), played),
        Err(_) => print_played(rt, call.function.as_str(), &Err(NoMemory)),
    }
}

fn play_calls(rt: &(impl Print + AllocGlobal), calls: &[CallRow]) -> io::Result<bool> {
    let mut well = true;
    for call in calls {
        let played = play_call(rt.alloc(), call);
        well &= print_called(rt, call, &played)?;
    }
    Ok(well)
}

// Whether there is each function that is called. One that there is not is told.
fn check_functions(
    rt: &(impl Print + AllocGlobal),
    file: &str,
    calls: &[CallRow],
) -> io::Result<bool> {
    for call in calls {
        let function = call.function.as_str();
        if !is_known(rt.alloc(), function) {
            println!(rt; "{file}: [calls]: {function}: no such function")?;
            return Ok(false);
        }
    }
    Ok(true)
}

// Whether all of a file is as expected.
fn play_book(rt: &(impl Print + Wait + AllocGlobal), file: &str, book: &Book) -> io::Result<bool> {
    if !check_functions(rt, file, &book.calls)? {
        return Ok(false);
    }
    print_counts(rt, file, book)?;
    let rows = play_rows(rt, &book.rows)?;
    let calls = play_calls(rt, &book.calls)?;
    Ok(rows && calls)
}

fn play_text(rt: &(impl Print + Wait + AllocGlobal), file: &str, text: &str) -> io::Result<bool> {
    match read_book(rt.alloc(), text) {
        Ok(book) => play_book(rt, file, &book),
        Err(error) => {
            print_refusal(rt, file, &error)?;
            Ok(false)
        }
    }
}

fn play_file(rt: &(impl Files + Print + Wait + AllocGlobal), path: &str) -> io::Result<bool> {
    let file = file_name(path);
    match fs::read_to_string(rt, path) {
        Ok(text) => play_text(rt, file, text.as_str()),
        Err(error) => {
            println!(rt; "{file}: {error}")?;
            Ok(false)
        }
    }
}

fn main(rt: HostRuntime) -> io::Result<ExitCode> {
    let mut well = true;
    for path in env::args(&rt)?.skip(1) {
        well &= play_file(&rt, path.as_str())?;
    }
    Ok(if well {
        ExitCode::SUCCESS
    } else {
        ExitCode::FAILURE
    })
}
