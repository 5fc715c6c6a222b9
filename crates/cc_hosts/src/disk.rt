// Files of the machine.
use crate::reason::why_of;
use cc_host::{Created, Removal, Why};
use std::fs;
use std::io::{ErrorKind, Write};
use std::rt::Files;

/// Removes a file. One that isn't there is absent.
pub fn remove(files: &impl Files, path: &str) -> Result<Removal, Why> {
    match fs::remove_file(files, path) {
        Ok(()) => Ok(Removal::Gone),
        Err(error) => match error.kind() {
            ErrorKind::NotFound => Ok(Removal::Absent),
            ErrorKind::NotADirectory => Ok(Removal::Absent),
            kind => Err(why_of(kind)),
        },
    }
}

/// Makes a file where none of that name stands. One whose bytes couldn't be written is removed again.
pub fn create_new<R: Files>(rt: &R, path: &str, contents: &[u8]) -> Result<Created, Why> {
    let mut file = match fs::File::create_new(rt, path) {
        Ok(file) => file,
        Err(error) => {
            return match error.kind() {
                ErrorKind::AlreadyExists => Ok(Created::Exists),
                kind => Err(why_of(kind)),
            };
        }
    };
    match file.write_all(contents) {
        Ok(()) => Ok(Created::New),
        Err(error) => {
            let _ = fs::remove_file(rt, path);
            Err(why_of(error.kind()))
        }
    }
}
