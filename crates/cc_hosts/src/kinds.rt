// What stands at a path, also where the system refuses to tell of it: old filters of containers answer `statx(2)` with EPERM.
use std::fs;
use std::io::{self, Error, ErrorKind};
use std::rt::Files;

// The number of the system's error for a call that isn't permitted.
const EPERM: i32 = 1;

fn is_untold(error: &Error) -> bool {
    error.raw_os_error() == Some(EPERM)
}

/// Whether something stands at a path. What can't be learned does not.
pub fn stands<R: Files + AllocGlobal>(rt: &R, path: &str) -> bool {
    match fs::exists(rt, path) {
        Ok(there) => there,
        Err(error) => is_untold(&error) && fs::canonicalize(rt, path).is_ok(),
    }
}

/// Whether a folder stands at a path, or why that can't be learned.
pub fn is_folder(files: &impl Files, path: &str) -> io::Result<bool> {
    match fs::metadata(files, path) {
        Ok(found) => Ok(found.is_dir()),
        Err(error) if is_untold(&error) => opens_as_folder(files, path),
        Err(error) => Err(error),
    }
}

fn opens_as_folder(files: &impl Files, path: &str) -> io::Result<bool> {
    match files.open_dir(path) {
        Ok(_) => Ok(true),
        Err(error) if error.kind() == ErrorKind::NotADirectory => Ok(false),
        Err(error) => Err(error),
    }
}

/// Makes a folder and those above it. One that is there already is made too.
pub fn make_folders(files: &impl Files, path: &str) -> io::Result<()> {
    match fs::create_dir_all(files, path) {
        Err(error) if error.kind() == ErrorKind::AlreadyExists => {
            make_each(files, path);
            match is_folder(files, path) {
                Ok(true) => Ok(()),
                _ => Err(error),
            }
        }
        made => made,
    }
}

// Makes each folder of a path that can be made.
fn make_each(files: &impl Files, path: &str) {
    for (at, byte) in path.as_bytes().iter().enumerate() {
        if *byte == b'/'
            && let Some((above, _)) = path.split_at_checked(at)
        {
            let _ = fs::create_dir(files, above);
        }
    }
    let _ = fs::create_dir(files, path);
}
