// A file whose old bytes stand until its new ones do.
use cc_text::Mem;
use std::alloc::Global;
use std::fs::{File, Metadata, OpenFile, OpenOptions, Permissions};
use std::io::{ErrorKind, Write};
use std::os::unix::fs::{MetadataExt, PermissionsExt};
use std::rt::Files;
use std::{fs, io};

/// Two names beside a path, in its folder, of which a new file has one until it takes the path's place: the same in each run, so that a run takes over
/// what an ended one left, and one of this run's own, for where another run writes the path too.
#[derive(Drop)]
pub struct Beside {
    same: String,
    own: String,
}

impl Beside {
    /// The names beside a path. The word keeps the second from those of others.
    pub fn of(alloc: Global, path: &str, word: u64) -> Mem<Beside> {
        match path.rsplit_once('/') {
            Some((folder, name)) => Ok(Beside {
                same: format!(in alloc; "{folder}/.{name}.cc.tmp")?,
                own: format!(in alloc; "{folder}/.{name}.{word:016x}.tmp")?,
            }),
            None => Ok(Beside {
                same: format!(in alloc; ".{path}.cc.tmp")?,
                own: format!(in alloc; ".{path}.{word:016x}.tmp")?,
            }),
        }
    }
}

/// What a file is to have: these bytes, or those of the file at this path, with this mode where it is known.
#[derive(Clone, Copy)]
pub enum Contents<'a> {
    Bytes(&'a [u8]),
    Copy(&'a str, Option<u32>),
}

/// What is to be copied of a file. Refused is one that can't be read, and what is no file itself, as a folder or a device.
pub fn copy_of<'a>(files: &impl Files, from: &'a str) -> io::Result<Contents<'a>> {
    let source = File::open(files, from)?;
    match source.metadata() {
        Ok(found) if found.is_file() => Ok(Contents::Copy(from, Some(found.permissions().mode()))),
        Ok(_) => Err(io::Error::from(ErrorKind::InvalidInput)),
        Err(_) => Ok(Contents::Copy(from, None)),
    }
}

// Writes what a file is to have.
fn put<R: Files>(rt: &R, file: &mut R::File, contents: Contents<'_>) -> io::Result<()> {
    match contents {
        Contents::Bytes(bytes) => file.write_all(bytes),
        Contents::Copy(from, _) => {
            let mut source = File::open(rt, from)?;
            io::copy(&mut source, file)?;
            Ok(())
        }
    }
}

// How a new file of a name beside a path fared: it took the path's place; the name is another file's; another run took the name; or the path can't be
// replaced.
#[derive(Clone, Copy)]
enum Placed {
    Done,
    Taken,
    Lost,
    Fixed,
}

/// Writes a file: a new one of a name beside it that takes its place once it is whole. Refused, the file is as it was, as on a full device, and the new
/// one is gone.
///
/// What isn't a file itself, as a device, a pipe or a link, is written through; and in place is written a file whose folder takes no new
/// one, or gives this one's name to no other.
pub fn replace<R: Files>(
    rt: &R,
    path: &str,
    beside: &Beside,
    contents: Contents<'_>,
) -> io::Result<()> {
    let old = match fs::symlink_metadata(rt, path) {
        Ok(found) if found.is_file() => {
            let _ = OpenOptions::new().write(true).open(rt, path)?;
            Some(found)
        }
        Err(error) if error.kind() == ErrorKind::NotFound => None,
        _ => return write_through(rt, path, contents),
    };
    match place_beside(rt, path, beside, &old, contents)? {
        Placed::Done => Ok(()),
        Placed::Taken | Placed::Lost | Placed::Fixed => write_through(rt, path, contents),
    }
}

// Writes what stands at a path in place.
fn write_through<R: Files>(rt: &R, path: &str, contents: Contents<'_>) -> io::Result<()> {
    let mut file = File::create(rt, path)?;
    if let Contents::Copy(_, Some(mode)) = contents
        && file.metadata()?.is_file()
    {
        let _ = file.set_permissions(Permissions::from_mode(mode));
    }
    put(rt, &mut file, contents)
}

// Puts a new file in the place of a path, under the name that each run gives it. A file of that name is one that an ended run left, or that another run
// writes now: that one loses its name, and then goes by one of its own, as this one does where it loses its name.
fn place_beside<R: Files>(
    rt: &R,
    path: &str,
    beside: &Beside,
    old: &Option<Metadata>,
    contents: Contents<'_>,
) -> io::Result<Placed> {
    let same = beside.same.as_str();
    let mut placed = place(rt, path, same, old, contents)?;
    if matches!(placed, Placed::Taken) {
        let _ = fs::remove_file(rt, same);
        placed = place(rt, path, same, old, contents)?;
    }
    match placed {
        Placed::Taken | Placed::Lost => place(rt, path, beside.own.as_str(), old, contents),
        placed => Ok(placed),
    }
}

// Puts a new file of a name in the place of a path.
fn place<R: Files>(
    rt: &R,
    path: &str,
    name: &str,
    old: &Option<Metadata>,
    contents: Contents<'_>,
) -> io::Result<Placed> {
    let mut file = match File::create_new(rt, name) {
        Ok(file) => file,
        Err(error) => {
            return match error.kind() {
                ErrorKind::AlreadyExists => Ok(Placed::Taken),
                kind if is_fixed(kind) => Ok(Placed::Fixed),
                _ => Err(error),
            };
        }
    };
    if let Err(error) = fill(rt, name, &mut file, old, contents) {
        let _ = fs::remove_file(rt, name);
        return Err(error);
    }
    if !has_name::<R>(rt, &file, name) {
        return Ok(Placed::Lost);
    }
    match fs::rename(rt, name, path) {
        Ok(()) => Ok(Placed::Done),
        Err(error) => {
            let _ = fs::remove_file(rt, name);
            match error.kind() {
                ErrorKind::NotFound => Ok(Placed::Lost),
                kind if is_fixed(kind) => Ok(Placed::Fixed),
                _ => Err(error),
            }
        }
    }
}

// Whether a file still has a name.
fn has_name<R: Files>(rt: &R, file: &R::File, name: &str) -> bool {
    match (file.metadata(), fs::symlink_metadata(rt, name)) {
        (Ok(file), Ok(found)) => file.ino() == found.ino() && file.dev() == found.dev(),
        _ => false,
    }
}

// Writes a new file that is to take the place of an old one, with its owner where the system gives it, and its permissions, or those of what is copied.
// The device has the bytes before the old ones are given up.
fn fill<R: Files>(
    rt: &R,
    name: &str,
    file: &mut R::File,
    old: &Option<Metadata>,
    contents: Contents<'_>,
) -> io::Result<()> {
    if let Some(found) = old {
        let _ = rt.chown(name, Some(found.uid()), Some(found.gid()));
    }
    if let Some(mode) = mode_of(old, contents) {
        let _ = file.set_permissions(Permissions::from_mode(mode));
    }
    put(rt, file, contents)?;
    if old.is_some() { sync(file) } else { Ok(()) }
}

// The mode that a new file gets, where it is known.
fn mode_of(old: &Option<Metadata>, contents: Contents<'_>) -> Option<u32> {
    match (contents, old) {
        (Contents::Copy(_, mode), _) => mode,
        (Contents::Bytes(_), Some(found)) => Some(found.permissions().mode()),
        (Contents::Bytes(_), None) => None,
    }
}

// Waits until the device has the bytes of a file, where its file system knows that call.
fn sync(file: &impl OpenFile) -> io::Result<()> {
    match file.sync_all() {
        Err(error) if is_unknown(error.kind()) => Ok(()),
        synced => synced,
    }
}

// A failure of a call that a file system doesn't know.
fn is_unknown(kind: ErrorKind) -> bool {
    matches!(kind, ErrorKind::InvalidInput | ErrorKind::Unsupported)
}

// A failure of a name beside a file that says nothing of the file itself: its folder may not be written, its name is too long for another
// beside it, or another file system is mounted on it.
fn is_fixed(kind: ErrorKind) -> bool {
    match kind {
        ErrorKind::PermissionDenied
        | ErrorKind::ReadOnlyFilesystem
        | ErrorKind::InvalidFilename
        | ErrorKind::ResourceBusy
        | ErrorKind::CrossesDevices => true,
        _ => false,
    }
}
