// Where programs were found.
ghost use Rattle.std.specs.Prelude.{◌≡◌, IfOk};
ghost use Rattle.std.specs.Option.{option_copied};
ghost use Rattle.cc_hosts.specs.Found.{path_for};

use cc_text::{Mem, Text};
use std::alloc::Global;

/// Where a program was found by its name on a PATH, of whose folders all count or the absolute ones alone. A shell remembers that too
/// (POSIX, `hash`), and looks again only where nothing is there any more.
#[derive(Drop)]
pub struct Found {
    pub program: Text,
    pub folders: Text,
    pub absolute: bool,
    pub path: Text,
}

impl Found {
    /// A program of this name was found in these folders, at this path.
    pub fn of(
        alloc: Global,
        program: &str,
        folders: &str,
        absolute: bool,
        path: &Text,
    ) -> Mem<Found>
        ensures program { IfOk result (λ f. f.program ≡ program.now) }
        ensures folders { IfOk result (λ f. f.folders ≡ folders.now) }
        ensures absolute { IfOk result (λ f. f.absolute ≡ absolute) }
        ensures path { IfOk result (λ f. f.path ≡ path.now) }
    {
        Ok(Found {
            program: Text::of(alloc, program)?,
            folders: Text::of(alloc, folders)?,
            absolute,
            path: path.try_clone()?,
        })
    }

    /// The path, where a program is looked for that has the same name, and in the same folders.
    pub fn path_for(&self, program: &str, folders: &str, absolute: bool) -> Option<&str>
        ensures { option_copied result ≡ path_for self.now program.now folders.now absolute }
    {
        let is_of_name = self.program.as_str() == program;
        let is_of_path = self.folders.as_str() == folders;
        if is_of_name && is_of_path && self.absolute == absolute {
            Some(self.path.as_str())
        } else {
            None
        }
    }
}
