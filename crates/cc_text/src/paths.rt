// Paths as texts, read by their components: Rust's std, `std::path::Path`, on a system whose separator is `/`. No
// call asks the file system.
ghost use Rattle.std.specs.Prelude.{◌≡◌, ◌↔◌, IfOk, IsTrue};
ghost use Rattle.std.specs.Option.{option_copied};
ghost use Rattle.std.specs.Path.{path_components, path_join, path_parent, path_file_name, path_file_stem, path_extension};
ghost use Rattle.cc_text.specs.Paths.{with_extension};

use crate::{Mem, Text};
use std::alloc::Global;
use std::path::{Path, PathBuf};

/// The path that `path` is, seen from `base`: `path` itself where it begins with `/`, else the base, a `/` where
/// the base is neither empty nor ends with one, and `path`. As `std::path::Path::join` has it. Only want of memory
/// refuses; nothing is kept then.
pub fn join(alloc: Global, base: &str, path: &str) -> Mem<Text>
    ensures { IfOk result (λ joined. joined ≡ path_join base.now path.now) }
{
    Text::of(alloc, Path::new(base).join(alloc, path)?.as_str())
}

/// The path up to the end of its last component but one: `/` where only the root is left, empty where nothing is.
/// None for a path without components and for the root alone. As `std::path::Path::parent` has it. It takes no
/// memory.
pub fn parent(path: &str) -> Option<&str>
    ensures { option_copied result ≡ path_parent path.now }
{
    Some(Path::new(path).parent()?.as_str())
}

/// The last component where that is a name, neither `.` nor `..` nor the root; else none. As
/// `std::path::Path::file_name` has it. It takes no memory.
pub fn file_name(path: &str) -> Option<&str>
    ensures { option_copied result ≡ path_file_name path.now }
{
    Path::new(path).file_name()
}

/// What stands in the file name before its last dot, where that isn't its first byte; else the whole name. None
/// for a path without file name. As `std::path::Path::file_stem` has it. It takes no memory.
pub fn file_stem(path: &str) -> Option<&str>
    ensures { option_copied result ≡ path_file_stem path.now }
{
    Path::new(path).file_stem()
}

/// What follows the last dot of the file name, where that isn't its first byte; else none. As
/// `std::path::Path::extension` has it. It takes no memory.
pub fn extension(path: &str) -> Option<&str>
    ensures { option_copied result ≡ path_extension path.now }
{
    Path::new(path).extension()
}

/// The path with its file name replaced by its stem, a dot and `ext`; a path without file name stays as it is. The
/// dot stands before an empty `ext` too, which is where this differs from `std::path::Path::with_extension`. Only
/// want of memory refuses; nothing is kept then.
pub fn with_extension(alloc: Global, path: &str, ext: &str) -> Mem<Text>
    ensures { IfOk result (λ text. text ≡ with_extension path.now ext.now) }
{
    let mut stem = PathBuf::from_str(alloc, path)?;
    let is_named = stem.set_extension("")?;
    let mut text = Text::of(alloc, stem.as_str())?;
    if is_named {
        text.push_str(".")?;
        text.push_str(ext)?;
    }
    Ok(text)
}

/// Whether two paths have the same components, as std compares them: `a//b` and `a/./b` are the same, `a/../b` and
/// `b` aren't. It takes no memory.
#[tactic(auto, using(crate::proofs::PathLemmas::same_by_both))]
pub fn same_path(a: &str, b: &str) -> bool
    ensures { IsTrue result ↔ (path_components a.now ≡ path_components b.now) }
{
    Path::new(a).starts_with(b) && Path::new(b).starts_with(a)
}
