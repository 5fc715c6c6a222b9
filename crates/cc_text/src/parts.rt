// The components of a path, by Rust's std: the module `std::path`, type `Component`, on a system whose separator is
// `/`.
ghost use Rattle.std.specs.Prelude.{◌≡◌, ◌↔◌, ◌<◌, ◌++◌, false, length, map, IfOk, IsTrue};
ghost use Rattle.std.specs.Path.{path_components, path_join, component_bytes, is_dot_at, IsRelative, IsWellFormedComponent};
ghost use Rattle.cc_text.specs.Components.{component_of, KeepsComponents};

use crate::{Mem, Text};
use std::alloc::Global;
use std::path::{self, Path};

/// A component of a path, which owns its text.
#[derive(Drop, Debug)]
pub enum Component {
    /// The `/` that an absolute path begins with.
    RootDir,
    /// A part `.` that a relative path begins with; others vanish.
    CurDir,
    /// A part `..`, which isn't resolved.
    ParentDir,
    /// Any other part: a name, without slashes.
    Normal(Text),
}

/// A component of std's, as one of ours.
#[tactic(auto, using(crate::proofs::ComponentLemmas::name_is_normal))]
fn owned(alloc: Global, part: path::Component<'_>) -> Mem<Component>
    requires { IsWellFormedComponent part }
    ensures { IfOk result (λ component. component ≡ component_of (component_bytes part.entry)) }
{
    match part {
        path::Component::RootDir => Ok(Component::RootDir),
        path::Component::CurDir => Ok(Component::CurDir),
        path::Component::ParentDir => Ok(Component::ParentDir),
        path::Component::Normal(name) => Ok(Component::Normal(Text::of(alloc, name)?)),
    }
}

/// The components of a path, in order: a leading `/`, then the parts between slashes. Empty parts vanish, and so
/// does a part `.` that isn't the first of a relative path; `..` stays. As `std::path::Path::components` has it.
/// Only want of memory refuses; nothing is kept then.
pub fn components(alloc: Global, path: &str) -> Mem<Vec<Component>>
    ensures { IfOk result (λ parts. parts.items ≡ map component_of (path_components path.now)) }
{
    let mut parts = Vec::new(alloc);
    for part in Path::new(path).components() {
        parts.push(owned(alloc, part)?)?;
    }
    Ok(parts)
}

/// Whether a path is relative and doesn't begin with the part `.`.
fn begins_with_a_name(path: &str) -> bool
    ensures { IsTrue result ↔ (IsRelative path.now × (is_dot_at path.now 0 ≡ false)) }
{
    !path.starts_with('/') && path != "." && !path.starts_with("./")
}

/// Whether joining adds components and changes none: the base isn't empty, and the path is relative and doesn't
/// begin with the part `.`. Then the components of `join` are those of the base and then those of the path. It
/// takes no memory.
pub fn keeps_components(base: &str, path: &str) -> bool
    ensures just { IsTrue result ↔ KeepsComponents base.now path.now }
    ensures law { IsTrue result
        → path_components (path_join base.now path.now)
        ≡ path_components base.now ++ path_components path.now }
{
    !base.is_empty() && begins_with_a_name(path)
}
