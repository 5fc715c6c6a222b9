// The names of a library.
ghost use Rattle.std.specs.Prelude.{◌≡◌, IfOk, None, ◌++◌, Some, codes, option_and_then};
ghost use Rattle.std.specs.Option.{option_copied};
ghost use Rattle.std.specs.Path.{path_file_name};
ghost use Rattle.cc_flags.specs.Names.{is_nameless, has_slash, is_output_name, inner_name, copied_name, file_library};
ghost use Rattle.cc_target.specs.Targets.{info_seen};

use crate::nonempty;
use cc_target::TargetInfo;
use cc_text::{Mem, Text, after_prefix, before_suffix, file_name};
use std::alloc::Global;

// An output that names no library.
fn is_nameless(output: &str) -> bool
    ensures { result ≡ is_nameless output.now }
{
    matches!(output, "" | "." | ".." | "lib.a")
}

fn has_slash(output: &str) -> bool
    ensures { result ≡ has_slash output.now }
{
    output.as_bytes().contains(&b'/')
}

/// Whether a text is a single component of a path that names a library. It takes no memory.
#[tactic(auto, unfolding(crate::specs::Names::is_output_name))]
pub fn is_output_name(output: &str) -> bool
    ensures { result ≡ is_output_name output.now }
{
    !is_nameless(output) && !has_slash(output)
}

/// What stands between `lib` and `.a`, lent, where that is not empty. It takes no memory.
#[tactic(auto, unfolding(crate::specs::Names::inner_name))]
pub fn inner_name(output: &str) -> Option<&str>
    ensures { option_copied result ≡ inner_name output.now }
{
    nonempty(before_suffix(after_prefix(output, "lib")?, ".a"))
}

/// The name of the file of a library, `lib<name>.a`, as linkers look for it by the manual of GNU `ld`. Only want of
/// memory refuses.
pub fn file_of(alloc: Global, name: &str) -> Mem<Text>
    ensures { IfOk result (λ t. t ≡ codes "lib" ++ name.now ++ codes ".a") }
{
    let mut file = Text::of(alloc, "lib")?;
    file.push_str(name)?;
    file.push_str(".a")?;
    Ok(file)
}

// What stands before `.lib`, where that is not empty.
fn copied_name(file: &str) -> Option<&str>
    ensures { option_copied result ≡ copied_name file.now }
{
    nonempty(before_suffix(file, ".lib"))
}

// What a linker is given for a library by the name of its file.
#[tactic(auto, unfolding(crate::specs::Names::file_library))]
fn file_library<'a>(target: &TargetInfo, file: &'a str) -> Option<&'a str>
    ensures { option_copied result ≡ file_library (info_seen target.now) file.now }
{
    match inner_name(file) {
        Some(name) => Some(name),
        None => {
            if target.env == "msvc" {
                copied_name(file)
            } else {
                None
            }
        }
    }
}

/// The name of the library at a path, lent, as a linker takes it, which for Visual Studio may be that of its second
/// file; or none. It takes no memory.
pub fn name_in<'a>(target: &TargetInfo, path: &'a str) -> Option<&'a str>
    ensures { option_copied result
        ≡ option_and_then (file_library (info_seen target.now)) (path_file_name path.now) }
{
    file_library(target, file_name(path)?)
}
