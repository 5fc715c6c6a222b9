// The names of a library.
ghost use Rattle.std.specs.Prelude.{◌≡◌, IfOk, None, Some};
ghost use Rattle.cc_flags.specs.Names.{is_output_name, inner_name, library_name, library_file, linked_library};
ghost use Rattle.cc_plan.specs.LibForm.{copy_path_of};
ghost use Rattle.cc_flags.specs.Target.{target_info};
ghost use Rattle.cc_plan.specs.Refusal.{name_refusal, path_refusal, AllowedBy, RefusedBy};

use crate::lib_form::folder_of;
use crate::{ArgumentCause, PlanError};
use cc_env::BuildEnv;
use cc_flags::{
    BuildConfig, file_of, inner_name, is_output_name, name_in, nonempty, target_info as info,
};
use cc_text::{Mem, Text, join, parent};
use std::alloc::Global;

/// The name of the library, as a linker takes it behind `-l`, and the name of its file, for an output such as `foo` or
/// `libfoo.a`.
///
/// Refused where the output is no single component of a path, or is `lib.a`, which leaves the library without a name;
/// and for memory. Linkers look for the name `foo` in the file `libfoo.a`, by the manual of GNU `ld`.
pub fn lib_and_archive_names(alloc: Global, output: &str) -> Result<(Text, Text), PlanError>
    ensures names { IfOk result (λ names.
        (names.0 ≡ library_name output.now) × (names.1 ≡ library_file output.now)) }
    ensures allowed { AllowedBy (name_refusal output.now) result }
    ensures refused { RefusedBy (name_refusal output.now) result }
{
    if !is_output_name(output) {
        return Err(PlanError::Argument(ArgumentCause::Output));
    }
    match inner_name(output) {
        Some(name) => Ok((Text::of(alloc, name)?, Text::of(alloc, output)?)),
        None => Ok((Text::of(alloc, output)?, file_of(alloc, output)?)),
    }
}

/// The path of the second file of a library of this name for Visual Studio, `<name>.lib` beside the library, as its
/// linkers look for it ("LINK Input Files"). Only want of memory refuses.
pub fn copy_path(alloc: Global, library: &str, name: &str) -> Mem<Text>
    ensures { IfOk result (λ path. path ≡ copy_path_of library.now name.now) }
{
    let mut file = Text::of(alloc, name)?;
    file.push_str(".lib")?;
    join(alloc, folder_of(library), file.as_str())
}

/// The name of the library at a path, as a linker takes it behind `-l`, and its folder.
///
/// Refused where the file isn't `lib<name>.a` with a name, as linkers look for it by the manual of GNU `ld`, nor, for a
/// target of Visual Studio, `<name>.lib`, or where the path has no folder, in which they would look; and for memory.
#[tactic(auto, unfolding(cc_flags::specs::Names::linked_library))]
pub fn library_and_dir(
    alloc: Global,
    set: &BuildConfig,
    env: &BuildEnv,
    library: &str,
) -> Result<(Text, Text), PlanError>
    ensures found { IfOk result (λ found.
        linked_library (target_info set.now env.now) library.now ≡ Some found) }
    ensures refused { RefusedBy (path_refusal set.now env.now library.now) result }
{
    match name_in(&info(set, env), library) {
        Some(name) => match nonempty(parent(library)) {
            Some(dir) => Ok((Text::of(alloc, name)?, Text::of(alloc, dir)?)),
            None => Err(PlanError::Argument(ArgumentCause::Library)),
        },
        None => Err(PlanError::Argument(ArgumentCause::Library)),
    }
}
