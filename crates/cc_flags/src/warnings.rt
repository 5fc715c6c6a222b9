// What a user is warned of, as far as the settings and the compiler decide it.
ghost use Rattle.std.specs.Prelude.{◌≡◌, ◌++◌, ◌&&◌, ◌||◌, OnOk};
ghost use Rattle.cc_flags.specs.Compilation.{seen};
ghost use Rattle.cc_flags.specs.Warnings.{language_variable, gnu_warnings, lacks_by, lacks_of, link_warning};

use crate::inherited::push_lost;
use crate::words::{remapped, rust_words, trimmed};
use crate::{BuildConfig, Compilation, Maps, Supported, push_map_lacks};
use cc_text::{Mem, ToolFamily, Words, is_cl, is_gnu};

/// The variable with its value by which a compiler writes its messages in English, as they are read: `LC_ALL` of GCC's "Environment Variables
/// Affecting GCC", and `VSLANG` for Visual Studio.
pub fn language_variable(family: ToolFamily) -> (&'static str, &'static str)
    ensures { (result.0.now, result.1.now) ≡ language_variable family }
{
    if is_cl(family) {
        ("VSLANG", "1033")
    } else {
        ("LC_ALL", "C")
    }
}

/// Adds that GCC was found for a target of the Visual Studio tools, where it was. Only want of memory refuses.
#[tactic(auto, unfolding(crate::specs::Warnings::gnu_warnings))]
pub fn push_gnu_warning(warnings: &mut Words, given: &Compilation<'_>) -> Mem<()>
    ensures { OnOk result (warnings.new ≡ warnings.old ++ gnu_warnings (seen given.now)) }
{
    let is_found = given.set.compiler.is_none();
    if is_found && given.target.env == "msvc" && is_gnu(given.compiler.family) {
        warnings.push("GNU compiler is not supported for this target")?;
    }
    Ok(())
}

// What the compiler lacks of some maps of paths.
fn push_lacks_of(
    warnings: &mut Words,
    given: &Compilation<'_>,
    supported: &Supported,
    maps: Maps,
) -> Mem<()>
    ensures { OnOk result (warnings.new ≡ warnings.old
        ++ lacks_of (seen given.now) supported.now maps) }
{
    let path = given.compiler.choice.path.as_str();
    push_map_lacks(
        warnings,
        given.alloc,
        path,
        given.compiler.family,
        supported.as_slice(),
        maps,
    )
}

/// Adds what the compiler lacks of what it is asked about, where these words are supported. Only want of memory
/// refuses.
#[tactic(auto, unfolding(crate::specs::Warnings::lacks_by))]
pub fn push_lacks(warnings: &mut Words, given: &Compilation<'_>, supported: &Supported) -> Mem<()>
    ensures { OnOk result (warnings.new ≡ warnings.old ++ lacks_by (seen given.now) supported.now) }
{
    let wanted = rust_words(given)?;
    push_lost(warnings, given.alloc, supported, wanted.as_slice())?;
    push_lacks_of(warnings, given, supported, trimmed(given))?;
    push_lacks_of(warnings, given, supported, remapped(given))?;
    Ok(())
}

/// Adds that flags are left off, where a user is told of it: at each call where that is wanted, else at the first. Only
/// want of memory refuses.
#[tactic(auto, unfolding(crate::specs::Warnings::link_warnings))]
pub fn push_link_warning(
    warnings: &mut Words,
    set: &BuildConfig,
    leaves_off: bool,
    is_first: bool,
) -> Mem<()>
    ensures { OnOk result (warnings.new ≡ warnings.old
        ++ link_warning (leaves_off && (set.now.repeat_lines || is_first))) }
{
    if leaves_off && (set.repeat_lines || is_first) {
        warnings.push("Ignoring linker flags after /link")?;
    }
    Ok(())
}
