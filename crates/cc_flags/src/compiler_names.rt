// What the name of a compiler's file says. The Android NDK (its guide "Use the NDK with other build systems") and
// llvm-mingw ship wrappers of Clang that are named by their target and hand Clang that target's `--target`; a
// second one from here would override it.
ghost use Rattle.std.specs.Prelude.{◌≡◌};
ghost use Rattle.std.specs.Option.{option_copied};
ghost use Rattle.cc_text.specs.Case.{lowered};
ghost use Rattle.cc_target.specs.Targets.{info_seen};
ghost use Rattle.cc_flags.specs.CompilerNames as names;
ghost use Rattle.cc_text.specs.Within.{is_within};

use cc_target::TargetInfo;
use cc_text::{contains_ignore_ascii_case, ends_with_ignore_ascii_case, file_name};

/// The file name of a path, lent, or the empty text where it has none. It takes no memory.
#[tactic(auto, unfolding(crate::specs::CompilerNames::name_of))]
pub fn name_of(path: &str) -> &str
    ensures { result.now ≡ names.name_of path.now }
{
    file_name(path).unwrap_or("")
}

// The needle stands in the name, whatever the case of ASCII letters.
fn has_ignoring_case(name: &str, needle: &str) -> bool
    ensures { result ≡ is_within (lowered needle.now) (lowered name.now) }
{
    contains_ignore_ascii_case(name, needle)
}

// What stands before the last `-`, or nothing.
fn before_last_dash(name: &str) -> &str
    ensures { result.now ≡ names.before_last_dash name.now }
{
    match name.rsplit_once('-') {
        Some((before, _)) => before,
        None => "",
    }
}

// A wrapper of Clang from llvm-mingw, named by its target.
#[tactic(auto, unfolding(crate::specs::CompilerNames::is_mingw_clang))]
fn is_mingw_clang(program: &str) -> bool
    ensures { result ≡ names.is_mingw_clang program.now }
{
    let name = name_of(program);
    ends_with_ignore_ascii_case(name, "-w64-mingw32-clang")
        || ends_with_ignore_ascii_case(name, "-w64-mingw32-clang++")
}

// An Android compiler that is named by its target.
#[tactic(auto, unfolding(crate::specs::CompilerNames::is_android_clang))]
fn is_android_clang(program: &str) -> bool
    ensures { result ≡ names.is_android_clang program.now }
{
    has_ignoring_case(before_last_dash(name_of(program)), "android")
}

// A compiler for Windows that was found, not set, and gives itself the target that its name has.
#[tactic(auto, unfolding(crate::specs::CompilerNames::has_windows_target))]
pub(crate) fn has_windows_target(compiler: Option<&str>, target: &TargetInfo, program: &str) -> bool
    ensures { result ≡ names.has_windows_target (option_copied compiler.entry)
        (info_seen target.now) program.now }
{
    target.os == "windows" && compiler.is_none() && is_mingw_clang(program)
}

// A compiler for Android that gives itself the target that its name has.
#[tactic(auto, unfolding(crate::specs::CompilerNames::has_android_target))]
pub(crate) fn has_android_target(target: &TargetInfo, program: &str) -> bool
    ensures { result ≡ names.has_android_target (info_seen target.now) program.now }
{
    target.os == "android" && is_android_clang(program)
}
