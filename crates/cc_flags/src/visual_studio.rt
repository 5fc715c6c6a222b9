// The words that the Visual Studio compilers take for a target and an optimisation level: Microsoft's page "MSVC
// Compiler Options", and a page of its own for each; `-` stands for `/`, which both drivers read so.
ghost use Rattle.std.specs.Prelude.{◌≡◌, ◌++◌, OnOk};
ghost use Rattle.cc_target.specs.Targets.{info_seen};
ghost use Rattle.cc_flags.specs.VisualStudioWords as spec;

use crate::defaults::push_target_words;
use cc_target::TargetInfo;
use cc_text::{Mem, ToolFamily, Words, is_clang_cl, is_visual_studio};

// A level that asks for small code.
#[tactic(auto, unfolding(crate::specs::VisualStudioWords::is_small))]
fn is_small(level: &str) -> bool
    ensures { result ≡ spec.is_small level.now }
{
    matches!(level, "z" | "s" | "1")
}

// A level that asks for fast code.
#[tactic(auto, unfolding(crate::specs::VisualStudioWords::is_fast))]
fn is_fast(level: &str) -> bool
    ensures { result ≡ spec.is_fast level.now }
{
    matches!(level, "2" | "3")
}

/// Adds, for Visual Studio's compilers: no banner, which would stand among the lines of each run; the C library,
/// `-MT` linked statically or `-MD` not, as `static_crt` says, else as rustc links it (`crt`), since a program has
/// one; `-O1` for levels `s`, `z` and `1`, which ask for small code, and `-O2` for `2` and `3`, as there is no
/// `-O3`. Refused for memory, `words` may hold a part of them.
#[tactic(auto, unfolding(crate::specs::VisualStudioWords::visual_studio_words))]
pub fn push_visual_studio_words(
    words: &mut Words,
    family: ToolFamily,
    static_crt: Option<bool>,
    crt: bool,
    level: &str,
) -> Mem<()>
    ensures { OnOk result (words.new
        ≡ words.old ++ spec.visual_studio_words family static_crt crt level.now) }
{
    if is_visual_studio(family) {
        let is_static = static_crt.unwrap_or(crt);
        words.push_chosen(&[
            (true, &["-nologo"]),
            (is_static, &["-MT"]),
            (!is_static, &["-MD"]),
            (is_small(level), &["-O1"]),
            (is_fast(level), &["-O2"]),
        ])?;
    }
    Ok(())
}

// Instructions that every processor of Rust's target has.
#[tactic(auto, unfolding(crate::specs::VisualStudioWords::sse_words))]
fn push_sse_words(words: &mut Words, target: &TargetInfo) -> Mem<()>
    ensures { OnOk result (words.new ≡ words.old ++ spec.sse_words (info_seen target.now)) }
{
    if target.arch == "x86" {
        words.push("-arch:SSE2")?;
    }
    Ok(())
}

// What tells Clang in this form its target.
#[tactic(auto, unfolding(crate::specs::VisualStudioWords::clang_cl_words))]
fn push_clang_cl_words(words: &mut Words, target: &TargetInfo, llvm: &str) -> Mem<()>
    ensures { OnOk result (words.new
        ≡ words.old ++ spec.clang_cl_words (info_seen target.now) llvm.now) }
{
    push_target_words(words, llvm)?;
    push_sse_words(words, target)?;
    Ok(())
}

// What tells the Visual Studio compiler itself of its target.
#[tactic(auto, unfolding(crate::specs::VisualStudioWords::cl_words))]
fn push_cl_words(words: &mut Words, target: &TargetInfo) -> Mem<()>
    ensures { OnOk result (words.new ≡ words.old ++ spec.cl_words (info_seen target.now)) }
{
    let i586 = target.full_arch == "i586";
    let arm64ec = target.full_arch == "arm64ec";
    words.push_chosen(&[(i586, &["-arch:IA32"]), (arm64ec, &["-arm64EC"])])?;
    Ok(())
}

// Rust's targets for Windows on x86 want SSE2, which `clang-cl` gets by a flag and `cl.exe` takes for granted;
// `i586` is held to less (Microsoft's page "/arch (x86)").
#[tactic(auto, unfolding(crate::specs::VisualStudioWords::instruction_words))]
fn push_instruction_words(
    words: &mut Words,
    family: ToolFamily,
    target: &TargetInfo,
    llvm: &str,
) -> Mem<()>
    ensures { OnOk result (words.new
        ≡ words.old ++ spec.instruction_words family (info_seen target.now) llvm.now) }
{
    if is_clang_cl(family) {
        push_clang_cl_words(words, target, llvm)?;
    } else {
        push_cl_words(words, target)?;
    }
    Ok(())
}

// Headers of Windows are those of a desktop.
#[tactic(auto, unfolding(crate::specs::VisualStudioWords::desktop_words))]
fn push_desktop_words(words: &mut Words, target: &TargetInfo) -> Mem<()>
    ensures { OnOk result (words.new ≡ words.old ++ spec.desktop_words (info_seen target.now)) }
{
    if target.arch == "arm" {
        words.push("-D_ARM_WINAPI_PARTITION_DESKTOP_SDK_AVAILABLE=1")?;
    }
    Ok(())
}

/// Adds, for Visual Studio's compilers: `-Brepro`, which Microsoft doesn't document, so that two builds write the
/// same bytes, without times; the target as `llvm` for `clang-cl`, and what the architecture wants; for Arm the
/// macro without which headers of Windows refuse desktop programs. Refused for memory, `words` may hold a part of
/// them.
#[tactic(auto, unfolding(crate::specs::VisualStudioWords::visual_studio_target_words))]
pub fn push_visual_studio_target_words(
    words: &mut Words,
    family: ToolFamily,
    target: &TargetInfo,
    llvm: &str,
) -> Mem<()>
    ensures { OnOk result (words.new
        ≡ words.old ++ spec.visual_studio_target_words family (info_seen target.now) llvm.now) }
{
    if is_visual_studio(family) {
        words.push("-Brepro")?;
        push_instruction_words(words, family, target, llvm)?;
        push_desktop_words(words, target)?;
    }
    Ok(())
}
