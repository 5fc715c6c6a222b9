// The words of a compile command that are an object's own, a function a group. Each group adds its words last; only memory refuses.
ghost use Rattle.std.specs.Prelude.{◌≡◌, ◌++◌, IfOk, OnOk};
ghost use Rattle.cc_target.specs.Targets.{info_seen};
ghost use Rattle.cc_flags.specs.CompileWords as spec;

use crate::{BuildConfig, Object, name_of};
use cc_target::TargetInfo;
use cc_text::{Mem, ToolFamily, Words, extension, is_cl, is_clang_cl, is_visual_studio};
use std::alloc::Global;

fn is_asm_extension(extension: &str) -> bool
    ensures { result ≡ spec.is_asm_extension extension.now }
{
    extension.eq_ignore_ascii_case("asm") || extension.eq_ignore_ascii_case("s")
}

// The source is assembly.
#[tactic(auto, unfolding(crate::specs::CompileWords::is_asm))]
fn is_asm(source: &str) -> bool
    ensures { result ≡ spec.is_asm source.now }
{
    match extension(source) {
        Some(extension) => is_asm_extension(extension),
        None => false,
    }
}

fn is_masm_extension(extension: &str) -> bool
    ensures { result ≡ spec.is_masm_extension extension.now }
{
    extension.eq_ignore_ascii_case("asm")
}

/// Whether a source is in the language of the Visual Studio assemblers, for a target of theirs. It takes no memory.
#[tactic(auto, unfolding(crate::specs::CompileWords::is_masm))]
pub fn is_masm(target: &TargetInfo, source: &str) -> bool
    ensures { result ≡ spec.is_masm (info_seen target.now) source.now }
{
    if target.env != "msvc" {
        return false;
    }
    match extension(source) {
        Some(extension) => is_masm_extension(extension),
        None => false,
    }
}

// The Visual Studio tools take the object in one word: their assemblers, and their compilers but for assembly for Arm.
#[tactic(auto, unfolding(crate::specs::CompileWords::takes_one_word))]
fn takes_one_word(family: ToolFamily, target: &TargetInfo, source: &str) -> bool
    ensures { result ≡ spec.takes_one_word family (info_seen target.now) source.now }
{
    is_masm(target, source) || (is_visual_studio(family) && !(is_asm(source) && target.is_arm()))
}

// The object: `-o` of GCC's "Options Controlling the Kind of Output"; Microsoft's "/Fo (Object File Name)", which "ML and ML64 command-line
// reference" has too.
#[tactic(auto, unfolding(crate::specs::CompileWords::object_words))]
fn push_object_words(
    words: &mut Words,
    family: ToolFamily,
    target: &TargetInfo,
    object: &Object,
) -> Mem<()>
    ensures { OnOk result (words.new ≡ words.old
        ++ spec.object_words family (info_seen target.now) object.now) }
{
    if takes_one_word(family, target, object.src.as_str()) {
        words.push_joined("-Fo", object.dst.as_str())?;
    } else {
        words.push("-o")?;
        words.push(object.dst.as_str())?;
    }
    Ok(())
}

// The name that stands for the object in debug information, which is its path where nothing else is said: `-object-file-name=` of Clang's
// own options.
#[tactic(auto, unfolding(crate::specs::CompileWords::object_name_words))]
fn push_object_name_words(words: &mut Words, name: &str) -> Mem<()>
    ensures { OnOk result (words.new ≡ words.old ++ spec.object_name_words name.now) }
{
    words.push("-Xclang")?;
    words.push_joined("-object-file-name=", name)?;
    Ok(())
}

// Debug information in which no folder and no command line stands, so that two builds of the same sources are the same byte for byte:
// `-gno-codeview-command-line` and `-fdebug-compilation-dir` of Clang's "Clang command line argument reference".
#[tactic(auto, unfolding(crate::specs::CompileWords::same_codeview_words))]
fn push_same_codeview_words(words: &mut Words, object: &str) -> Mem<()>
    ensures { OnOk result (words.new ≡ words.old ++ spec.same_codeview_words object.now) }
{
    push_object_name_words(words, name_of(object))?;
    words.push("/clang:-gno-codeview-command-line")?;
    words.push("/clang:-fdebug-compilation-dir=.")?;
    Ok(())
}

// The same, where it is wanted and Clang takes the words of the Visual Studio compiler.
#[tactic(auto, unfolding(crate::specs::CompileWords::codeview_words))]
fn push_codeview_words(
    words: &mut Words,
    family: ToolFamily,
    reproducible: bool,
    object: &Object,
) -> Mem<()>
    ensures { OnOk result (words.new ≡ words.old
        ++ spec.codeview_words family reproducible object.now) }
{
    if reproducible && is_clang_cl(family) && !is_asm(object.src.as_str()) {
        push_same_codeview_words(words, object.dst.as_str())?;
    }
    Ok(())
}

// Nothing is linked: `-c` of GCC's "Options Controlling the Kind of Output"; `/c` of Microsoft's compilers and of its assemblers for x86.
// Those for Arm don't link, and have no such word.
#[tactic(auto, unfolding(crate::specs::CompileWords::object_only_words))]
fn push_object_only_words(words: &mut Words, target: &TargetInfo, source: &str) -> Mem<()>
    ensures { OnOk result (words.new ≡ words.old
        ++ spec.object_only_words (info_seen target.now) source.now) }
{
    if !(is_masm(target, source) && target.is_arm()) {
        words.push("-c")?;
    }
    Ok(())
}

// The extension of the source is `cc`.
fn has_extension_cc(source: &str) -> bool
    ensures { result ≡ spec.has_extension_cc source.now }
{
    match extension(source) {
        Some(extension) => extension == "cc",
        None => false,
    }
}

// The source, last. Visual Studio doesn't know the extension `cc` for C++, and is told by Microsoft's "/Tc, /Tp, /TC, /TP (Specify Source
// File Type)"; for Clang in its form a path that begins with a slash would be an option, so that `--` ends those (Clang's "Users Manual",
// "clang-cl"), unless none is to stand there.
#[tactic(auto, unfolding(crate::specs::CompileWords::source_words))]
fn push_source_words(
    words: &mut Words,
    family: ToolFamily,
    cpp: bool,
    is_bare: bool,
    source: &str,
) -> Mem<()>
    ensures { OnOk result (words.new ≡ words.old
        ++ spec.source_words family cpp is_bare source.now) }
{
    if is_cl(family) && cpp && has_extension_cc(source) {
        words.push_joined("-Tp", source)?;
    } else {
        if is_clang_cl(family) && !is_bare {
            words.push("--")?;
        }
        words.push(source)?;
    }
    Ok(())
}

/// The words of a command that expands a source, which follow those of the tool: `-E`, which stops behind the preprocessor (GCC's "Options
/// Controlling the Kind of Output"), and the source, before which no `--` stands for assembly. Only want of memory refuses.
pub fn expand_words(alloc: Global, family: ToolFamily, cpp: bool, source: &str) -> Mem<Words>
    ensures { IfOk result (λ words. words ≡ spec.expand_words family cpp source.now) }
{
    let mut words = Words::new(alloc);
    words.push("-E")?;
    push_source_words(&mut words, family, cpp, is_asm(source), source)?;
    Ok(words)
}

/// The words of a compile command that follow those of the tool: the object, `-c`, the flags of sources in assembly, and the source. Only
/// want of memory refuses.
pub fn compile_words(
    alloc: Global,
    set: &BuildConfig,
    family: ToolFamily,
    target: &TargetInfo,
    object: &Object,
) -> Mem<Words>
    ensures { IfOk result (λ words. words
        ≡ spec.compile_words set.now family (info_seen target.now) object.now) }
{
    let mut words = Words::new(alloc);
    push_object_words(&mut words, family, target, object)?;
    push_codeview_words(&mut words, family, set.reproducible_codeview, object)?;
    push_object_only_words(&mut words, target, object.src.as_str())?;
    if is_asm(object.src.as_str()) {
        words.extend(&set.asm_flags)?;
    }
    let is_bare = is_masm(target, object.src.as_str());
    push_source_words(&mut words, family, set.cpp, is_bare, object.src.as_str())?;
    Ok(words)
}
