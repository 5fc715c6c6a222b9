// The words of the assembler, a function a group. Each group adds its words last; only memory refuses. What they mean is told by Microsoft's
// "ML and ML64 command-line reference" and "ARM Assembler command-line reference", and by LLVM's "llvm-ml - LLVM assembler for MASM".
ghost use Rattle.std.specs.Prelude.{◌≡◌, ◌++◌, ◌∷◌, [], IfOk, OnOk, codes};
ghost use Rattle.cc_flags.specs.Texts.{is};
ghost use Rattle.cc_target.specs.Targets.{info_seen};
ghost use Rattle.cc_flags.specs.AssemblerWords as spec;
ghost use Rattle.cc_text.specs.Words.{when};

use crate::assembly::Assembly;
use crate::given::or_variable;
use crate::variables::push_if;
use crate::words::predefine::push_predefine_words;
use crate::words::settings::{push_definition_words, push_include_words};
use crate::{BuildConfig, Choice, Definition, has_debug, is_masm};
use cc_env::BuildEnv;
use cc_target::TargetInfo;
use cc_text::{Mem, Text, Words, file_stem, starts_with_ignore_ascii_case};
use std::alloc::Global;

/// Whether the assembler is that of LLVM, by the stem of its file's name. It takes no memory.
#[tactic(auto, unfolding(crate::specs::AssemblerWords::is_llvm))]
pub fn is_llvm(path: &str) -> bool
    ensures { result ≡ spec.is_llvm path.now }
{
    match file_stem(path) {
        Some(stem) => starts_with_ignore_ascii_case(stem, "llvm-ml"),
        None => false,
    }
}

// Which x86 it assembles for. That of LLVM takes 32 bits, unless it is told; of two such words it takes the last, so that a user's counts.
#[tactic(auto, unfolding(crate::specs::AssemblerWords::width_words))]
pub(crate) fn push_width_words(words: &mut Words, target: &TargetInfo, path: &str) -> Mem<()>
    ensures { OnOk result (words.new ≡ words.old ++ spec.width_words (info_seen target.now) path.now) }
{
    let is_llvm = is_llvm(path);
    words.push_chosen(&[
        (is_llvm && target.arch == "x86_64", &["-m64"]),
        (is_llvm && target.arch == "x86", &["-m32"]),
    ])?;
    Ok(())
}

// The machine of an object of ARM64EC, whose assembler is that of Arm of 64 bits.
fn push_machine(words: &mut Words, target: &TargetInfo) -> Mem<()>
    ensures { OnOk result (words.new ≡ words.old
        ++ when (is (info_seen target.now).arch "arm64ec") (codes "-machine" ∷ codes "ARM64EC" ∷ [])) }
{
    if target.arch == "arm64ec" {
        words.push("-machine")?;
        words.push("ARM64EC")?;
    }
    Ok(())
}

// For Arm: `-g` for debug information, and `-machine`.
fn push_machine_words(words: &mut Words, target: &TargetInfo, debug: bool) -> Mem<()>
    ensures { OnOk result (words.new ≡ words.old
        ++ spec.machine_words (info_seen target.now) debug) }
{
    push_if(words, debug, "-g")?;
    push_machine(words, target)?;
    Ok(())
}

// And the symbols.
#[tactic(auto, unfolding(crate::specs::AssemblerWords::arm_words))]
pub(crate) fn push_arm_words(
    words: &mut Words,
    alloc: Global,
    target: &TargetInfo,
    debug: bool,
    definitions: &[Definition],
) -> Mem<()>
    ensures { OnOk result (words.new ≡ words.old
        ++ spec.arm_words (info_seen target.now) debug definitions.now) }
{
    push_machine_words(words, target, debug)?;
    push_predefine_words(words, alloc, definitions)?;
    Ok(())
}

// For others: `/Zi` for debug information, which that of LLVM ignores with a warning, and the macros, `/D`.
#[tactic(auto, unfolding(crate::specs::AssemblerWords::masm_words))]
fn push_masm_words(
    words: &mut Words,
    alloc: Global,
    path: &str,
    debug: bool,
    definitions: &[Definition],
) -> Mem<()>
    ensures { OnOk result (words.new ≡ words.old
        ++ spec.masm_words path.now debug definitions.now) }
{
    if debug && !is_llvm(path) {
        words.push("-Zi")?;
    }
    push_definition_words(words, alloc, definitions)?;
    Ok(())
}

// The words for the language of the target.
fn push_language_words(
    words: &mut Words,
    alloc: Global,
    target: &TargetInfo,
    path: &str,
    debug: bool,
    definitions: &[Definition],
) -> Mem<()>
    ensures { OnOk result (words.new ≡ words.old
        ++ spec.language_words (info_seen target.now) path.now debug definitions.now) }
{
    if target.is_arm() {
        push_arm_words(words, alloc, target, debug, definitions)
    } else {
        push_masm_words(words, alloc, path, debug, definitions)
    }
}

// The handlers of exceptions are told the linker, which refuses an object of x86 without them where all others have them: `/safeseh`.
#[tactic(auto, unfolding(crate::specs::AssemblerWords::handler_words))]
fn push_handler_words(words: &mut Words, target: &TargetInfo) -> Mem<()>
    ensures { OnOk result (words.new ≡ words.old ++ spec.handler_words (info_seen target.now)) }
{
    if target.arch == "x86" {
        words.push("-safeseh")?;
    }
    Ok(())
}

// Whether debug information is wanted.
fn wants_debug(set: &BuildConfig, env: &BuildEnv) -> bool
    ensures { result ≡ spec.wants_debug set.now env.now }
{
    has_debug(or_variable(&set.debug, env, "DEBUG"))
}

/// The words of the assembler: which x86 it assembles for, the words behind its name in the environment, `-nologo`, by which it doesn't
/// print who made it, the folders of headers, debug information and macros in the form of its language, and what x86 wants. Only want of
/// memory refuses.
pub fn assembler_words(given: &Assembly<'_>, choice: &Choice) -> Mem<Words>
    ensures { IfOk result (λ words. words ≡ spec.assembler_words given.now.set.now given.now.env.now
        (info_seen given.now.target.now) choice.now) }
{
    let set = given.set;
    let path = choice.path.as_str();
    let debug = wants_debug(set, given.env);
    let definitions = set.definitions.as_slice();
    let mut words = Words::new(given.alloc);
    push_width_words(&mut words, given.target, path)?;
    words.extend(&choice.words)?;
    words.push("-nologo")?;
    push_include_words(&mut words, set.includes.as_slice())?;
    push_language_words(
        &mut words,
        given.alloc,
        given.target,
        path,
        debug,
        definitions,
    )?;
    push_handler_words(&mut words, given.target)?;
    Ok(words)
}

/// What the assembler of Visual Studio is called for a target: Microsoft's "ML and ML64 command-line reference" and
/// "ARM Assembler command-line reference". It takes no memory.
#[tactic(auto, unfolding(crate::specs::AssemblerWords::studio_assembler))]
pub fn studio_assembler(target: &TargetInfo) -> &'static str
    ensures { result.now ≡ spec.studio_assembler (info_seen target.now) }
{
    if target.arch == "x86_64" {
        "ml64.exe"
    } else if target.arch == "arm" {
        "armasm.exe"
    } else if target.arch == "aarch64" || target.arch == "arm64ec" {
        "armasm64.exe"
    } else {
        "ml.exe"
    }
}

/// Whether LLVM's assembler for MASM knows the architecture (LLVM's "llvm-ml - LLVM assembler for MASM"). It takes no
/// memory.
#[tactic(auto, unfolding(crate::specs::AssemblerWords::is_x86))]
pub fn is_x86(target: &TargetInfo) -> bool
    ensures { result ≡ spec.is_x86 (info_seen target.now) }
{
    target.arch == "x86" || target.arch == "x86_64"
}

/// Whether one of the sources is in a language of the Visual Studio assemblers. It takes no memory.
pub fn want_assembler(target: &TargetInfo, sources: &[Text]) -> bool
    ensures { result ≡ spec.want_assembler (info_seen target.now) sources.now }
{
    sources
        .iter()
        .any(|source| is_masm(target, source.as_str()))
}
