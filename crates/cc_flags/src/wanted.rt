// The words of a C compiler that say what the rustflags say: GCC's manual, section by section below; "Clang command
// line argument reference"; Microsoft's page "MSVC Compiler Options".
ghost use Rattle.std.specs.Prelude.{◌≡◌, ◌++◌, IfOk, OnOk, flat_map, encode_utf8, string_bytes};
ghost use Rattle.std.specs.Fmt.{decimal};
ghost use Rattle.std.specs.Str.{chars};
ghost use Rattle.cc_text.specs.Words.{texts};
ghost use Rattle.cc_target.specs.Targets.{info_seen};
ghost use Rattle.cc_flags.specs.Wanted.{plus_for_comma, branch_protection_word, branch_protection_words, code_model_words, vector_words, relocation_word, relocation_words, frame_pointer_words, switched, red_zone_words, float_words, dwarf_words, stack_protector_word, stack_protector_words, feature_words, code_words, machine_words, embed_bitcode_words, plugin_words, is_checks, is_nochecks, clang_guard_word, clang_guard_words, clang_words, msvc_guard_word, msvc_guard_words, msvc_frame_pointer_words, msvc_words, wanted};

use crate::RustcCodegenFlags;
use crate::fields::{is_no, is_yes};
use cc_target::TargetInfo;
use cc_text::{Mem, Text, ToolFamily, Words, contains};
use std::alloc::Global;

fn plus_for_comma(c: char) -> char
    ensures { result ≡ plus_for_comma c }
{
    if c == ',' { '+' } else { c }
}

/// A text with each comma as a plus.
fn with_plus(alloc: Global, kinds: &str) -> Mem<Text>
    ensures { IfOk result (λ text. text
        ≡ flat_map (λ c. encode_utf8 (plus_for_comma c)) (chars kinds.now)) }
{
    let mut text = Text::new(alloc);
    for c in kinds.chars() {
        text.push(plus_for_comma(c))?;
    }
    Ok(text)
}

// "AArch64 Options" and "ARM Options": C compilers part the kinds by `+`, rustc by commas.
#[tactic(auto, unfolding(crate::specs::Wanted::branch_protection_word))]
fn push_branch_protection_word(words: &mut Words, alloc: Global, kinds: &str) -> Mem<()>
    ensures { OnOk result (words.new ≡ words.old ++ branch_protection_word kinds.now) }
{
    let value = with_plus(alloc, kinds)?;
    words.push_joined("-mbranch-protection=", value.as_str())?;
    Ok(())
}

#[tactic(auto, unfolding(crate::specs::Wanted::branch_protection_words))]
fn push_branch_protection_words(words: &mut Words, alloc: Global, kinds: &Option<Text>) -> Mem<()>
    ensures { OnOk result (words.new ≡ words.old ++ branch_protection_words kinds.now) }
{
    if let Some(kinds) = kinds {
        push_branch_protection_word(words, alloc, kinds.as_str())?;
    }
    Ok(())
}

#[tactic(auto, unfolding(crate::specs::Wanted::code_model_words))]
fn push_code_model_words(words: &mut Words, model: &Option<Text>) -> Mem<()>
    ensures { OnOk result (words.new ≡ words.old ++ code_model_words model.now) }
{
    if let Some(model) = model {
        words.push_joined("-mcmodel=", model.as_str())?;
    }
    Ok(())
}

// Clang's words. GCC is asked like any compiler, and doesn't take them.
#[tactic(auto, unfolding(crate::specs::Wanted::vector_words))]
fn push_vector_words(words: &mut Words, no_loops: bool, no_slp: bool) -> Mem<()>
    ensures { OnOk result (words.new ≡ words.old ++ vector_words no_loops no_slp) }
{
    words.push_chosen(&[
        (no_loops, &["-fno-vectorize"]),
        (no_slp, &["-fno-slp-vectorize"]),
    ])?;
    Ok(())
}

// "Options for Code Generation Conventions". Other models have no word.
#[tactic(auto, unfolding(crate::specs::Wanted::relocation_word))]
fn relocation_word(model: &str) -> &'static [&'static str]
    ensures { texts result.now ≡ relocation_word model.now }
{
    match model {
        "pic" => &["-fPIC"],
        "pie" => &["-fPIE"],
        "dynamic-no-pic" => &["-mdynamic-no-pic"],
        _ => &[],
    }
}

#[tactic(auto, unfolding(crate::specs::Wanted::relocation_words))]
fn push_relocation_words(words: &mut Words, model: &Option<Text>) -> Mem<()>
    ensures { OnOk result (words.new ≡ words.old ++ relocation_words model.now) }
{
    if let Some(model) = model {
        words.push_all(relocation_word(model.as_str()))?;
    }
    Ok(())
}

// "Options That Control Optimization" and "x86 Options". Where the flag says no, the choice is the compiler's.
#[tactic(auto, unfolding(crate::specs::Wanted::frame_pointer_words))]
fn push_frame_pointer_words(words: &mut Words, force: Option<bool>) -> Mem<()>
    ensures { OnOk result (words.new ≡ words.old ++ frame_pointer_words force) }
{
    if force.unwrap_or(false) {
        words.push_all(&["-fno-omit-frame-pointer", "-mno-omit-leaf-frame-pointer"])?;
    }
    Ok(())
}

/// Adds a word for yes, another for no, and none where nothing is said.
fn push_switch(words: &mut Words, on_word: &str, off_word: &str, value: Option<bool>) -> Mem<()>
    ensures { OnOk result (words.new ≡ words.old ++ switched on_word.now off_word.now value) }
{
    if let Some(on) = value {
        words.push(if on { on_word } else { off_word })?;
    }
    Ok(())
}

// "x86 Options".
#[tactic(auto, unfolding(crate::specs::Wanted::red_zone_words))]
fn push_red_zone_words(words: &mut Words, no_redzone: Option<bool>) -> Mem<()>
    ensures { OnOk result (words.new ≡ words.old ++ red_zone_words no_redzone) }
{
    push_switch(words, "-mno-red-zone", "-mred-zone", no_redzone)?;
    Ok(())
}

// Not `-mno-soft-float`, which is another flag to Clang.
#[tactic(auto, unfolding(crate::specs::Wanted::float_words))]
fn push_float_words(words: &mut Words, soft: Option<bool>) -> Mem<()>
    ensures { OnOk result (words.new ≡ words.old ++ float_words soft) }
{
    push_switch(words, "-msoft-float", "-mhard-float", soft)?;
    Ok(())
}

fn number(alloc: Global, n: u32) -> Mem<String>
    ensures { IfOk result (λ s. string_bytes s ≡ decimal n) }
{
    Ok(format!(in alloc; "{n}")?)
}

// "Options for Debugging Your Program".
#[tactic(auto, unfolding(crate::specs::Wanted::dwarf_words))]
fn push_dwarf_words(words: &mut Words, alloc: Global, version: Option<u32>) -> Mem<()>
    ensures { OnOk result (words.new ≡ words.old ++ dwarf_words version) }
{
    if let Some(version) = version {
        let digits = number(alloc, version)?;
        words.push_joined("-gdwarf-", digits.as_str())?;
    }
    Ok(())
}

// "Program Instrumentation Options". `none` isn't handed on, since it would leave C code with fewer guards, nor
// `basic`, which rustc gives up. Visual Studio's compilers guard by themselves ("/GS (Buffer Security Check)").
#[tactic(auto, unfolding(crate::specs::Wanted::stack_protector_word))]
fn stack_protector_word(strength: &str) -> &'static [&'static str]
    ensures { texts result.now ≡ stack_protector_word strength.now }
{
    match strength {
        "strong" => &["-fstack-protector-strong"],
        "all" => &["-fstack-protector-all"],
        _ => &[],
    }
}

#[tactic(auto, unfolding(crate::specs::Wanted::stack_protector_words))]
fn push_stack_protector_words(words: &mut Words, strength: &Option<Text>) -> Mem<()>
    ensures { OnOk result (words.new ≡ words.old ++ stack_protector_words strength.now) }
{
    if let Some(strength) = strength {
        words.push_all(stack_protector_word(strength.as_str()))?;
    }
    Ok(())
}

// In the order of the flags, so that a later feature can take back an earlier one.
#[tactic(auto, unfolding(crate::specs::Wanted::feature_words))]
fn push_feature_words(words: &mut Words, alloc: Global, arch: &str, features: &Words) -> Mem<()>
    ensures { OnOk result (words.new ≡ words.old ++ feature_words arch.now features.now) }
{
    for feature in features.as_slice() {
        let word = RustcCodegenFlags::target_feature_cc_flag(alloc, arch, feature.as_str())?;
        if let Some(word) = word {
            words.push_text(word)?;
        }
    }
    Ok(())
}

/// Adds what GCC and Clang take of the code's form.
#[tactic(auto, unfolding(crate::specs::Wanted::code_words))]
fn push_code_words(words: &mut Words, alloc: Global, flags: &RustcCodegenFlags) -> Mem<()>
    ensures { OnOk result (words.new ≡ words.old ++ code_words flags.now) }
{
    push_branch_protection_words(words, alloc, &flags.branch_protection)?;
    push_code_model_words(words, &flags.code_model)?;
    push_vector_words(words, flags.no_vectorize_loops, flags.no_vectorize_slp)?;
    push_relocation_words(words, &flags.relocation_model)?;
    push_frame_pointer_words(words, flags.force_frame_pointers)?;
    Ok(())
}

/// Adds what GCC and Clang take of the machine.
#[tactic(auto, unfolding(crate::specs::Wanted::machine_words))]
fn push_machine_words(
    words: &mut Words,
    alloc: Global,
    flags: &RustcCodegenFlags,
    target: &TargetInfo,
) -> Mem<()>
    ensures { OnOk result (words.new ≡ words.old ++ machine_words flags.now (info_seen target.now)) }
{
    push_red_zone_words(words, flags.no_redzone)?;
    push_float_words(words, flags.soft_float)?;
    push_dwarf_words(words, alloc, flags.dwarf_version)?;
    push_stack_protector_words(words, &flags.stack_protector)?;
    push_feature_words(words, alloc, target.arch, &flags.target_features)?;
    Ok(())
}

#[tactic(auto, unfolding(crate::specs::Wanted::embed_bitcode_words))]
fn push_embed_bitcode_words(words: &mut Words, embed: Option<bool>) -> Mem<()>
    ensures { OnOk result (words.new ≡ words.old ++ embed_bitcode_words embed) }
{
    push_switch(words, "-fembed-bitcode=all", "-fembed-bitcode=off", embed)?;
    Ok(())
}

// Thin, as the plugin of LLVM's linkers optimises so and needs what only thin objects hold (rustc's book,
// "Linker-plugin-based LTO").
#[tactic(auto, unfolding(crate::specs::Wanted::plugin_words))]
fn push_plugin_words(words: &mut Words, plugin: Option<bool>) -> Mem<()>
    ensures { OnOk result (words.new ≡ words.old ++ plugin_words plugin) }
{
    words.push_chosen(&[(plugin.unwrap_or(false), &["-flto=thin"])])?;
    Ok(())
}

#[tactic(auto, unfolding(crate::specs::Wanted::is_checks))]
fn is_checks(value: &str) -> bool
    ensures { result ≡ is_checks value.now }
{
    is_yes(value) || value == "checks"
}

#[tactic(auto, unfolding(crate::specs::Wanted::is_nochecks))]
fn is_nochecks(value: &str) -> bool
    ensures { result ≡ is_nochecks value.now }
{
    value == "nochecks"
}

// Of the compilers Clang alone makes the tables of the guard without its checks (`nochecks`).
#[tactic(auto, unfolding(crate::specs::Wanted::clang_guard_word))]
fn clang_guard_word(value: &str) -> &'static [&'static str]
    ensures { texts result.now ≡ clang_guard_word value.now }
{
    if is_checks(value) {
        &["-mguard=cf"]
    } else if is_nochecks(value) {
        &["-mguard=cf-nochecks"]
    } else if is_no(value) {
        &["-mguard=none"]
    } else {
        &[]
    }
}

#[tactic(auto, unfolding(crate::specs::Wanted::clang_guard_words))]
fn push_clang_guard_words(words: &mut Words, guard: &Option<Text>) -> Mem<()>
    ensures { OnOk result (words.new ≡ words.old ++ clang_guard_words guard.now) }
{
    if let Some(value) = guard {
        words.push_all(clang_guard_word(value.as_str()))?;
    }
    Ok(())
}

/// Adds what Clang takes alone.
#[tactic(auto, unfolding(crate::specs::Wanted::clang_words))]
fn push_clang_words(words: &mut Words, flags: &RustcCodegenFlags) -> Mem<()>
    ensures { OnOk result (words.new ≡ words.old ++ clang_words flags.now) }
{
    push_embed_bitcode_words(words, flags.embed_bitcode)?;
    push_plugin_words(words, flags.linker_plugin_lto)?;
    push_clang_guard_words(words, &flags.control_flow_guard)?;
    Ok(())
}

// "/guard (Enable Control Flow Guard)", which has nothing for `nochecks`.
#[tactic(auto, unfolding(crate::specs::Wanted::msvc_guard_word))]
fn msvc_guard_word(value: &str) -> &'static [&'static str]
    ensures { texts result.now ≡ msvc_guard_word value.now }
{
    if is_checks(value) {
        &["/guard:cf"]
    } else if is_no(value) {
        &["/guard:cf-"]
    } else {
        &[]
    }
}

#[tactic(auto, unfolding(crate::specs::Wanted::msvc_guard_words))]
fn push_msvc_guard_words(words: &mut Words, guard: &Option<Text>) -> Mem<()>
    ensures { OnOk result (words.new ≡ words.old ++ msvc_guard_words guard.now) }
{
    if let Some(value) = guard {
        words.push_all(msvc_guard_word(value.as_str()))?;
    }
    Ok(())
}

// "/Oy (Frame-Pointer Omission)", which is there for 32 bits alone.
#[tactic(auto, unfolding(crate::specs::Wanted::msvc_frame_pointer_words))]
fn push_msvc_frame_pointer_words(words: &mut Words, arch: &str, force: Option<bool>) -> Mem<()>
    ensures { OnOk result (words.new ≡ words.old ++ msvc_frame_pointer_words arch.now force) }
{
    if !contains(arch, "64") {
        push_switch(words, "/Oy-", "/Oy", force)?;
    }
    Ok(())
}

/// Adds what the Visual Studio compiler takes.
#[tactic(auto, unfolding(crate::specs::Wanted::msvc_words))]
fn push_msvc_words(words: &mut Words, flags: &RustcCodegenFlags, target: &TargetInfo) -> Mem<()>
    ensures { OnOk result (words.new ≡ words.old ++ msvc_words flags.now (info_seen target.now)) }
{
    push_msvc_guard_words(words, &flags.control_flow_guard)?;
    push_msvc_frame_pointer_words(words, target.arch, flags.force_frame_pointers)?;
    Ok(())
}

impl RustcCodegenFlags {
    /// The words that say to a C compiler of the family what these flags say, in a fixed order. Code models are
    /// handed on as they are; of other values, one that C compilers have no word for gives none. A compiler that
    /// lacks a word is found out by asking it, which `cc_plan` does.
    ///
    /// The processor, the kind of LTO and profiles are not handed on: processors are named otherwise, and profiles
    /// are bound to one version of LLVM, so that objects of another one crash. Only want of memory refuses; nothing
    /// is kept then.
    pub fn wanted(&self, alloc: Global, family: ToolFamily, target: &TargetInfo) -> Mem<Words>
        ensures { IfOk result (λ words. words ≡ wanted self.now family (info_seen target.now)) }
    {
        let mut words = Words::new(alloc);
        match family {
            ToolFamily::Gnu => {
                push_code_words(&mut words, alloc, self)?;
                push_machine_words(&mut words, alloc, self, target)?;
            }
            ToolFamily::Clang { .. } => {
                push_code_words(&mut words, alloc, self)?;
                push_machine_words(&mut words, alloc, self, target)?;
                push_clang_words(&mut words, self)?;
            }
            ToolFamily::Msvc { .. } => push_msvc_words(&mut words, self, target)?,
        }
        Ok(words)
    }
}
