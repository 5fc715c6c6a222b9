// The words that settings bring, whatever the target, a function a group. Each group adds its words last; only memory refuses. What a flag
// means is told by GCC's manual in the section that stands at the group, by Clang's "Clang command line argument reference", and by
// Microsoft's page "MSVC compiler options".
ghost use Rattle.std.specs.Prelude.{◌≡◌, ◌++◌, ◌≤◌, [], ◌∷◌, length, OnOk, IfSome};
ghost use Rattle.std.specs.List.{position};
ghost use Rattle.std.specs.Option.{option_copied};
ghost use Rattle.cc_flags.specs.SettingWords as spec;

use crate::supported::Supported;
use crate::{BuildFlag, Definition};
use cc_text::{Mem, Text, ToolFamily, Words, is_gnu_like, is_visual_studio};
use std::alloc::Global;

fn standard_flag(family: ToolFamily) -> &'static str
    ensures { result.now ≡ spec.standard_flag family }
{
    if is_visual_studio(family) {
        "-std:"
    } else {
        "-std="
    }
}

// The standard of the language: GCC's "Options Controlling C Dialect", `-std=`; Microsoft's "/std (Specify Language Standard Version)".
#[tactic(auto, unfolding(crate::specs::SettingWords::standard_words))]
pub(crate) fn push_standard_words(
    words: &mut Words,
    family: ToolFamily,
    standard: Option<&str>,
) -> Mem<()>
    ensures { OnOk result (words.new ≡ words.old
        ++ spec.standard_words family (option_copied standard.entry)) }
{
    if let Some(standard) = standard {
        words.push_joined(standard_flag(family), standard)?;
    }
    Ok(())
}

// The folders of headers, in which a compiler looks in this order: `-I` of GCC's "Options for Directory Search" and of Microsoft's "/I
// (Additional include directories)". The folder is a word of its own, so that no path is taken for a flag.
#[tactic(auto, unfolding(crate::specs::SettingWords::include_words))]
pub(crate) fn push_include_words(words: &mut Words, folders: &[Text]) -> Mem<()>
    ensures { OnOk result (words.new ≡ words.old ++ spec.include_words folders.now) }
{
    for folder in folders {
        words.push("-I")?;
        words.push(folder.as_str())?;
    }
    Ok(())
}

// Warnings are errors: `-Werror` of GCC's "Options to Request or Suppress Warnings"; Microsoft's "/WX".
#[tactic(auto, unfolding(crate::specs::SettingWords::error_words))]
pub(crate) fn push_error_words(words: &mut Words, family: ToolFamily, into_errors: bool) -> Mem<()>
    ensures { OnOk result (words.new ≡ words.old ++ spec.error_words family into_errors) }
{
    if into_errors {
        if is_visual_studio(family) {
            words.push("-WX")?;
        } else {
            words.push("-Werror")?;
        }
    }
    Ok(())
}

// The usual warnings, where they are on, `-Wall`; none at all, where they are off, `-w`: GCC's "Options to Request or Suppress Warnings".
// For Visual Studio the levels 4 and 0 of Microsoft's compiler option that sets the warning level: its `/Wall` warns of its own headers.
#[tactic(auto, unfolding(crate::specs::SettingWords::warnings_word))]
fn push_warnings_word(words: &mut Words, family: ToolFamily, on: bool) -> Mem<()>
    ensures { OnOk result (words.new ≡ words.old ++ spec.warnings_word family on) }
{
    if on {
        if is_visual_studio(family) {
            words.push("-W4")?;
        } else {
            words.push("-Wall")?;
        }
    } else if is_visual_studio(family) {
        words.push("-W0")?;
    } else {
        words.push("-w")?;
    }
    Ok(())
}

// Warnings that aren't set are on, where the environment has no flags of its own, and else left to those.
#[tactic(auto, unfolding(crate::specs::SettingWords::warning_words))]
pub(crate) fn push_warning_words(
    words: &mut Words,
    family: ToolFamily,
    warnings: Option<bool>,
    environment: Option<&Words>,
) -> Mem<()>
    ensures { OnOk result (words.new ≡ words.old
        ++ spec.warning_words family warnings (option_copied environment.entry)) }
{
    match warnings {
        Some(on) => push_warnings_word(words, family, on)?,
        None => {
            if environment.is_none() {
                push_warnings_word(words, family, true)?;
            }
        }
    }
    Ok(())
}

// More warnings, `-Wextra` of GCC's "Options to Request or Suppress Warnings": where it isn't set, as above.
#[tactic(auto, unfolding(crate::specs::SettingWords::extra_warning_words))]
pub(crate) fn push_extra_warning_words(
    words: &mut Words,
    family: ToolFamily,
    extra: Option<bool>,
    environment: Option<&Words>,
) -> Mem<()>
    ensures { OnOk result (words.new ≡ words.old
        ++ spec.extra_warning_words family extra (option_copied environment.entry)) }
{
    if is_gnu_like(family) && extra.unwrap_or(environment.is_none()) {
        words.push("-Wextra")?;
    }
    Ok(())
}

/// What follows is for the linker: Microsoft's "/link (Pass Options to Linker)". No archive is linked, so it is left off.
pub fn is_link(text: &str) -> bool
    ensures { result ≡ spec.is_link text.now }
{
    text == "/link" || text == "-link"
}

/// Whether the flag is that word.
pub(crate) fn is_link_flag(flag: &BuildFlag) -> bool
    ensures { result ≡ spec.is_link_flag flag.now }
{
    match flag {
        BuildFlag::Always(text) => is_link(text.as_str()),
        BuildFlag::IfSupported(text) => is_link(text.as_str()),
    }
}

// A flag that is always given, or one that stands among the supported ones.
fn push_flag(words: &mut Words, supported: &Supported, flag: &BuildFlag) -> Mem<()>
    ensures { OnOk result (words.new ≡ words.old ++ spec.flag_word supported.now flag.now) }
{
    match flag {
        BuildFlag::Always(word) => words.push(word.as_str())?,
        BuildFlag::IfSupported(word) => {
            if supported.has(word.as_str()) {
                words.push(word.as_str())?;
            }
        }
    }
    Ok(())
}

// The place of the first flag that is for the linker.
fn link_flag_place(flags: &[BuildFlag]) -> Option<usize>
    ensures place { result ≡ position spec.is_link_flag flags.now }
    ensures within { IfSome result (λ place. place ≤ length flags.now) }
{
    flags.iter().position(|flag| is_link_flag(flag))
}

// The flags before those that are for the linker.
fn flags_before_link(flags: &[BuildFlag]) -> &[BuildFlag]
    ensures { result.now ≡ spec.before spec.is_link_flag flags.now }
{
    match link_flag_place(flags) {
        Some(place) => &flags[..place],
        None => flags,
    }
}

// The flags that the compiler is given: for Visual Studio those before what is for the linker.
#[tactic(auto, unfolding(crate::specs::SettingWords::compiler_flags))]
fn compiler_flags(family: ToolFamily, flags: &[BuildFlag]) -> &[BuildFlag]
    ensures { result.now ≡ spec.compiler_flags family flags.now }
{
    if is_visual_studio(family) {
        flags_before_link(flags)
    } else {
        flags
    }
}

// The flags that a user gave, behind the words that they may override: of two flags that contradict each other a compiler takes the last.
#[tactic(auto, unfolding(crate::specs::SettingWords::flag_words))]
pub(crate) fn push_flag_words(
    words: &mut Words,
    family: ToolFamily,
    supported: &Supported,
    flags: &[BuildFlag],
) -> Mem<()>
    ensures { OnOk result (words.new ≡ words.old
        ++ spec.flag_words family supported.now flags.now) }
{
    for flag in compiler_flags(family, flags) {
        push_flag(words, supported, flag)?;
    }
    Ok(())
}

fn push_flag_ask(words: &mut Words, flag: &BuildFlag) -> Mem<()>
    ensures { OnOk result (words.new ≡ words.old ++ spec.flag_ask flag.now) }
{
    match flag {
        BuildFlag::Always(_) => {}
        BuildFlag::IfSupported(word) => words.push(word.as_str())?,
    }
    Ok(())
}

// Adds the flags that a compiler is asked about.
#[tactic(auto, unfolding(crate::specs::SettingWords::flag_asks))]
pub(crate) fn push_flag_asks(words: &mut Words, family: ToolFamily, flags: &[BuildFlag]) -> Mem<()>
    ensures { OnOk result (words.new ≡ words.old ++ spec.flag_asks family flags.now) }
{
    for flag in compiler_flags(family, flags) {
        push_flag_ask(words, flag)?;
    }
    Ok(())
}

// `-D` and the name of the macro, with `=` and the value where it has one: GCC's "Options Controlling the Preprocessor"; Microsoft's "/D
// (Preprocessor Definitions)".
fn push_definition(words: &mut Words, alloc: Global, definition: &Definition) -> Mem<()>
    ensures { OnOk result (words.new ≡ words.old ++ spec.definition_word definition.now ∷ []) }
{
    let mut word = Text::of(alloc, "-D")?;
    word.push_str(definition.name.as_str())?;
    if let Some(value) = &definition.value {
        word.push_str("=")?;
        word.push_str(value.as_str())?;
    }
    words.push_text(word)?;
    Ok(())
}

// The macros, in the order added: a compiler takes the last of a name.
#[tactic(auto, unfolding(crate::specs::SettingWords::definition_words))]
pub(crate) fn push_definition_words(
    words: &mut Words,
    alloc: Global,
    definitions: &[Definition],
) -> Mem<()>
    ensures { OnOk result (words.new ≡ words.old ++ spec.definition_words definitions.now) }
{
    for definition in definitions {
        push_definition(words, alloc, definition)?;
    }
    Ok(())
}

// The place of the first word that is for the linker.
fn link_place(words: &[Text]) -> Option<usize>
    ensures place { result ≡ position spec.is_link words.now }
    ensures within { IfSome result (λ place. place ≤ length words.now) }
{
    words.iter().position(|word| is_link(word.as_str()))
}

// The words before those that are for the linker.
fn words_before_link(words: &[Text]) -> &[Text]
    ensures { result.now ≡ spec.before spec.is_link words.now }
{
    match link_place(words) {
        Some(place) => &words[..place],
        None => words,
    }
}

// Adds them.
fn push_before_link(words: &mut Words, list: &[Text]) -> Mem<()>
    ensures { OnOk result (words.new ≡ words.old ++ spec.before spec.is_link list.now) }
{
    for word in words_before_link(list) {
        words.push(word.as_str())?;
    }
    Ok(())
}

// The flags of the environment, last, so that who builds has the last word over who wrote the build: `CFLAGS` and its like by GNU make's
// manual, "Variables Used by Implicit Rules".
#[tactic(auto, unfolding(crate::specs::SettingWords::environment_words, crate::specs::SettingWords::compiler_words))]
pub(crate) fn push_environment_words(
    words: &mut Words,
    family: ToolFamily,
    environment: Option<&Words>,
) -> Mem<()>
    ensures { OnOk result (words.new ≡ words.old
        ++ spec.environment_words family (option_copied environment.entry)) }
{
    if let Some(environment) = environment {
        if is_visual_studio(family) {
            push_before_link(words, environment.as_slice())?;
        } else {
            words.extend(environment)?;
        }
    }
    Ok(())
}
