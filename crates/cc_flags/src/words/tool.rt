// The words of a tool: those that a target and a level bring, unless they are left out, and those of the settings. Each group adds its words
// last; only memory refuses.
ghost use Rattle.std.specs.Prelude.{◌≡◌, ◌++◌, IfOk, OnOk};
ghost use Rattle.std.specs.Option.{option_copied};
ghost use Rattle.cc_flags.specs.Compilation.{seen};
ghost use Rattle.cc_flags.specs.ToolWords as spec;

use crate::compilation::{Compilation, taken_flags};
use crate::given::{environment_flags, has_no_defaults};
use crate::inherited::push_taken;
use crate::supported::Supported;
use crate::words::defaults::{keeps_frames, push_wanted_defaults};
use crate::words::settings::{
    push_definition_words, push_environment_words, push_error_words, push_extra_warning_words,
    push_flag_asks, push_flag_words, push_include_words, push_standard_words, push_warning_words,
};
use crate::{
    Maps, lent, push_leaf_word, push_map_asks, push_pairs_words, remap_pairs, set_maps, taken_maps,
    taken_over,
};
use cc_text::{Mem, Words, is_visual_studio};

/// Which paths Cargo wants shown as others, where the build takes that over: Cargo's unstable `trim-paths` ("Unstable Features", "Profile
/// trim-paths option"). It takes no memory.
pub(crate) fn trimmed(given: &Compilation<'_>) -> Maps
    ensures { result ≡ spec.trimmed (seen given.now) }
{
    let inherits = given.set.inherit_trim_paths;
    taken_over(inherits, given.compiler.family, given.handed.maps)
}

/// Which paths the settings want shown as others. It takes no memory.
pub(crate) fn remapped(given: &Compilation<'_>) -> Maps
    ensures { result ≡ spec.remapped (seen given.now) }
{
    set_maps(given.compiler.family, &given.set.remap_source_paths)
}

// The folders that Cargo wants shown as others, so that no object names the machine that it was made on, as far as the compiler takes it:
// `-fmacro-prefix-map` of GCC's "Options Controlling the Preprocessor", `-fdebug-prefix-map` of its "Options for Debugging Your Program".
#[tactic(auto, unfolding(crate::specs::ToolWords::trim_words))]
fn push_trim_words(words: &mut Words, given: &Compilation<'_>, supported: &Supported) -> Mem<()>
    ensures { OnOk result (words.new ≡ words.old
        ++ spec.trim_words (seen given.now) supported.now) }
{
    let alloc = given.alloc;
    let family = given.compiler.family;
    let maps = taken_maps(alloc, family, supported.as_slice(), trimmed(given))?;
    push_pairs_words(words, alloc, family, maps, &given.handed.pairs)?;
    Ok(())
}

// The folders that the settings want shown as others, by the same flags.
#[tactic(auto, unfolding(crate::specs::ToolWords::remap_words))]
fn push_remap_words(words: &mut Words, given: &Compilation<'_>, supported: &Supported) -> Mem<()>
    ensures { OnOk result (words.new ≡ words.old
        ++ spec.remap_words (seen given.now) supported.now) }
{
    let alloc = given.alloc;
    let family = given.compiler.family;
    let maps = taken_maps(alloc, family, supported.as_slice(), remapped(given))?;
    let pairs = remap_pairs(alloc, &given.set.remap_source_paths)?;
    push_pairs_words(words, alloc, family, maps, &pairs)?;
    Ok(())
}

/// What the flags of Rust code that Cargo hands down want of a C compiler: code of both goes into one program, and has to fit (rustc's
/// "Codegen Options"). None where they aren't taken, or one is wrong. Only want of memory refuses.
#[tactic(auto, unfolding(crate::specs::Inherited::inherited_words))]
pub(crate) fn rust_words(given: &Compilation<'_>) -> Mem<Words>
    ensures { IfOk result (λ words. words ≡ spec.rust_words (seen given.now)) }
{
    match taken_flags(given) {
        Some(flags) => flags.wanted(given.alloc, given.compiler.family, given.target),
        None => Ok(Words::new(given.alloc)),
    }
}

// What is handed down: what the flags of Rust code want, and maps of paths, as far as the compiler takes them.
#[tactic(auto, unfolding(crate::specs::ToolWords::handed_words))]
fn push_handed_words(words: &mut Words, given: &Compilation<'_>, supported: &Supported) -> Mem<()>
    ensures { OnOk result (words.new ≡ words.old
        ++ spec.handed_words (seen given.now) supported.now) }
{
    let wanted = rust_words(given)?;
    push_taken(words, supported, wanted.as_slice())?;
    push_trim_words(words, given, supported)?;
    push_remap_words(words, given, supported)?;
    Ok(())
}

// The groups of the settings, in order, where the environment has these flags.
fn push_set_words(
    words: &mut Words,
    given: &Compilation<'_>,
    supported: &Supported,
    environment: Option<&Words>,
) -> Mem<()>
    ensures { OnOk result (words.new ≡ words.old
        ++ spec.set_words (seen given.now) supported.now (option_copied environment.entry)) }
{
    let set = given.set;
    let family = given.compiler.family;
    push_standard_words(words, family, lent(&set.std))?;
    push_include_words(words, set.includes.as_slice())?;
    push_error_words(words, family, set.warnings_into_errors)?;
    push_warning_words(words, family, set.warnings, environment)?;
    push_extra_warning_words(words, family, set.extra_warnings, environment)?;
    push_handed_words(words, given, supported)?;
    push_flag_words(words, family, supported, set.flags.as_slice())?;
    push_definition_words(words, given.alloc, set.definitions.as_slice())?;
    push_environment_words(words, family, environment)?;
    Ok(())
}

// The groups of the settings, in order.
#[tactic(auto, unfolding(crate::specs::ToolWords::setting_words))]
fn push_setting_words(words: &mut Words, given: &Compilation<'_>, supported: &Supported) -> Mem<()>
    ensures { OnOk result (words.new ≡ words.old
        ++ spec.setting_words (seen given.now) supported.now) }
{
    let environment = environment_flags(given.alloc, given.set, given.env)?;
    push_set_words(words, given, supported, environment.as_ref())?;
    Ok(())
}

// The word for leaves, where frame pointers are kept.
fn push_leaf_ask(words: &mut Words, given: &Compilation<'_>) -> Mem<()>
    ensures { OnOk result (words.new ≡ words.old ++ spec.leaf_ask (seen given.now)) }
{
    let has_defaults = !has_no_defaults(given.set, given.env);
    let keeps = keeps_frames(given);
    push_leaf_word(words, has_defaults && keeps)?;
    Ok(())
}

/// The words that a compiler is asked about, in order: those that not each release of it takes. Only want of memory refuses.
#[tactic(auto, unfolding(crate::specs::ToolWords::asked_words))]
pub fn asked_words(given: &Compilation<'_>) -> Mem<Words>
    ensures { IfOk result (λ words. words ≡ spec.asked_words (seen given.now)) }
{
    let alloc = given.alloc;
    let family = given.compiler.family;
    let mut words = Words::new(alloc);
    push_leaf_ask(&mut words, given)?;
    let inherited = rust_words(given)?;
    words.append(inherited)?;
    push_map_asks(&mut words, alloc, family, trimmed(given))?;
    push_map_asks(&mut words, alloc, family, remapped(given))?;
    push_flag_asks(&mut words, family, given.set.flags.as_slice())?;
    Ok(words)
}

/// The words of a tool, where `supported` are those that its compiler takes of the words it is asked about. Only want of memory refuses.
#[tactic(auto, unfolding(crate::specs::ToolWords::tool_words))]
pub fn tool_words(given: &Compilation<'_>, supported: &Supported) -> Mem<Words>
    ensures { IfOk result (λ words. words ≡ spec.tool_words (seen given.now) supported.now) }
{
    let mut words = Words::new(given.alloc);
    push_wanted_defaults(&mut words, given, supported)?;
    push_setting_words(&mut words, given, supported)?;
    Ok(words)
}

/// What a user is warned of, a line each: a C++ library is set, and the compiler has no flag for it, as Visual Studio, which has one such
/// library. Only want of memory refuses.
#[tactic(auto, unfolding(crate::specs::ToolWords::tool_warnings))]
pub fn tool_warnings(given: &Compilation<'_>) -> Mem<Words>
    ensures { IfOk result (λ warnings. warnings ≡ spec.tool_warnings (seen given.now)) }
{
    let set = given.set;
    let has_defaults = !has_no_defaults(set, given.env);
    let has_stdlib = set.cpp_set_stdlib.is_some();
    let mut warnings = Words::new(given.alloc);
    if has_defaults && is_visual_studio(given.compiler.family) && set.cpp && has_stdlib {
        warnings.push("cpp_set_stdlib is ignored by this compiler")?;
    }
    Ok(warnings)
}
