// The words that map the folders of sources to others, so that objects don't show where they were built: GCC's
// manual, "Options Controlling the Preprocessor", `-fmacro-prefix-map`, and "Options for Debugging Your Program",
// `-fdebug-prefix-map`; for `clang-cl` Clang Compiler User's Manual, "The /clang: Option". Older compilers lack
// them: GCC 8 and Clang 10 were the first to have both, so that each compiler is asked.
ghost use Rattle.std.specs.Prelude.{◌≡◌, ◌++◌, map, IfOk, OnOk};
ghost use Rattle.std.specs.List.{list_any};
ghost use Rattle.std.specs.Option.{option_copied};
ghost use Rattle.cc_text.specs.Words.{texts};
ghost use Rattle.cc_flags.specs.MapWords as spec;

use cc_env::EnvSnapshot;
use cc_text::{Mem, Text, ToolFamily, Vars, Words, is_among, is_cl, is_clang_cl, quoted};
use std::alloc::Global;

/// Which paths in objects are to be mapped to others.
#[derive(Clone, Copy, Debug)]
pub struct Maps {
    /// Those that macros give, as `__FILE__`.
    pub macros: bool,
    /// Those in debug information.
    pub debug: bool,
}

const NONE: Maps = Maps {
    macros: false,
    debug: false,
};

// The flag of Clang, or of Clang in the form of the Visual Studio compiler.
fn driver_word(alloc: Global, family: ToolFamily, flag: &str) -> Mem<Text>
    ensures { IfOk result (λ word. word ≡ spec.driver_word family flag.now) }
{
    let mut word = Text::new(alloc);
    if is_clang_cl(family) {
        word.push_str("/clang:")?;
    }
    word.push_str(flag)?;
    Ok(word)
}

/// The flag that maps paths in macros.
pub(crate) fn macro_map(alloc: Global, family: ToolFamily) -> Mem<Text>
    ensures { IfOk result (λ word. word ≡ spec.macro_map family) }
{
    driver_word(alloc, family, "-fmacro-prefix-map")
}

/// The flag that maps paths in debug information.
pub(crate) fn debug_map(alloc: Global, family: ToolFamily) -> Mem<Text>
    ensures { IfOk result (λ word. word ≡ spec.debug_map family) }
{
    driver_word(alloc, family, "-fdebug-prefix-map")
}

/// The map of a pair.
pub(crate) fn map_of(flag: Text, pair: &str) -> Mem<Text>
    ensures { IfOk result (λ word. word ≡ spec.map_of flag pair.now) }
{
    let mut word = flag;
    word.push('=')?;
    word.push_str(pair)?;
    Ok(word)
}

/// The word by which a compiler is asked whether it maps.
pub(crate) fn probe_of(flag: Text) -> Mem<Text>
    ensures { IfOk result (λ word. word ≡ spec.probe_of flag) }
{
    map_of(flag, "/probe=/probe")
}

// The maps of a pair.
#[tactic(auto, unfolding(crate::specs::MapWords::pair_words))]
fn push_pair_words(
    words: &mut Words,
    alloc: Global,
    family: ToolFamily,
    maps: Maps,
    pair: &str,
) -> Mem<()>
    ensures { OnOk result (words.new ≡ words.old ++ spec.pair_words family maps pair.now) }
{
    if maps.macros {
        words.push_text(map_of(macro_map(alloc, family)?, pair)?)?;
    }
    if maps.debug {
        words.push_text(map_of(debug_map(alloc, family)?, pair)?)?;
    }
    Ok(())
}

/// Adds for each pair `FROM=TO`, in order, the map of macros and that of debug information, as `maps` wants them
/// and as the family spells them: of a path that begins with `FROM`, that part is replaced by `TO`. Refused for
/// memory, `words` may hold a part of them.
#[tactic(auto, unfolding(crate::specs::MapWords::pairs_words))]
pub fn push_pairs_words(
    words: &mut Words,
    alloc: Global,
    family: ToolFamily,
    maps: Maps,
    pairs: &Words,
) -> Mem<()>
    ensures { OnOk result (words.new ≡ words.old ++ spec.pairs_words family maps pairs.now) }
{
    for pair in pairs.as_slice() {
        push_pair_words(words, alloc, family, maps, pair.as_str())?;
    }
    Ok(())
}

fn is_object_scope(scope: &str) -> bool
    ensures { result ≡ spec.is_object_scope scope.now }
{
    scope == "all" || scope == "object"
}

fn is_macro_scope(scope: &str) -> bool
    ensures { result ≡ spec.is_macro_scope scope.now }
{
    is_object_scope(scope) || scope == "macro"
}

// One of the scopes between commas has macros.
fn has_macro_scope(scopes: &str) -> bool
    ensures { result ≡ list_any spec.is_macro_scope (spec.scopes_of scopes.now) }
{
    scopes.split(',').any(|scope| is_macro_scope(scope))
}

// One of the scopes between commas has debug information.
fn has_object_scope(scopes: &str) -> bool
    ensures { result ≡ list_any spec.is_object_scope (spec.scopes_of scopes.now) }
{
    scopes.split(',').any(|scope| is_object_scope(scope))
}

// What these scopes want.
#[tactic(auto, unfolding(crate::specs::MapWords::scope_maps))]
fn scope_maps(scopes: &str) -> Maps
    ensures { result ≡ spec.scope_maps scopes.now }
{
    Maps {
        macros: has_macro_scope(scopes),
        debug: has_object_scope(scopes),
    }
}

/// What Cargo wants mapped: nothing unless it names scopes and pairs.
#[tactic(auto, unfolding(crate::specs::MapWords::trim_maps))]
pub(crate) fn trim_maps(scopes: Option<&str>, remap: Option<&str>) -> Maps
    ensures { result ≡ spec.trim_maps (option_copied scopes.entry) (option_copied remap.entry) }
{
    match scopes {
        Some(scopes) if remap.is_some() => scope_maps(scopes),
        _ => NONE,
    }
}

// The parts between colons.
fn colon_parts(alloc: Global, remap: &str) -> Mem<Vec<&str>>
    ensures { IfOk result (λ parts. texts parts.items ≡ spec.colon_parts remap.now) }
{
    let parts = remap.split(':').collect(alloc)?;
    Ok(parts)
}

/// The pairs `FROM=TO` that Cargo trims paths by, from the value of `CARGO_TRIM_PATHS_REMAP`: the parts between
/// colons, without empty ones. Only want of memory refuses; nothing is kept then.
#[tactic(auto, unfolding(crate::specs::MapWords::trim_pairs))]
pub fn trim_pairs(alloc: Global, remap: &str) -> Mem<Words>
    ensures { IfOk result (λ pairs. pairs ≡ spec.trim_pairs remap.now) }
{
    let mut pairs = Words::new(alloc);
    let parts = colon_parts(alloc, remap)?;
    for pair in &parts {
        if !pair.is_empty() {
            pairs.push(pair)?;
        }
    }
    Ok(pairs)
}

/// What Cargo wants mapped by its setting `trim-paths` (The Cargo Book, "Unstable Features", "Profile `trim-paths`
/// option"). Of the scopes between commas in `CARGO_TRIM_PATHS_SCOPE`, `macro` wants macros, and `object` and `all`
/// want both, since objects hold both. Nothing where that or `CARGO_TRIM_PATHS_REMAP` is unset. It takes no memory.
pub fn cargo_maps(env: &EnvSnapshot) -> Maps
    ensures { result ≡ spec.cargo_maps env.now }
{
    let scopes = env.get("CARGO_TRIM_PATHS_SCOPE");
    trim_maps(scopes, env.get("CARGO_TRIM_PATHS_REMAP"))
}

/// What a build takes over of what Cargo wants mapped: nothing where `inherits` is false, and for `cl.exe`, which has no
/// such flags. It takes no memory.
#[tactic(auto, unfolding(crate::specs::MapWords::taken_over))]
pub fn taken_over(inherits: bool, family: ToolFamily, maps: Maps) -> Maps
    ensures { result ≡ spec.taken_over inherits family maps }
{
    if inherits && !is_cl(family) {
        maps
    } else {
        NONE
    }
}

/// What the settings want mapped: macros and debug information, where there is a path to remap; nothing for
/// `cl.exe`, which has no such flags. It takes no memory.
#[tactic(auto, unfolding(crate::specs::MapWords::set_maps))]
pub fn set_maps(family: ToolFamily, remaps: &Vars) -> Maps
    ensures { result ≡ spec.set_maps family remaps.now }
{
    let wanted = !remaps.is_empty() && !is_cl(family);
    Maps {
        macros: wanted,
        debug: wanted,
    }
}

/// Adds the words by which a compiler is asked whether it has the flags that are wanted: each with the pair
/// `/probe=/probe`, so that one answer serves all pairs. Refused for memory, `words` may hold a part of them.
#[tactic(auto, unfolding(crate::specs::MapWords::map_asks))]
pub fn push_map_asks(words: &mut Words, alloc: Global, family: ToolFamily, maps: Maps) -> Mem<()>
    ensures { OnOk result (words.new ≡ words.old ++ spec.map_asks family maps) }
{
    if maps.macros {
        words.push_text(probe_of(macro_map(alloc, family)?)?)?;
    }
    if maps.debug {
        words.push_text(probe_of(debug_map(alloc, family)?)?)?;
    }
    Ok(())
}

/// What is wanted and whose word by `push_map_asks` stands among the `supported` ones. Only want of memory refuses;
/// nothing is kept then.
#[tactic(auto, unfolding(crate::specs::MapWords::taken_maps))]
pub fn taken_maps(alloc: Global, family: ToolFamily, supported: &[Text], maps: Maps) -> Mem<Maps>
    ensures { IfOk result (λ taken. taken ≡ spec.taken_maps family supported.now maps) }
{
    let macros = probe_of(macro_map(alloc, family)?)?;
    let debug = probe_of(debug_map(alloc, family)?)?;
    Ok(Maps {
        macros: maps.macros && is_among(supported, macros.as_str()),
        debug: maps.debug && is_among(supported, debug.as_str()),
    })
}

/// The pairs of paths that the settings remap, each as `FROM=TO`, in order. Only want of memory refuses; nothing is
/// kept then.
pub fn remap_pairs(alloc: Global, remaps: &Vars) -> Mem<Words>
    ensures { IfOk result (λ pairs. pairs ≡ map spec.remap_pair remaps.now) }
{
    let mut pairs = Words::new(alloc);
    for entry in remaps.as_slice() {
        pairs.push_text(map_of(Text::of(alloc, entry.0.as_str())?, entry.1.as_str())?)?;
    }
    Ok(pairs)
}

// Adds a warning where a flag is wanted, and isn't among the supported words.
fn push_lack(
    warnings: &mut Words,
    alloc: Global,
    path: &str,
    supported: &[Text],
    wanted: bool,
    flag: Text,
) -> Mem<()>
    ensures { OnOk result (warnings.new
        ≡ warnings.old ++ spec.lack_of path.now supported.now wanted flag) }
{
    let probe = probe_of(flag.try_clone()?)?;
    if wanted && !is_among(supported, probe.as_str()) {
        let mut text = flag;
        text.push_str(" is not supported by ")?;
        text.push_str(quoted(alloc, path)?.as_str())?;
        warnings.push_text(text)?;
    }
    Ok(())
}

/// Adds a warning of each flag that is wanted and isn't among the `supported` ones: its name,
/// ` is not supported by `, and the compiler's path in quotes. Refused for memory, `warnings` may hold a part of
/// them.
#[tactic(auto, unfolding(crate::specs::MapWords::map_lacks))]
pub fn push_map_lacks(
    warnings: &mut Words,
    alloc: Global,
    path: &str,
    family: ToolFamily,
    supported: &[Text],
    maps: Maps,
) -> Mem<()>
    ensures { OnOk result (warnings.new
        ≡ warnings.old ++ spec.map_lacks path.now family supported.now maps) }
{
    let macros = macro_map(alloc, family)?;
    push_lack(warnings, alloc, path, supported, maps.macros, macros)?;
    let debug = debug_map(alloc, family)?;
    push_lack(warnings, alloc, path, supported, maps.debug, debug)?;
    Ok(())
}
