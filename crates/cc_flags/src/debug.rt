// The words for debug information and for frame pointers. How much is wanted is said as in Cargo's profiles (The
// Cargo Book, "Profiles", `debug`); words are those of GCC's manual, "Options for Debugging Your Program" and
// "Options That Control Optimization", and of Microsoft's page "/Z7, /Zi, /ZI (Debug Information Format)".
ghost use Rattle.std.specs.Prelude.{◌≡◌, ◌++◌, OnOk};
ghost use Rattle.std.specs.Option.{option_copied};
ghost use Rattle.cc_target.specs.Targets.{info_seen};
ghost use Rattle.cc_text.specs.Words.{when};
ghost use Rattle.cc_flags.specs.DebugWords as spec;

use cc_target::TargetInfo;
use cc_text::{Mem, ToolFamily, Words, is_clang, is_gnu_like, is_visual_studio};

// The text asks for debug information.
#[tactic(auto, unfolding(crate::specs::DebugWords::asks_for_debug))]
fn asks_for_debug(text: &str) -> bool
    ensures { result ≡ spec.asks_for_debug text.now }
{
    !(text == "" || text == "0" || text == "false" || text == "none")
}

/// Whether debug information is wanted, by how much of it is: a text that is set and none of the empty text, `0`, `false` and `none`. It
/// takes no memory.
pub fn has_debug(debug: Option<&str>) -> bool
    ensures { result ≡ spec.has_debug (option_copied debug.entry) }
{
    match debug {
        None => false,
        Some(text) => asks_for_debug(text),
    }
}

// Line tables alone are wanted.
#[tactic(auto, unfolding(crate::specs::DebugWords::is_limited))]
fn is_limited(text: &str) -> bool
    ensures { result ≡ spec.is_limited text.now }
{
    text == "1" || text == "limited" || text == "line-tables-only" || text == "line-directives-only"
}

// How much debug information is wanted.
#[tactic(auto, unfolding(crate::specs::DebugWords::level_word))]
fn push_level_word(words: &mut Words, family: ToolFamily, text: &str) -> Mem<()>
    ensures { OnOk result (words.new ≡ words.old ++ spec.level_word family text.now) }
{
    if text == "line-directives-only" && is_clang(family) {
        words.push("-gline-directives-only")?;
    } else if is_limited(text) {
        words.push("-g1")?;
    } else {
        words.push("-g")?;
    }
    Ok(())
}

// Systems on which rustc writes version 2 of DWARF.
#[tactic(auto, unfolding(crate::specs::DebugWords::reads_dwarf_2))]
fn reads_dwarf_2(target: &TargetInfo) -> bool
    ensures { result ≡ spec.reads_dwarf_2 (info_seen target.now) }
{
    target.os == "android"
        || target.os == "dragonfly"
        || target.os == "freebsd"
        || target.os == "netbsd"
        || target.os == "openbsd"
        || (target.os == "windows" && target.env == "gnu")
}

// The version of DWARF.
#[tactic(auto, unfolding(crate::specs::DebugWords::dwarf_word))]
fn push_dwarf_word(words: &mut Words, target: &TargetInfo) -> Mem<()>
    ensures { OnOk result (words.new ≡ words.old ++ spec.dwarf_word (info_seen target.now)) }
{
    if reads_dwarf_2(target) {
        words.push("-gdwarf-2")?;
    } else if target.os == "linux" {
        words.push("-gdwarf-4")?;
    }
    Ok(())
}

// The words of a text that asks for debug information.
#[tactic(auto, unfolding(crate::specs::DebugWords::wanted_debug_words))]
fn push_wanted_debug_words(
    words: &mut Words,
    family: ToolFamily,
    target: &TargetInfo,
    text: &str,
) -> Mem<()>
    ensures { OnOk result (words.new
        ≡ words.old ++ spec.wanted_debug_words family (info_seen target.now) text.now) }
{
    if is_visual_studio(family) {
        words.push("-Z7")?;
    } else {
        push_level_word(words, family, text)?;
        push_dwarf_word(words, target)?;
    }
    Ok(())
}

/// Adds the words for debug information, where `debug` asks for it: any text does but the empty one, `0`, `false`
/// and `none`. `-Z7` for Visual Studio's compilers, so that it stays in the objects. Else `-g1` where line tables
/// are enough, `-gline-directives-only` where Clang is asked for those, `-g` for all other texts, as too much does
/// less harm than too little; and then, on Linux, Android, BSDs and MinGW, the version of DWARF that rustc has
/// there. Refused for memory, `words` may hold a part of them.
#[tactic(auto, unfolding(crate::specs::DebugWords::debug_words))]
pub fn push_debug_words(
    words: &mut Words,
    family: ToolFamily,
    target: &TargetInfo,
    debug: Option<&str>,
) -> Mem<()>
    ensures { OnOk result (words.new
        ≡ words.old ++ spec.debug_words family (info_seen target.now) (option_copied debug.entry)) }
{
    if let Some(text) = debug {
        if asks_for_debug(text) {
            push_wanted_debug_words(words, family, target, text)?;
        }
    }
    Ok(())
}

/// Whether GCC or Clang is to keep frame pointers: as `force` says, else where `debug` asks for debug information,
/// so that whoever reads it can also walk the stack. False for Visual Studio's compilers. It takes no memory.
#[tactic(auto, unfolding(crate::specs::DebugWords::keeps_frame_pointers))]
pub fn keeps_frame_pointers(family: ToolFamily, force: Option<bool>, debug: Option<&str>) -> bool
    ensures { result ≡ spec.keeps_frame_pointers family force (option_copied debug.entry) }
{
    is_gnu_like(family) && force.unwrap_or(has_debug(debug))
}

/// Adds `-mno-omit-leaf-frame-pointer`, which keeps frame pointers also in functions that call no other, where it
/// is `wanted` (GCC's manual, "x86 Options"). Not every target of GCC has the flag, so that the compiler is asked
/// about it first. Refused for memory, `words` may hold a part of them.
pub fn push_leaf_word(words: &mut Words, wanted: bool) -> Mem<()>
    ensures { OnOk result (words.new ≡ words.old ++ when wanted spec.leaf_word) }
{
    if wanted {
        words.push("-mno-omit-leaf-frame-pointer")?;
    }
    Ok(())
}

// The words that keep frame pointers.
#[tactic(auto, unfolding(crate::specs::DebugWords::kept_words))]
fn push_kept_words(words: &mut Words, takes_leaf: bool) -> Mem<()>
    ensures { OnOk result (words.new ≡ words.old ++ spec.kept_words takes_leaf) }
{
    words.push("-fno-omit-frame-pointer")?;
    push_leaf_word(words, takes_leaf)?;
    Ok(())
}

/// Adds the words that keep frame pointers, where `keeps_frame_pointers` holds: `-fno-omit-frame-pointer`, and the
/// word for leaves where the compiler takes it (`takes_leaf`). Refused for memory, `words` may hold a part of them.
#[tactic(auto, unfolding(crate::specs::DebugWords::frame_pointer_words))]
pub fn push_frame_pointer_words(
    words: &mut Words,
    family: ToolFamily,
    force: Option<bool>,
    debug: Option<&str>,
    takes_leaf: bool,
) -> Mem<()>
    ensures { OnOk result (words.new
        ≡ words.old ++ spec.frame_pointer_words family force (option_copied debug.entry) takes_leaf) }
{
    if keeps_frame_pointers(family, force, debug) {
        push_kept_words(words, takes_leaf)?;
    }
    Ok(())
}
