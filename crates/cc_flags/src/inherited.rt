// The flags of Rust code that Cargo hands down.
ghost use Rattle.std.specs.Prelude.{◌≡◌, ◌++◌, IfOk, OnOk};
ghost use Rattle.cc_flags.specs.Inherited as spec;

use crate::supported::Supported;
use crate::{FlagError, Maps, RustcCodegenFlags, cargo_maps, trim_pairs, value_or_empty};
use cc_env::EnvSnapshot;
use cc_text::{Mem, NoMemory, Text, Words, quoted};
use std::alloc::Global;

/// The flags of Rust code that Cargo hands down, as they are read once a run, whether or not they are
/// taken.
#[derive(Drop, Debug)]
pub struct Rustflags {
    /// The flags: none where none is set, or one is wrong.
    pub flags: Option<RustcCodegenFlags>,
    /// What is wrong with them, where one is.
    pub wrong: Option<FlagError>,
}

/// Reads the flags from `CARGO_ENCODED_RUSTFLAGS`: Cargo's book says in "Environment variables",
/// "Environment variables Cargo sets for build scripts", that a build script finds them there, with a
/// byte 0x1f between each two. Want of memory refuses.
#[tactic(auto, unfolding(crate::specs::Inherited::inherited_flags))]
fn read_rustflags(alloc: Global, env: &EnvSnapshot) -> Mem<Rustflags>
    ensures { IfOk result (λ flags. flags ≡ spec.rustflags env.now) }
{
    match env.get("CARGO_ENCODED_RUSTFLAGS") {
        None => Ok(Rustflags {
            flags: None,
            wrong: None,
        }),
        Some(text) => match RustcCodegenFlags::parse(alloc, text) {
            Ok(flags) => Ok(Rustflags {
                flags: Some(flags),
                wrong: None,
            }),
            Err(FlagError::InvalidFlag(flag)) => Ok(Rustflags {
                flags: None,
                wrong: Some(FlagError::InvalidFlag(flag)),
            }),
            Err(FlagError::NoMemory) => Err(NoMemory),
        },
    }
}

/// What Cargo hands down, as it is read once a run, whether or not it is taken: flags of Rust code, and
/// paths that are shown as others.
#[derive(Drop, Debug)]
pub struct Handed {
    /// The flags.
    pub rustflags: Rustflags,
    /// Where paths are shown as others.
    pub maps: Maps,
    /// The paths, each as `FROM=TO`.
    pub pairs: Words,
}

/// Reads them from the environment. Want of memory refuses.
pub fn read_handed(alloc: Global, env: &EnvSnapshot) -> Mem<Handed>
    ensures { IfOk result (λ handed. handed ≡ spec.handed env.now) }
{
    let rustflags = read_rustflags(alloc, env)?;
    let pairs = trim_pairs(alloc, value_or_empty(env, "CARGO_TRIM_PATHS_REMAP"))?;
    Ok(Handed {
        rustflags,
        maps: cargo_maps(env),
        pairs,
    })
}

/// Adds those of some words that the compiler takes: a compiler older than rustc may not know a flag that says the same. Refused for
/// memory.
pub(crate) fn push_taken(words: &mut Words, supported: &Supported, wanted: &[Text]) -> Mem<()>
    ensures { OnOk result (words.new ≡ words.old ++ spec.taken_words supported.now wanted.now) }
{
    for word in wanted {
        if supported.has(word.as_str()) {
            words.push(word.as_str())?;
        }
    }
    Ok(())
}

// The warning of a word that the compiler doesn't take.
fn lost_word(alloc: Global, word: &str) -> Mem<Text>
    ensures { IfOk result (λ text. text ≡ spec.lost_word word.now) }
{
    let mut text = Text::of(alloc, "Inherited flag ")?;
    text.push_str(quoted(alloc, word)?.as_str())?;
    text.push_str(" is not supported by the currently used CC")?;
    Ok(text)
}

/// Adds a warning of each that it doesn't take. Refused for memory.
pub(crate) fn push_lost(
    warnings: &mut Words,
    alloc: Global,
    supported: &Supported,
    wanted: &[Text],
) -> Mem<()>
    ensures { OnOk result (warnings.new ≡ warnings.old
        ++ spec.lost_words supported.now wanted.now) }
{
    for word in wanted {
        if !supported.has(word.as_str()) {
            warnings.push_text(lost_word(alloc, word.as_str())?)?;
        }
    }
    Ok(())
}
