// Reads the settings that words ask for, and the database.
ghost use Rattle.std.specs.Prelude.{◌≡◌, ◌⊎◌, ◌≤◌, ◌<◌, ◌+◌, ◌^◌, ◌&&◌, None, Some, length, map, IfOk, IfErr, string_bytes};
ghost use Rattle.std.specs.Option.{option_copied};
ghost use Rattle.cc_build.specs.Build.{fresh_build};
ghost use Rattle.cc_command.specs.Read.{bad_at, bad_word, first_bad, is, database_in, database_of as database_asked};
ghost use Rattle.cc_command.specs.SetsKey.{SetsAmong, SetsWord, ReadsSettings};
ghost use Rattle.cc_command.specs.declared.words.ReadError.TheVariants.{Bad, NoMemory as WantsMemory};

use crate::reading::set_key;
use crate::words::{BadWord, ReadError, WordCause};
use cc_build::Build;
use cc_host::World;
use cc_text::{Mem, Text, key_and_value};
use std::alloc::Global;

fn is_database_key(key: &str) -> bool
    ensures { result ≡ is key.now "database" }
{
    key == "database"
}

// Whether the key asks for a database, where one may be asked for.
fn asks_database(key: &str, recorded: bool) -> bool
    ensures { result ≡ (recorded && is key.now "database") }
{
    recorded && is_database_key(key)
}

// Calls the setter of a key. That of a database has none.
#[tactic(auto, using(crate::proofs::KeyLaws::database_set, crate::proofs::KeyLaws::sets_among))]
fn set_among<W: World>(
    build: &mut Build<W>,
    key: &str,
    value: &str,
    recorded: bool,
) -> Mem<Option<WordCause>>
    ensures { IfOk result (SetsAmong recorded build.old build.new key.now value.now) }
{
    if asks_database(key, recorded) {
        Ok(None)
    } else {
        set_key(build, key, value)
    }
}

// Calls the setter of a word behind the name.
fn set_word<W: World>(build: &mut Build<W>, word: &str, recorded: bool) -> Mem<Option<WordCause>>
    ensures { IfOk result (SetsWord recorded build.old build.new word.now) }
{
    match key_and_value(word) {
        Some((key, value)) => set_among(build, key, value, recorded),
        None => Ok(Some(WordCause::NoValue)),
    }
}

pub(crate) fn bad(place: u64, cause: WordCause) -> ReadError
    ensures { result ≡ Bad (bad_at place cause) }
{
    ReadError::Bad(BadWord { place, cause })
}

/// Calls the setters of words, of which the first has this place, in their order, on a build that nothing was set of,
/// up to the first bad word. `recorded` says whether a database may be asked for.
pub(crate) fn fill_settings<W: World>(
    build: Build<W>,
    words: &[String],
    from: u64,
    recorded: bool,
) -> Result<Build<W>, ReadError>
    requires fresh { build ≡ fresh_build }
    requires fits { from + length words.now < 2 ^ 64 }
    ensures ok { IfOk result (ReadsSettings recorded from (map string_bytes words.now)) }
    ensures refused { IfErr result (λ e. (e ≡ WantsMemory)
        ⊎ (bad_word (first_bad recorded from (map string_bytes words.now)) ≡ Some e)) }
{
    let mut build = build;
    build.repeat_lines(true);
    for (place, word) in words.iter().enumerate() {
        if let Some(cause) = set_word(&mut build, word.as_str(), recorded)? {
            return Err(bad(place as u64 + from, cause));
        }
    }
    Ok(build)
}

/// The same of a build of its own.
pub(crate) fn read_settings<W: World>(
    alloc: Global,
    words: &[String],
    from: u64,
    recorded: bool,
) -> Result<Build<W>, ReadError>
    requires { from ≤ 2 }
    ensures ok { IfOk result (ReadsSettings recorded from (map string_bytes words.now)) }
    ensures refused { IfErr result (λ e. (e ≡ WantsMemory)
        ⊎ (bad_word (first_bad recorded from (map string_bytes words.now)) ≡ Some e)) }
{
    match Build::new(alloc) {
        Ok(build) => fill_settings(build, words, from, recorded),
        Err(_) => Err(ReadError::NoMemory),
    }
}

// The path of the database that a word asks for, if it does.
fn database_in(word: &str) -> Option<&str>
    ensures { option_copied result ≡ database_in word.now }
{
    match key_and_value(word) {
        Some((key, value)) => {
            if is_database_key(key) {
                Some(value)
            } else {
                None
            }
        }
        None => None,
    }
}

/// The path of the database that the last of the words with its key asks for, if there is one.
pub(crate) fn database_of(alloc: Global, words: &[String]) -> Mem<Option<Text>>
    ensures { IfOk result (λ path. path ≡ database_asked (map string_bytes words.now)) }
{
    let mut last = None;
    for word in words {
        if let Some(path) = database_in(word.as_str()) {
            last = Some(path);
        }
    }
    match last {
        Some(path) => Ok(Some(Text::of(alloc, path)?)),
        None => Ok(None),
    }
}
