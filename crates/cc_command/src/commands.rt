// Reads the words of the program.
ghost use Rattle.std.specs.Prelude.{◌≡◌, ◌⊎◌, [], ◌∷◌, Ok, Some, map, true, false, IfOk, IfErr, OnOk, string_bytes};
ghost use Rattle.cc_command.specs.Read.{bad_at, bad_word, IsJobOf, IsCountOf, taken, takes_name, is, is_command, read, read_named, read_count, read_argued, read_further, read_build, further, further_cause, wish_of, refusal_of};
ghost use Rattle.cc_command.specs.Read.Wish.{Expands, Shows};
ghost use Rattle.cc_command.specs.declared.words.ReadError.TheVariants.{Bad, NoMemory as WantsMemory};
ghost use Rattle.cc_command.specs.declared.words.WordCause.TheVariants.{UnknownCommand as NoSuchCommand};

use crate::reading::number_of;
use crate::settings::{bad, database_of, read_settings};
use crate::words::{Job, ReadError, Request, WordCause};
use cc_host::World;
use cc_text::{Mem, Text, key_and_value};
use std::alloc::Global;

// The job of a command for the library of a name.
fn job_of(alloc: Global, command: &str, name: &str) -> Result<Job, ReadError>
    ensures known { IfOk result (IsJobOf command.now name.now) }
    ensures refused { IfErr result (λ e. (e ≡ WantsMemory)
        ⊎ ((takes_name command.now ≡ false) × (e ≡ Bad (bad_at 0 NoSuchCommand)))) }
{
    match command {
        "compile" => Ok(Job::Compile(Text::of(alloc, name)?)),
        "archive" => Ok(Job::Archive(Text::of(alloc, name)?)),
        _ => Err(bad(0, WordCause::UnknownCommand)),
    }
}

// Whether the command compiles, so that a database may be asked for.
fn compiles(command: &str) -> bool
    ensures { result ≡ is command.now "compile" }
{
    command == "compile"
}

// Whether there is such a command.
fn is_command(command: &str) -> bool
    ensures { result ≡ is_command command.now }
{
    matches!(command, "compile" | "archive" | "generate")
}

// Reads the words behind a command and a name.
fn read_named<W: World>(
    alloc: Global,
    command: &str,
    name: &str,
    words: &[String],
) -> Result<Request<W>, ReadError>
    ensures ok { IfOk result (λ request. read_named command.now name.now
        (map string_bytes words.now) ≡ Ok (wish_of request.job request.database request.build)) }
    ensures repeats { IfOk result (λ request. request.build.config.repeat_lines ≡ true) }
    ensures refused { IfErr result (λ e. (e ≡ WantsMemory) ⊎ (refusal_of
        (read_named command.now name.now (map string_bytes words.now)) ≡ Some e)) }
{
    let job = job_of(alloc, command, name)?;
    let build = read_settings(alloc, words, 2, compiles(command))?;
    let database = database_of(alloc, words)?;
    Ok(Request {
        job,
        build,
        database,
        alloc,
    })
}

// A number that a large run takes.
fn taken(n: u32) -> Option<u32>
    ensures { result ≡ taken n }
{
    if 0 < n && n < 10001 { Some(n) } else { None }
}

// The number of a large run, where the text is the decimal form of one from 1 to 10000.
fn count_of(alloc: Global, text: &str) -> Mem<Option<u32>>
    ensures { IfOk result (IsCountOf text.now) }
{
    match number_of(alloc, text)? {
        Some(n) => Ok(taken(n)),
        None => Ok(None),
    }
}

// What is wrong with a word behind the number of a large run, which takes none.
fn further_cause(word: &str) -> WordCause
    ensures { result ≡ further_cause word.now }
{
    match key_and_value(word) {
        Some(_) => WordCause::UnknownKey,
        None => WordCause::NoValue,
    }
}

// Refuses the first word behind the number, if there is one.
fn check_further(words: &[String]) -> Result<(), ReadError>
    ensures fine { OnOk result (map string_bytes words.now ≡ []) }
    ensures refused { IfErr result
        (λ e. bad_word (further (map string_bytes words.now)) ≡ Some e) }
{
    match words {
        [] => Ok(()),
        [word, ..] => Err(bad(2, further_cause(word.as_str()))),
    }
}

// Reads the words behind `generate`: a number, and no other word.
fn read_count<W: World>(
    alloc: Global,
    number: &str,
    words: &[String],
) -> Result<Request<W>, ReadError>
    ensures ok { IfOk result (λ request. read_count number.now
        (map string_bytes words.now) ≡ Ok (wish_of request.job request.database request.build)) }
    ensures repeats { IfOk result (λ request. request.build.config.repeat_lines ≡ true) }
    ensures refused { IfErr result (λ e. (e ≡ WantsMemory) ⊎ (refusal_of
        (read_count number.now (map string_bytes words.now)) ≡ Some e)) }
{
    match count_of(alloc, number)? {
        Some(count) => {
            check_further(words)?;
            let build = read_settings(alloc, words, 2, false)?;
            Ok(Request {
                job: Job::Generate(count),
                build,
                database: None,
                alloc,
            })
        }
        None => Err(bad(1, WordCause::BadValue)),
    }
}

// The command takes a number.
fn takes_number(command: &str) -> bool
    ensures { result ≡ is command.now "generate" }
{
    command == "generate"
}

// Reads a command with the word behind it, and the words behind that.
fn read_argued<W: World>(
    alloc: Global,
    command: &str,
    name: &str,
    words: &[String],
) -> Result<Request<W>, ReadError>
    ensures ok { IfOk result (λ request. read_argued command.now name.now
        (map string_bytes words.now) ≡ Ok (wish_of request.job request.database request.build)) }
    ensures repeats { IfOk result (λ request. request.build.config.repeat_lines ≡ true) }
    ensures refused { IfErr result (λ e. (e ≡ WantsMemory) ⊎ (refusal_of
        (read_argued command.now name.now (map string_bytes words.now)) ≡ Some e)) }
{
    if takes_number(command) {
        read_count(alloc, name, words)
    } else {
        read_named(alloc, command, name, words)
    }
}

// Reads a command that takes a word behind it.
fn read_further<W: World>(
    alloc: Global,
    command: &str,
    words: &[String],
) -> Result<Request<W>, ReadError>
    ensures ok { IfOk result (λ request. read_further command.now
        (map string_bytes words.now) ≡ Ok (wish_of request.job request.database request.build)) }
    ensures repeats { IfOk result (λ request. request.build.config.repeat_lines ≡ true) }
    ensures refused { IfErr result (λ e. (e ≡ WantsMemory) ⊎ (refusal_of
        (read_further command.now (map string_bytes words.now)) ≡ Some e)) }
{
    match words {
        [] if is_command(command) => Err(bad(1, WordCause::NoName)),
        [] => Err(bad(0, WordCause::UnknownCommand)),
        [name, rest @ ..] => read_argued(alloc, command, name.as_str(), rest),
    }
}

// Reads the words behind `show`: settings, and no name.
fn read_shown<W: World>(alloc: Global, words: &[String]) -> Result<Request<W>, ReadError>
    ensures ok { IfOk result (λ request. read_build Shows
        (map string_bytes words.now) ≡ Ok (wish_of request.job request.database request.build)) }
    ensures repeats { IfOk result (λ request. request.build.config.repeat_lines ≡ true) }
    ensures refused { IfErr result (λ e. (e ≡ WantsMemory) ⊎ (refusal_of
        (read_build Shows (map string_bytes words.now)) ≡ Some e)) }
{
    let build = read_settings(alloc, words, 1, false)?;
    Ok(Request {
        job: Job::Show,
        build,
        database: None,
        alloc,
    })
}

// Reads the words behind `expand`, which are such as those behind `show`.
fn read_expanded<W: World>(alloc: Global, words: &[String]) -> Result<Request<W>, ReadError>
    ensures ok { IfOk result (λ request. read_build Expands
        (map string_bytes words.now) ≡ Ok (wish_of request.job request.database request.build)) }
    ensures repeats { IfOk result (λ request. request.build.config.repeat_lines ≡ true) }
    ensures refused { IfErr result (λ e. (e ≡ WantsMemory) ⊎ (refusal_of
        (read_build Expands (map string_bytes words.now)) ≡ Some e)) }
{
    let set = read_settings(alloc, words, 1, false)?;
    Ok(Request {
        job: Job::Expand,
        build: set,
        database: None,
        alloc,
    })
}

// The command shows tools.
fn shows_tools(command: &str) -> bool
    ensures { result ≡ is command.now "show" }
{
    command == "show"
}

// The command expands a source.
fn expands(command: &str) -> bool
    ensures { result ≡ is command.now "expand" }
{
    command == "expand"
}

// Reads a command with the words behind it.
fn read_command<W: World>(
    alloc: Global,
    command: &str,
    words: &[String],
) -> Result<Request<W>, ReadError>
    ensures ok { IfOk result (λ request. read (command.now ∷ map string_bytes words.now)
        ≡ Ok (wish_of request.job request.database request.build)) }
    ensures repeats { IfOk result (λ request. request.build.config.repeat_lines ≡ true) }
    ensures refused { IfErr result (λ e. (e ≡ WantsMemory) ⊎ (refusal_of
        (read (command.now ∷ map string_bytes words.now)) ≡ Some e)) }
{
    if shows_tools(command) {
        read_shown(alloc, words)
    } else if expands(command) {
        read_expanded(alloc, words)
    } else {
        read_further(alloc, command, words)
    }
}

/// Reads the words behind the program's own name: `compile NAME key=value ...` or `archive NAME key=value ...`, where a
/// word ends its key at its first `=`, `generate N`, or `expand` or `show` with `key=value ...`. A list setting takes
/// the values of its key in order, a single one the last; a large run takes a number from 1 to 10000 and no setting.
/// The key `database`, which `compile` alone takes, is the path of a compilation database. A fleet's words ask for
/// several builds, so that `fleet` is no command here.
///
/// Refused at the first bad word, with its place from 0 and the first cause that holds; and for memory. Nothing is left
/// then, and no host was asked anything.
pub fn read_words<W: World>(alloc: Global, words: &[String]) -> Result<Request<W>, ReadError>
    ensures ok { IfOk result
        (λ request. read (map string_bytes words.now)
        ≡ Ok (wish_of request.job request.database request.build)) }
    ensures repeats { IfOk result (λ request. request.build.config.repeat_lines ≡ true) }
    ensures refused { IfErr result
        (λ e. (e ≡ WantsMemory) ⊎ (refusal_of (read (map string_bytes words.now)) ≡ Some e)) }
{
    match words {
        [] => Err(bad(0, WordCause::NoCommand)),
        [command, rest @ ..] => read_command(alloc, command.as_str(), rest),
    }
}
