// What becomes of the commands of a host in memory.
ghost use Rattle.std.specs.Prelude.{◌≡◌, [], drop, slice_get, map, IfOk, if◌then◌else◌};
ghost use Rattle.std.specs.List.{concat};
ghost use Rattle.std.specs.Option.{option_copied, unwrap_or};
ghost use Rattle.cc_host.specs.Script.{same_role, has_word, cmd_has, fits, script_for, script_at, status_of, pieces_of, out_of, err_of, awaits, met_after, starts_awaited, was_met};

use crate::{Command, Event, Role, Status};
use cc_text::{Bytes, Mem, Text, Words};
use std::alloc::Global;

/// What becomes of a command. A child gives its pieces on its standard error, one a turn, and then, where `unread` is set, that
/// this failed to be read. It ends at the first turn from its `turns`-th on at which all of that is out and, where `after` is set, a
/// command with that word was started.
#[derive(Drop, Debug)]
pub struct Script {
    /// How it ends.
    pub status: Status,
    /// What it writes on its standard error, piece by piece.
    pub pieces: Vec<Bytes>,
    /// Whether its standard error fails to be read after the pieces.
    pub unread: bool,
    /// At which turn it ends at the earliest, from 1.
    pub turns: u64,
    /// A word of the command that it waits for.
    pub after: Option<Text>,
}

/// A script, with the role and the word of the commands that it is of, and whether the command that it waits for was started.
#[derive(Drop, Debug)]
pub struct Scripted {
    pub role: Role,
    pub word: Text,
    pub script: Script,
    pub met: bool,
}

fn is_same_role(a: Role, b: Role) -> bool
    ensures { result ≡ same_role a b }
{
    a == b
}

/// Whether a word is among these.
pub fn has_word(words: &Words, word: &str) -> bool
    ensures { result ≡ has_word word.now words.now }
{
    words.as_slice().iter().any(|w| w.as_str() == word)
}

// Whether a command has the word, as its program or among its words.
fn cmd_has(cmd: &Command, word: &str) -> bool
    ensures { result ≡ cmd_has word.now cmd.now }
{
    cmd.get_program() == word || has_word(cmd.get_args(), word)
}

// Whether a script is of a command.
fn fits(script: &Scripted, role: Role, cmd: &Command) -> bool
    ensures { result ≡ fits role cmd.now script.now }
{
    is_same_role(script.role, role) && cmd_has(cmd, script.word.as_str())
}

/// The script that counts for a command.
pub fn script_for<'a>(scripts: &'a [Scripted], role: Role, cmd: &Command) -> Option<&'a Scripted>
    ensures { option_copied result ≡ script_for scripts.now role cmd.now }
{
    scripts.iter().rev().find(|s| fits(s, role, cmd))
}

/// The place of the script that counts for a command.
#[tactic(auto, using(crate::proofs::ScriptLemmas::place_kept, crate::proofs::ScriptLemmas::place_new))]
pub fn place_for(scripts: &[Scripted], role: Role, cmd: &Command) -> Option<usize>
    ensures { script_at scripts.now result ≡ script_for scripts.now role cmd.now }
{
    let mut last = None;
    for (place, script) in scripts.iter().enumerate() {
        if fits(script, role, cmd) {
            last = Some(place);
        }
    }
    last
}

/// How a command ends.
pub fn status_of(script: Option<&Scripted>) -> Status
    ensures { result ≡ status_of (option_copied script.entry) }
{
    match script {
        Some(script) => script.script.status,
        None => Status::Code(0),
    }
}

fn pieces_of<'a>(script: Option<&'a Scripted>) -> &'a [Bytes]
    ensures { result.now ≡ pieces_of (option_copied script.entry) }
{
    match script {
        Some(script) => script.script.pieces.as_slice(),
        None => &[],
    }
}

fn first_of(alloc: Global, pieces: &[Bytes]) -> Mem<Bytes>
    ensures { IfOk result (λ b. b ≡ unwrap_or (slice_get pieces.now 0) []) }
{
    match pieces.first() {
        Some(piece) => piece.try_clone(),
        None => Bytes::of(alloc, &[]),
    }
}

#[tactic(auto, using(crate::proofs::ScriptLemmas::concat_more))]
fn joined(alloc: Global, pieces: &[Bytes]) -> Mem<Bytes>
    ensures { IfOk result (λ b. b ≡ concat pieces.now) }
{
    let mut bytes = Vec::new(alloc);
    for piece in pieces {
        bytes.extend_from_slice(piece.as_slice())?;
    }
    Bytes::of(alloc, &bytes)
}

// The pieces but the first.
fn later_of(pieces: &[Bytes]) -> &[Bytes]
    ensures { result.now ≡ drop 1 pieces.now }
{
    match pieces.split_first() {
        Some((_, rest)) => rest,
        None => pieces,
    }
}

// The pieces that go to the standard error.
fn err_pieces(captured: bool, pieces: &[Bytes]) -> &[Bytes]
    ensures { result.now ≡ (if captured then drop 1 pieces.now else pieces.now) }
{
    if captured { later_of(pieces) } else { pieces }
}

/// The standard output of a command that ran to its end.
pub fn out_of(alloc: Global, captured: bool, script: Option<&Scripted>) -> Mem<Bytes>
    ensures { IfOk result (λ b. b ≡ out_of captured (pieces_of (option_copied script.entry))) }
{
    if captured {
        first_of(alloc, pieces_of(script))
    } else {
        Bytes::of(alloc, &[])
    }
}

/// The standard error of a command that ran to its end.
pub fn err_of(alloc: Global, captured: bool, heard: bool, script: Option<&Scripted>) -> Mem<Bytes>
    ensures { IfOk result
        (λ b. b ≡ err_of captured heard (pieces_of (option_copied script.entry))) }
{
    if heard {
        joined(alloc, err_pieces(captured, pieces_of(script)))
    } else {
        Bytes::of(alloc, &[])
    }
}

// Whether a script waits for a command, and this is one of those.
fn awaits(cmd: &Command, after: &Option<Text>) -> bool
    ensures { result ≡ awaits cmd.now after.now }
{
    match after {
        Some(word) => cmd_has(cmd, word.as_str()),
        None => false,
    }
}

fn starts_awaited(event: &Event, after: &Option<Text>) -> bool
    ensures { result ≡ starts_awaited after.now event.now }
{
    match event {
        Event::Started { cmd, .. } => awaits(cmd, after),
        _ => false,
    }
}

/// Whether a command that is waited for was started.
pub fn was_met(after: &Option<Text>, events: &[Event]) -> bool
    ensures { result ≡ was_met after.now events.now }
{
    events.iter().any(|e| starts_awaited(e, after))
}

fn note_met(script: &mut Scripted, cmd: &Command)
    ensures { script.new ≡ met_after cmd.now script.old }
{
    if awaits(cmd, &script.script.after) {
        script.met = true;
    }
}

/// Notes in each script that this command was started.
pub fn note_start(scripts: &mut Vec<Scripted>, cmd: &Command)
    ensures { scripts.new.items ≡ map (met_after cmd.now) scripts.old.items }
{
    for script in scripts.iter_mut() {
        note_met(script, cmd);
    }
}
