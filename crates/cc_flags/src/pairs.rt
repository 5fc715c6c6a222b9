// Rustflags as pairs of a key and its value: `-C` and the name as one key, whether the flag was written in one word
// or two (rustc's book, "Command-line Arguments", and "Codegen Options").
ghost use Rattle.std.specs.Prelude.{◌≡◌, ℕ, ◌<◌, ◌==◌, List, ◌∷◌, ◌++◌, IfOk};
ghost use Rattle.std.specs.Option.{option_copied};
ghost use Rattle.std.specs.List.{slice_split};
ghost use Rattle.cc_text.specs.Words.{texts};
ghost use Rattle.cc_flags.specs.Pairs.{is_prefix, short_form, prefix_and_rest, pair_of, left_of, pairs_of};

use cc_text::{Mem, Text, after_prefix, is_one_of, key_and_value};
use std::alloc::Global;

/// A flag: its key, and its value if it has one.
#[derive(Drop, Debug)]
pub struct Pair {
    /// The short form of its option and its name, as `-Clto`.
    pub key: Text,
    /// What follows its first `=`, which may be empty; none without one.
    pub value: Option<Text>,
}

/// The parts of a text at a mark, lent, in order, empty ones too. The caller sees to it that the mark is ASCII.
/// Only want of memory refuses; nothing is kept then.
pub fn parts_at<'a>(alloc: Global, text: &'a str, mark: char) -> Mem<Vec<&'a str>>
    requires { mark < 128 }
    ensures { IfOk result (λ parts. texts parts.items ≡ slice_split (λ b. b == mark) text.now) }
{
    let parts = text.split(mark).collect(alloc)?;
    Ok(parts)
}

#[tactic(auto, unfolding(crate::specs::Pairs::is_prefix))]
fn is_prefix(part: &str) -> bool
    ensures { result ≡ is_prefix part.now }
{
    is_one_of(
        part,
        &[
            "-Z",
            "-C",
            "--codegen",
            "-L",
            "-l",
            "-o",
            "-W",
            "--warn",
            "-A",
            "--allow",
            "-D",
            "--deny",
            "-F",
            "--forbid",
        ],
    )
}

#[tactic(auto, unfolding(crate::specs::Pairs::short_form))]
fn short_form(prefix: &str) -> &str
    ensures { result.now ≡ short_form prefix.now }
{
    match prefix {
        "--codegen" => "-C",
        "--warn" => "-W",
        "--allow" => "-A",
        "--deny" => "-D",
        "--forbid" => "-F",
        _ => prefix,
    }
}

#[tactic(auto, unfolding(crate::specs::Pairs::prefix_and_rest))]
fn prefix_and_rest<'a>(prefix: &'a str, part: &'a str) -> (&'a str, &'a str)
    ensures { (result.0.now, result.1.now) ≡ prefix_and_rest prefix.now part.now }
{
    let front = short_form(prefix);
    if front == "-C" {
        return (front, part);
    }
    match after_prefix(part, "--codegen=") {
        Some(rest) => ("-C", rest),
        None => (front, part),
    }
}

/// The pair of a part after its prefix, which is empty where there is none.
#[tactic(auto, unfolding(crate::specs::Pairs::pair_of))]
fn pair_of(alloc: Global, prefix: &str, part: &str) -> Mem<Pair>
    ensures { IfOk result (λ pair. pair ≡ pair_of prefix.now part.now) }
{
    let (front, rest) = prefix_and_rest(prefix, part);
    let mut key = Text::of(alloc, front)?;
    match key_and_value(rest) {
        Some((name, value)) => {
            key.push_str(name)?;
            let value = Some(Text::of(alloc, value)?);
            Ok(Pair { key, value })
        }
        None => {
            key.push_str(rest)?;
            Ok(Pair { key, value: None })
        }
    }
}

/// Adds the pair of a part, or keeps the part as the prefix of the next one.
#[tactic(auto, using(crate::proofs::PairLemmas::at_plain, crate::proofs::PairLemmas::at_prefix))]
fn push_part<'a>(
    pairs: &mut Vec<Pair>,
    alloc: Global,
    pending: Option<&'a str>,
    part: &'a str,
) -> Mem<Option<&'a str>>
    ensures { IfOk result (λ next. (rest : List (List ℕ))
        → pairs.new.items ++ left_of (option_copied next) rest
        ≡ pairs.old.items ++ left_of (option_copied pending.entry) (part.now ∷ rest)) }
{
    match pending {
        Some(prefix) => {
            pairs.push(pair_of(alloc, prefix, part)?)?;
            Ok(None)
        }
        None => {
            if is_prefix(part) {
                return Ok(Some(part));
            }
            pairs.push(pair_of(alloc, "", part)?)?;
            Ok(None)
        }
    }
}

/// The pairs of rustflags as Cargo encodes them, parts between U+001F, in order. An option alone takes the next
/// part as its name. Only want of memory refuses; nothing is kept then.
pub fn pairs_of(alloc: Global, encoded: &str) -> Mem<Vec<Pair>>
    ensures { IfOk result (λ pairs. pairs.items ≡ pairs_of encoded.now) }
{
    let parts = parts_at(alloc, encoded, '\u{1f}')?;
    let mut pairs = Vec::new(alloc);
    let mut pending: Option<&str> = None;
    for part in &parts {
        pending = push_part(&mut pairs, alloc, pending, part)?;
    }
    Ok(pairs)
}
