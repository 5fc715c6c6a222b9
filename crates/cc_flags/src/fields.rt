// The fields that pairs give: rustc's book, "Codegen Options", says of each option which values it takes. Of
// several pairs with one key the last counts.
ghost use Rattle.std.specs.Prelude.{◌≡◌, ◌++◌, IfOk, OnOk};
ghost use Rattle.std.specs.Option.{option_copied};
ghost use Rattle.cc_text.specs.Words.{texts};
ghost use Rattle.cc_flags.specs.Fields.{is_yes, is_no, truth_of, last_of, is_given, text_of, text_or_true_of, switch, switch_of, is_on, plugin_of, number_in, number_of, feature_names, features_in, features_of, needs_text, is_invalid, invalid_pair};

use crate::pairs::{Pair, parts_at};
use cc_text::{Mem, Text, Words, is_one_of, u32_of};
use std::alloc::Global;

/// Whether a word says yes, as rustc spells it: `y`, `yes`, `on` or `true`. It takes no memory.
#[tactic(auto, unfolding(crate::specs::Fields::is_yes))]
pub fn is_yes(word: &str) -> bool
    ensures { result ≡ is_yes word.now }
{
    is_one_of(word, &["y", "yes", "on", "true"])
}

/// Whether a word says no, as rustc spells it: `n`, `no`, `off` or `false`. It takes no memory.
#[tactic(auto, unfolding(crate::specs::Fields::is_no))]
pub fn is_no(word: &str) -> bool
    ensures { result ≡ is_no word.now }
{
    is_one_of(word, &["n", "no", "off", "false"])
}

/// What a word says: yes, no, or neither.
#[tactic(auto, unfolding(crate::specs::Fields::truth_of))]
fn truth_of(word: &str) -> Option<bool>
    ensures { result ≡ truth_of word.now }
{
    if is_yes(word) {
        Some(true)
    } else if is_no(word) {
        Some(false)
    } else {
        None
    }
}

/// The last pair of some keys.
fn last_of<'a>(pairs: &'a [Pair], keys: &[&str]) -> Option<&'a Pair>
    ensures { option_copied result ≡ last_of (texts keys.now) pairs.now }
{
    pairs
        .iter()
        .rev()
        .find(|pair| is_one_of(pair.key.as_str(), keys))
}

/// Whether some pair has one of the keys, with a value or without. It takes no memory.
pub fn is_given(pairs: &[Pair], keys: &[&str]) -> bool
    ensures { result ≡ is_given (texts keys.now) pairs.now }
{
    last_of(pairs, keys).is_some()
}

fn copy_of(text: &Option<Text>) -> Mem<Option<Text>>
    ensures { IfOk result (λ copy. copy ≡ text.now) }
{
    match text {
        Some(text) => Ok(Some(text.try_clone()?)),
        None => Ok(None),
    }
}

/// The value of the last pair of some keys; none where there is no such pair, or it has no value. Only want of
/// memory refuses; nothing is kept then.
#[tactic(auto, unfolding(crate::specs::Fields::text_of))]
pub fn text_of(pairs: &[Pair], keys: &[&str]) -> Mem<Option<Text>>
    ensures { IfOk result (λ text. text ≡ text_of (texts keys.now) pairs.now) }
{
    match last_of(pairs, keys) {
        Some(pair) => copy_of(&pair.value),
        None => Ok(None),
    }
}

/// The value of the last pair of some keys, `true` where it has none; none where there is no such pair. Only want
/// of memory refuses; nothing is kept then.
#[tactic(auto, unfolding(crate::specs::Fields::text_or_true_of))]
pub fn text_or_true_of(alloc: Global, pairs: &[Pair], keys: &[&str]) -> Mem<Option<Text>>
    ensures { IfOk result (λ text. text ≡ text_or_true_of (texts keys.now) pairs.now) }
{
    match last_of(pairs, keys) {
        Some(pair) => match &pair.value {
            Some(value) => Ok(Some(value.try_clone()?)),
            None => Ok(Some(Text::of(alloc, "true")?)),
        },
        None => Ok(None),
    }
}

#[tactic(auto, unfolding(crate::specs::Fields::switch))]
fn switch(value: &Option<Text>) -> Option<bool>
    ensures { result ≡ switch value.now }
{
    match value {
        Some(word) => truth_of(word.as_str()),
        None => Some(true),
    }
}

/// What the last pair of some keys says: yes without a value, or as its value says; none where there is no such
/// pair or its value says neither. It takes no memory.
#[tactic(auto, unfolding(crate::specs::Fields::switch_of))]
pub fn switch_of(pairs: &[Pair], keys: &[&str]) -> Option<bool>
    ensures { result ≡ switch_of (texts keys.now) pairs.now }
{
    match last_of(pairs, keys) {
        Some(pair) => switch(&pair.value),
        None => None,
    }
}

#[tactic(auto, unfolding(crate::specs::Fields::is_on))]
fn is_on(value: &Option<Text>) -> bool
    ensures { result ≡ is_on value.now }
{
    match value {
        Some(word) => truth_of(word.as_str()).unwrap_or(true),
        None => true,
    }
}

/// Whether the last pair of some keys asks for a plugin: not where its value says no, else yes, since a value that
/// is neither names the plugin; none where there is no such pair. It takes no memory.
#[tactic(auto, unfolding(crate::specs::Fields::plugin_of))]
pub fn plugin_of(pairs: &[Pair], keys: &[&str]) -> Option<bool>
    ensures { result ≡ plugin_of (texts keys.now) pairs.now }
{
    match last_of(pairs, keys) {
        Some(pair) => Some(is_on(&pair.value)),
        None => None,
    }
}

fn number_in(value: &Option<Text>) -> Option<u32>
    ensures { result ≡ number_in value.now }
{
    match value {
        Some(text) => u32_of(text.as_str()),
        None => None,
    }
}

/// The number of 32 bits in the last pair of some keys; none where there is no such pair or its value is no such
/// number. It takes no memory.
#[tactic(auto, unfolding(crate::specs::Fields::number_of))]
pub fn number_of(pairs: &[Pair], keys: &[&str]) -> Option<u32>
    ensures { result ≡ number_of (texts keys.now) pairs.now }
{
    match last_of(pairs, keys) {
        Some(pair) => number_in(&pair.value),
        None => None,
    }
}

/// Adds the names of a value between commas, without empty ones.
#[tactic(auto, unfolding(crate::specs::Fields::feature_names))]
fn push_feature_names(words: &mut Words, alloc: Global, value: &Option<Text>) -> Mem<()>
    ensures { OnOk result (words.new ≡ words.old ++ feature_names value.now) }
{
    if let Some(value) = value {
        let names = parts_at(alloc, value.as_str(), ',')?;
        for name in &names {
            if !name.is_empty() {
                words.push(name)?;
            }
        }
    }
    Ok(())
}

/// Adds the names of features that a pair has.
#[tactic(auto, unfolding(crate::specs::Fields::features_in))]
fn push_features_in(words: &mut Words, alloc: Global, pair: &Pair) -> Mem<()>
    ensures { OnOk result (words.new ≡ words.old ++ features_in pair.now) }
{
    if pair.key.as_str() == "-Ctarget-feature" {
        push_feature_names(words, alloc, &pair.value)?;
    }
    Ok(())
}

/// The names of all pairs `-Ctarget-feature`, parted at commas, each with its sign, in order, without empty ones: a
/// later one may take back an earlier one. Only want of memory refuses; nothing is kept then.
#[tactic(auto, unfolding(crate::specs::Fields::features_of))]
pub fn features_of(alloc: Global, pairs: &[Pair]) -> Mem<Words>
    ensures { IfOk result (λ names. names ≡ features_of pairs.now) }
{
    let mut names = Words::new(alloc);
    for pair in pairs {
        push_features_in(&mut names, alloc, pair)?;
    }
    Ok(names)
}

#[tactic(auto, unfolding(crate::specs::Fields::needs_text))]
fn needs_text(key: &str) -> bool
    ensures { result ≡ needs_text key.now }
{
    is_one_of(
        key,
        &[
            "-Ccode-model",
            "-Crelocation-model",
            "-Zbranch-protection",
            "-Cbranch-protection",
            "-Zstack-protector",
            "-Cstack-protector",
            "-Ctarget-cpu",
            "-Ctarget-feature",
        ],
    )
}

#[tactic(auto, unfolding(crate::specs::Fields::is_invalid))]
fn is_invalid(pair: &Pair) -> bool
    ensures { result ≡ is_invalid pair.now }
{
    let key = pair.key.as_str();
    needs_text(key) && pair.value.is_none()
        || key == "-Cdwarf-version" && number_in(&pair.value).is_none()
}

/// The first pair that lacks the value that it needs, or whose value is no number of 32 bits where one is needed;
/// none where all are right. It takes no memory.
#[tactic(auto, unfolding(crate::specs::Fields::invalid_pair))]
pub fn invalid_pair(pairs: &[Pair]) -> Option<&Pair>
    ensures { option_copied result ≡ invalid_pair pairs.now }
{
    pairs.iter().find(|pair| is_invalid(pair))
}
