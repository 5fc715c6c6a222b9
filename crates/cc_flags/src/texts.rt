// Tests of texts, and texts that may be set.
ghost use Rattle.std.specs.Prelude.{◌≡◌};
ghost use Rattle.std.specs.Option.{option_copied};
ghost use Rattle.cc_flags.specs.DefaultWords.{value_or_empty};
ghost use Rattle.cc_flags.specs.Texts.{begins_with};
ghost use Rattle.cc_text.specs.Within.{is_within};

use cc_env::EnvSnapshot;
use cc_text::Text;

// The text begins with the prefix. Case counts.
#[tactic(auto, unfolding(crate::specs::Texts::begins_with))]
pub(crate) fn begins(text: &str, prefix: &str) -> bool
    ensures { result ≡ begins_with text.now prefix.now }
{
    cc_text::begins_with(text, prefix)
}

/// Whether the needle stands in the text. Case counts. It takes no memory.
pub fn has(text: &str, needle: &str) -> bool
    ensures { result ≡ is_within needle.now text.now }
{
    cc_text::contains(text, needle)
}

/// The value of a variable, lent, or the empty text where it isn't set. It takes no memory.
#[tactic(auto, unfolding(crate::specs::DefaultWords::value_or_empty))]
pub fn value_or_empty<'a>(env: &'a EnvSnapshot, name: &str) -> &'a str
    ensures { result.now ≡ value_or_empty env.now name.now }
{
    env.get(name).unwrap_or("")
}

/// The text that is set, lent, or none. It takes no memory.
pub fn lent(text: &Option<Text>) -> Option<&str>
    ensures { option_copied result ≡ text.now }
{
    match text {
        Some(text) => Some(text.as_str()),
        None => None,
    }
}
