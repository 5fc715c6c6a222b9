// Cuts of a text, which lend parts of it and take no memory. Case counts.
ghost use Rattle.std.specs.Prelude.{◌≡◌};
ghost use Rattle.std.specs.Option.{option_copied, option_map};
ghost use Rattle.cc_text.specs.Cuts.{after_prefix, before_suffix, key_and_value};

/// The rest of the text after the prefix, or none where the text doesn't begin with it. It takes no memory.
#[tactic(auto, using(crate::proofs::CutLemmas::strips_prefix))]
pub fn after_prefix<'a>(text: &'a str, prefix: &str) -> Option<&'a str>
    ensures { option_copied result ≡ after_prefix text.now prefix.now }
{
    text.strip_prefix(prefix)
}

/// The text before the suffix, or none where the text doesn't end with it. It takes no memory.
#[tactic(auto, using(crate::proofs::CutLemmas::strips_suffix))]
pub fn before_suffix<'a>(text: &'a str, suffix: &str) -> Option<&'a str>
    ensures { option_copied result ≡ before_suffix text.now suffix.now }
{
    text.strip_suffix(suffix)
}

/// What stands before and after the first `=`, either of which may be empty, or none where there is no `=`. It
/// takes no memory.
#[tactic(auto, using(std::proofs::lemmas::Str::Pattern::split_once_first), unfolding(crate::specs::Cuts::key_and_value))]
pub fn key_and_value(text: &str) -> Option<(&str, &str)>
    ensures { option_map (λ p. (p.0.now, p.1.now)) result ≡ key_and_value text.now }
{
    text.split_once('=')
}
