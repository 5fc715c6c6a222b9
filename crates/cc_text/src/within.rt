// Whether a text stands in another. Case counts.
ghost use Rattle.std.specs.Prelude.{◌≡◌, nat_eq};
ghost use Rattle.std.specs.List.{starts_with, ends_with};
ghost use Rattle.cc_text.specs.Within.{is_within};

/// Whether the needle stands in the text. It takes no memory.
#[tactic(auto, using(std::proofs::lemmas::Str::Pattern::contains_text))]
pub fn contains(text: &str, needle: &str) -> bool
    ensures { result ≡ is_within needle.now text.now }
{
    text.contains(needle)
}

/// Whether the text begins with the prefix. It takes no memory.
#[tactic(auto, using(std::proofs::lemmas::Str::Pattern::starts_text))]
pub fn begins_with(text: &str, prefix: &str) -> bool
    ensures { result ≡ starts_with nat_eq text.now prefix.now }
{
    text.starts_with(prefix)
}

/// Whether the text ends with the suffix. It takes no memory.
#[tactic(auto, using(std::proofs::lemmas::Str::Pattern::ends_text))]
pub fn ends_with(text: &str, suffix: &str) -> bool
    ensures { result ≡ ends_with nat_eq text.now suffix.now }
{
    text.ends_with(suffix)
}
