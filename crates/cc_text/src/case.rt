// Texts compared with no regard to the case of ASCII letters, as file names of programs are, whose case Windows
// doesn't heed. Other letters are compared as they are.
ghost use Rattle.std.specs.Prelude.{◌≡◌, ◌↔◌, IsTrue, ◌+◌, ◌-◌, ◌<◌, ◌≤◌, length};
ghost use Rattle.std.specs.Str.Iter.{HasSubslice};
ghost use Rattle.cc_text.specs.Case.{lowered, starts_ignoring_case, ends_ignoring_case};

/// Whether the bytes begin with the prefix, once ASCII letters are lowered.
#[tactic(auto, using(crate::proofs::CaseLemmas::no_start_past))]
fn starts(bytes: &[u8], prefix: &[u8]) -> bool
    ensures { result ≡ starts_ignoring_case bytes.now prefix.now }
{
    prefix.len() <= bytes.len() && bytes[..prefix.len()].eq_ignore_ascii_case(prefix)
}

/// Whether the text begins with the prefix, where a capital ASCII letter counts as its small one. It takes no
/// memory.
pub fn starts_with_ignore_ascii_case(s: &str, prefix: &str) -> bool
    ensures { result ≡ starts_ignoring_case s.now prefix.now }
{
    starts(s.as_bytes(), prefix.as_bytes())
}

/// Whether the bytes end with the suffix, once ASCII letters are lowered.
#[tactic(auto, using(crate::proofs::CaseLemmas::no_end_past))]
fn ends(bytes: &[u8], suffix: &[u8]) -> bool
    ensures { result ≡ ends_ignoring_case bytes.now suffix.now }
{
    suffix.len() <= bytes.len() && bytes[bytes.len() - suffix.len()..].eq_ignore_ascii_case(suffix)
}

/// Whether the text ends with the suffix, where a capital ASCII letter counts as its small one. It takes no memory.
pub fn ends_with_ignore_ascii_case(s: &str, suffix: &str) -> bool
    ensures { result ≡ ends_ignoring_case s.now suffix.now }
{
    ends(s.as_bytes(), suffix.as_bytes())
}

/// Whether the needle stands in the text, where a capital ASCII letter counts as its small one. It takes no memory.
pub fn contains_ignore_ascii_case(s: &str, needle: &str) -> bool
    ensures { IsTrue result ↔ HasSubslice (lowered s.now) (lowered needle.now) }
{
    let needle = needle.as_bytes();
    let mut rest = s.as_bytes();
    while !starts(rest, needle) {
        match rest {
            [] => return false,
            [_, after @ ..] => rest = after,
        }
    }
    true
}
