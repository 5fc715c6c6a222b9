// Whether a text stands in a list. Texts are compared byte for byte.
ghost use Rattle.std.specs.Prelude.{◌≡◌};
ghost use Rattle.cc_text.specs.Words.{texts, is_among, is_one_of};

use crate::Text;

/// Whether the text is one of these words. It takes no memory.
pub fn is_among(words: &[Text], text: &str) -> bool
    ensures { result ≡ is_among words.now text.now }
{
    words.iter().any(|word| text == word.as_str())
}

/// Whether the text is one of these names, as `is_among` of names that are only lent. It takes no memory.
pub fn is_one_of(text: &str, names: &[&str]) -> bool
    ensures { result ≡ is_one_of (texts names.now) text.now }
{
    names.contains(&text)
}
