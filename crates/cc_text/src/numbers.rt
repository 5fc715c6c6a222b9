// Numbers written as texts.
ghost use Rattle.std.specs.Prelude.{◌≡◌};
ghost use Rattle.cc_text.specs.Numbers.{u32_of};

/// The number of 32 bits that a text spells in decimal, as Rust's `str::parse` reads it: digits, after one `+` at
/// most. None where the text is anything else, blanks included, or the number is greater. It takes no memory.
pub fn u32_of(text: &str) -> Option<u32>
    ensures { result ≡ u32_of text.now }
{
    text.parse::<u32>().ok()
}
