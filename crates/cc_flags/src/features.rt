// The features of x86 that rustc and C compilers both know: The Rust Reference, "Code generation attributes"; GCC's
// manual, "x86 Options".
ghost use Rattle.std.specs.Prelude.{◌≡◌, IfOk, map, find, bytes_eq, option_map};
ghost use Rattle.std.specs.Option.{option_copied};
ghost use Rattle.cc_flags.specs.Features.{feature_seen, features, feature_of, c_name, signed, is_x86, feature_word};

use crate::RustcCodegenFlags;
use cc_text::{Mem, Text, after_prefix};
use std::alloc::Global;

/// The names: rustc's, then that of GCC and Clang, which differ in the last four. `sse` and `sse2` are left out:
/// each x86_64 processor has them, and without them GCC refuses C functions that return floats.
static FEATURES: [(&'static str, &'static str); 43] = [
    ("adx", "adx"),
    ("aes", "aes"),
    ("avx", "avx"),
    ("avx2", "avx2"),
    ("avx512bf16", "avx512bf16"),
    ("avx512bitalg", "avx512bitalg"),
    ("avx512bw", "avx512bw"),
    ("avx512cd", "avx512cd"),
    ("avx512dq", "avx512dq"),
    ("avx512f", "avx512f"),
    ("avx512fp16", "avx512fp16"),
    ("avx512ifma", "avx512ifma"),
    ("avx512vbmi", "avx512vbmi"),
    ("avx512vbmi2", "avx512vbmi2"),
    ("avx512vl", "avx512vl"),
    ("avx512vnni", "avx512vnni"),
    ("avx512vpopcntdq", "avx512vpopcntdq"),
    ("avxvnni", "avxvnni"),
    ("bmi2", "bmi2"),
    ("f16c", "f16c"),
    ("fma", "fma"),
    ("fxsr", "fxsr"),
    ("gfni", "gfni"),
    ("lzcnt", "lzcnt"),
    ("movbe", "movbe"),
    ("popcnt", "popcnt"),
    ("rdseed", "rdseed"),
    ("sha", "sha"),
    ("sse3", "sse3"),
    ("sse4.1", "sse4.1"),
    ("sse4.2", "sse4.2"),
    ("sse4a", "sse4a"),
    ("ssse3", "ssse3"),
    ("vaes", "vaes"),
    ("vpclmulqdq", "vpclmulqdq"),
    ("xsave", "xsave"),
    ("xsavec", "xsavec"),
    ("xsaveopt", "xsaveopt"),
    ("xsaves", "xsaves"),
    ("bmi1", "bmi"),
    ("cmpxchg16b", "cx16"),
    ("pclmulqdq", "pclmul"),
    ("rdrand", "rdrnd"),
];

/// The table.
fn features() -> &'static [(&'static str, &'static str)]
    ensures { map feature_seen result.now ≡ features }
{
    &FEATURES
}

/// The first of some pairs with the name.
fn feature_among<'a>(
    features: &'a [(&'static str, &'static str)],
    name: &str,
) -> Option<&'a (&'static str, &'static str)>
    ensures { option_copied result ≡ find (λ f. bytes_eq f.0.now name.now) features.now }
{
    features.iter().find(|feature| feature.0 == name)
}

/// The names of a feature, by rustc's.
fn feature_named(name: &str) -> Option<&'static (&'static str, &'static str)>
    ensures { option_map feature_seen (option_copied result) ≡ feature_of name.now }
{
    feature_among(features(), name)
}

/// The name that GCC and Clang have for a feature.
fn c_name(name: &str) -> Option<&'static str>
    ensures { option_copied result ≡ c_name name.now }
{
    let feature = feature_named(name)?;
    Some(feature.1)
}

/// What begins the word of a feature, by its sign, and the feature's name.
#[tactic(auto, unfolding(crate::specs::Features::signed))]
fn signed(feature: &str) -> Option<(&str, &str)>
    ensures { option_map (λ s. (s.0.now, s.1.now)) result ≡ signed feature.now }
{
    match after_prefix(feature, "+") {
        Some(name) => Some(("-m", name)),
        None => match after_prefix(feature, "-") {
            Some(name) => Some(("-mno-", name)),
            None => None,
        },
    }
}

#[tactic(auto, unfolding(crate::specs::Features::is_x86))]
fn is_x86(arch: &str) -> bool
    ensures { result ≡ is_x86 arch.now }
{
    arch == "x86" || arch == "x86_64"
}

impl RustcCodegenFlags {
    /// The word of GCC and Clang for a feature of `-Ctarget-feature` with its sign, as `-mavx2` for `+avx2` and
    /// `-mno-avx2` for `-avx2`. None on architectures other than `x86` and `x86_64`, for a feature that the table
    /// lacks, since the same name may mean another thing to a C compiler, and without a sign, which rustc passes
    /// over too. Only want of memory refuses; nothing is kept then.
    #[tactic(auto, unfolding(crate::specs::Features::feature_word))]
    pub fn target_feature_cc_flag(alloc: Global, arch: &str, feature: &str) -> Mem<Option<Text>>
        ensures { IfOk result (λ word. word ≡ feature_word arch.now feature.now) }
    {
        if !is_x86(arch) {
            return Ok(None);
        }
        let Some((front, name)) = signed(feature) else {
            return Ok(None);
        };
        let Some(name) = c_name(name) else {
            return Ok(None);
        };
        let mut word = Text::of(alloc, front)?;
        word.push_str(name)?;
        Ok(Some(word))
    }
}
