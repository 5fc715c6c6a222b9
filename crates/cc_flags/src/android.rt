// What compilers for Android are called.
ghost use Rattle.std.specs.Prelude.{◌≡◌, ◌≢◌, [], IfOk, Some};
ghost use Rattle.std.specs.Option.{option_copied};
ghost use Rattle.cc_flags.specs.AndroidNames as spec;

use cc_text::{Mem, Text};
use std::alloc::Global;

/// The compiler that the development kit has for a target, by rustc's name, or none. By the NDK's guide "Use the NDK
/// with other build systems" its name has the oldest level of the system that is built for: the kit's oldest with 64
/// bits is 21; Arm of 32 bits is called `armv7a`. It takes no memory.
#[tactic(auto, unfolding(crate::specs::AndroidNames::kit_compiler))]
pub fn kit_compiler(name: &str) -> Option<&'static str>
    ensures { option_copied result ≡ spec.kit_compiler name.now }
{
    match name {
        "aarch64-linux-android" => Some("aarch64-linux-android21-clang"),
        "armv7-linux-androideabi" => Some("armv7a-linux-androideabi16-clang"),
        "i686-linux-android" => Some("i686-linux-android16-clang"),
        "x86_64-linux-android" => Some("x86_64-linux-android21-clang"),
        _ => None,
    }
}

// The text with another in place of each needle, which has a byte.
pub(crate) fn replaced(alloc: Global, text: &str, needle: &str, to: &str) -> Mem<Text>
    requires { needle.now ≢ [] }
    ensures { IfOk result (λ out. out ≡ spec.replaced needle.now to.now text.now) }
{
    let mut out = Text::new(alloc);
    let mut rest = text;
    while let Some((before, after)) = rest.split_once(needle) {
        out.push_str(before)?;
        out.push_str(to)?;
        rest = after;
    }
    out.push_str(rest)?;
    Ok(out)
}

// The target as older tools spell it.
#[tactic(auto, unfolding(crate::specs::AndroidNames::plain_arm))]
fn plain_arm(alloc: Global, name: &str) -> Mem<Text>
    ensures { IfOk result (λ plain. plain ≡ spec.plain_arm name.now) }
{
    let plain = replaced(alloc, name, "armv7neon", "arm")?;
    let plain = replaced(alloc, plain.as_str(), "armv7", "arm")?;
    let plain = replaced(alloc, plain.as_str(), "thumbv7neon", "arm")?;
    replaced(alloc, plain.as_str(), "thumbv7", "arm")
}

/// The name of a compiler behind the target's, where Arm has no version, as kits up to release 22 had it. Only want of
/// memory refuses.
pub fn older_name(alloc: Global, name: &str, compiler: &str) -> Mem<Text>
    ensures { IfOk result (λ path. path ≡ spec.older_name name.now compiler.now) }
{
    let mut path = plain_arm(alloc, name)?;
    path.push_str("-")?;
    path.push_str(compiler)?;
    Ok(path)
}
