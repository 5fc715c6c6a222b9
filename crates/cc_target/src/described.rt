// Targets that Cargo describes, by the variables that it sets for build scripts, `CARGO_CFG_TARGET_ARCH` and those
// beside it (The Cargo Book, "Environment variables Cargo sets for build scripts"), with the values of rustc's `cfg`
// (The Rust Reference, "Conditional compilation").
ghost use Rattle.std.specs.Prelude.{◌≡◌, option_map};
ghost use Rattle.cc_target.specs.Described.{value, full_arch_of, parts, are_given, wants_more, described};
ghost use Rattle.cc_target.specs.Targets.{info_seen};

use crate::TargetInfo;
use cc_env::EnvSnapshot;
use cc_text::is_one_of;

// The value of a variable, or the empty text.
#[tactic(auto, unfolding(crate::specs::Described::value))]
fn value<'a>(env: &'a EnvSnapshot, variable: &str) -> &'a str
    ensures { result.now ≡ value env.now variable.now }
{
    env.get(variable).unwrap_or("")
}

// The architecture with its version: the text of a target's name before its first `-`, or the whole name.
#[tactic(auto, using(std::proofs::lemmas::Str::Pattern::split_once_first))]
fn full_arch_of(name: &str) -> &str
    ensures { result.now ≡ full_arch_of name.now }
{
    match name.split_once('-') {
        Some((full_arch, _)) => full_arch,
        None => name,
    }
}

// What a target's name and the variables say of its parts.
fn parts<'a>(name: &'a str, env: &'a EnvSnapshot) -> TargetInfo<'a>
    ensures { info_seen result ≡ parts name.now env.now }
{
    TargetInfo {
        full_arch: full_arch_of(name),
        arch: value(env, "CARGO_CFG_TARGET_ARCH"),
        vendor: value(env, "CARGO_CFG_TARGET_VENDOR"),
        os: value(env, "CARGO_CFG_TARGET_OS"),
        env: value(env, "CARGO_CFG_TARGET_ENV"),
        abi: value(env, "CARGO_CFG_TARGET_ABI"),
    }
}

// Whether there are a name, an architecture, a vendor and a system, as every target has.
#[tactic(auto, unfolding(crate::specs::Described::are_given))]
fn are_given(name: &str, info: &TargetInfo) -> bool
    ensures { result ≡ are_given name.now (info_seen info.now) }
{
    !name.is_empty() && !info.arch.is_empty() && !info.vendor.is_empty() && !info.os.is_empty()
}

// Whether the vendor, the system or the interface wants more of a compiler than the parts say, as Apple's systems
// want an SDK. None of these is ported.
#[tactic(auto, unfolding(crate::specs::Described::wants_more))]
fn wants_more(info: &TargetInfo) -> bool
    ensures { result ≡ wants_more (info_seen info.now) }
{
    is_one_of(info.vendor, &["apple", "kmc", "uwp"])
        || is_one_of(info.os, &["cloudabi", "redox", "solaris", "aix"])
        || info.abi == "pauthtest"
}

/// The parts of the target with this name, lent, where the variables describe it, or none. It takes no memory.
#[tactic(auto, unfolding(crate::specs::Described::described))]
pub fn described<'a>(name: &'a str, env: &'a EnvSnapshot) -> Option<TargetInfo<'a>>
    ensures { option_map info_seen result ≡ described name.now env.now }
{
    let info = parts(name, env);
    if are_given(name, &info) && !wants_more(&info) {
        Some(info)
    } else {
        None
    }
}
