// The parts of a target: those of rustc's `cfg` (The Rust Reference, "Conditional compilation"), which Cargo hands
// on as `CARGO_CFG_TARGET_*` (The Cargo Book, "Environment Variables").
ghost use Rattle.std.specs.Prelude.{◌≡◌, ◌↔◌, IsErr, None, option_map};
ghost use Rattle.std.specs.Result.{result_ok};
ghost use Rattle.cc_target.specs.Described.{info_for};
ghost use Rattle.cc_target.specs.Targets.{info_seen, info_of, is_arm};

use crate::described::described;
use crate::rows::row_named;
use cc_env::EnvSnapshot;

/// The table has no row of that name, and where Cargo was asked, it doesn't describe the target either: the name is
/// misspelt, or of a target that isn't ported yet.
#[derive(Clone, Copy, Debug, PartialEq, Eq)]
pub struct UnknownTarget;

/// The parts of a target, by which flags and tools are chosen. A part that a target lacks is empty. All but
/// `full_arch` follow rustc's `cfg`.
#[derive(Clone, Copy, Debug, PartialEq, Eq)]
pub struct TargetInfo<'a> {
    /// The architecture with its version, as the target's name has it: `armv7` where `arch` is `arm`, `i586` where
    /// it is `x86`. Flags that choose a processor need it.
    pub full_arch: &'a str,
    /// The architecture's family, as `arm` or `x86_64`: `target_arch`.
    pub arch: &'a str,
    /// Who makes the machine or the system, as `pc`, mostly `unknown`: `target_vendor`.
    pub vendor: &'a str,
    /// The operating system, or `none` for code that runs without one: `target_os`.
    pub os: &'a str,
    /// The C library or, for QNX, the system's version, as `gnu`, `musl` or `nto71`: `target_env`.
    pub env: &'a str,
    /// The binary interface where the other parts leave it open, as `eabihf` or `x32`: `target_abi`.
    pub abi: &'a str,
}

impl TargetInfo<'_> {
    /// The parts of the target with this name, as rustc spells it. Refused exactly where the table has no row of
    /// that name, which leaves nothing. It takes no memory.
    pub fn from_rustc_target(name: &str) -> Result<TargetInfo<'static>, UnknownTarget>
        ensures row { option_map info_seen (result_ok result) ≡ info_of name.now }
        ensures unknown { IsErr result ↔ (info_of name.now ≡ None) }
    {
        match row_named(name) {
            Some(row) => Ok(row.info),
            None => Err(UnknownTarget),
        }
    }

    /// The parts of the target with this name, where it is the one that Cargo builds for in this environment: those of
    /// its row or, without one, those by which Cargo describes it to a build script. The description is `full_arch`,
    /// the name's text before its first `-` or the whole name; and the other five, the values of
    /// `CARGO_CFG_TARGET_ARCH`, `_VENDOR`, `_OS`, `_ENV` and `_ABI` (The Cargo Book, "Environment variables Cargo sets
    /// for build scripts"), which are those of rustc's `cfg` (The Rust Reference, "Conditional compilation"). The last
    /// two are empty where they aren't set.
    ///
    /// Refused exactly where there is neither. Without a row those are: an empty name; an architecture, a vendor or a
    /// system that isn't set or is empty, which every target has; and the vendors `apple`, `kmc` and `uwp`, the systems
    /// `cloudabi`, `redox`, `solaris` and `aix`, and the interface `pauthtest`, which want more of a compiler than the
    /// parts say, as Apple's systems want an SDK, and aren't ported. It takes no memory.
    #[tactic(auto, unfolding(crate::specs::Described::info_for))]
    pub fn from_cargo<'a>(
        name: &'a str,
        env: &'a EnvSnapshot,
    ) -> Result<TargetInfo<'a>, UnknownTarget>
        ensures described { option_map info_seen (result_ok result) ≡ info_for name.now env.now }
        ensures unknown { IsErr result ↔ (info_for name.now env.now ≡ None) }
    {
        match row_named(name) {
            Some(known) => Ok(known.info),
            None => described(name, env).ok_or(UnknownTarget),
        }
    }

    /// Whether the architecture's family is one of Arm: `aarch64`, `arm64ec` or `arm`. It takes no memory.
    pub fn is_arm(&self) -> bool
        ensures { result ≡ is_arm (info_seen self.now) }
    {
        self.arch == "aarch64" || self.arch == "arm64ec" || self.arch == "arm"
    }
}
