// The names that tools have for a target.
ghost use Rattle.std.specs.Prelude.{◌≡◌};
ghost use Rattle.std.specs.Option.{option_copied};
ghost use Rattle.cc_target.specs.Targets.{llvm_of, prefix_of, candidate_of, candidates_of};
ghost use Rattle.cc_text.specs.Words.{texts};

use crate::rows::row_named;

/// The name that LLVM has for a target, as Clang's `--target` takes it (Clang's page "Cross-compilation using
/// Clang", "Target Triple"); it may differ from rustc's, as `x86_64-pc-solaris` for illumos. None without a row. It
/// takes no memory.
pub fn llvm_target(name: &str) -> Option<&'static str>
    ensures { option_copied result ≡ llvm_of name.now }
{
    let row = row_named(name)?;
    Some(row.llvm)
}

/// What the names of a target's GNU tools begin with, as `aarch64-linux-gnu` for `aarch64-linux-gnu-gcc`, where
/// there is one way only. None for other targets and without a row. It takes no memory.
pub fn gnu_prefix(name: &str) -> Option<&'static str>
    ensures { option_copied result ≡ prefix_of name.now }
{
    row_named(name)?.prefix
}

/// The candidate at a place, counted from 0, among what the names of a target's GNU tools may begin with, the
/// likeliest first; none past the last one and without a row. It takes no memory.
pub fn gnu_candidate(name: &str, place: usize) -> Option<&'static str>
    ensures { option_copied result ≡ candidate_of name.now place }
{
    row_named(name)?.candidates.get(place).copied()
}

/// All those candidates, in order; nothing for targets with a fixed prefix and without a row. Several stand where
/// one toolchain goes by several names or compiles for more than one target, as that of RISC-V. It takes no memory.
pub fn gnu_candidates(name: &str) -> &'static [&'static str]
    ensures { texts result.now ≡ candidates_of name.now }
{
    match row_named(name) {
        Some(row) => row.candidates,
        None => &[],
    }
}
