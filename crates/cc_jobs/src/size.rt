// How many tokens a pool is to have.
ghost use Rattle.std.specs.Prelude.{◌≡◌, ◌≤◌};
ghost use Rattle.cc_jobs.specs.Size.{pool_size};

use cc_env::EnvSnapshot;
use cc_text::u32_of;

/// How many commands may run at once, by `NUM_JOBS`, which Cargo sets for build scripts from its `-j` (The Cargo
/// Book, "Environment Variables"). At least 1: 0 counts as 1. 4 where it isn't set, or isn't a number of 32 bits in
/// decimal; no processors are counted. It takes no memory.
#[tactic(auto, unfolding(crate::specs::Size::pool_size))]
pub fn pool_size(env: &EnvSnapshot) -> u32
    ensures size { result ≡ pool_size env.now }
    ensures some { 1 ≤ result }
{
    let Some(text) = env.get("NUM_JOBS") else {
        return 4;
    };
    match u32_of(text) {
        Some(0) => 1,
        Some(count) => count,
        None => 4,
    }
}
