//! Environments: a snapshot of variables, the variables of a child, and the look-ups by target and host. No call
//! reads the process: who calls hands the variables in.
//!
//! Stands on `cc_text`. Contracts see an `EnvSnapshot` as a list of pairs with distinct names, and a `BuildEnv` as
//! a snapshot and a list of explicit entries. The crates above use two things: of a name that is given more than
//! once the last value counts, and the variables of a child are `child_of` of the two lists.
#![tactic(auto)]

mod build_env;
mod index;
mod lookup;
mod names;
mod snapshot;
mod truth;

pub use build_env::BuildEnv;
pub use lookup::{flags_of, single};
pub use names::target_envs;
pub use snapshot::{EnvSnapshot, NotSet};
pub use truth::env_value_is_true;
