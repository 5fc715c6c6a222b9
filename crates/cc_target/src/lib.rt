//! What is known of each target by its Rust name (rustc's book, "Platform Support"), as a table with one row a
//! target, and of the target that Cargo builds for also by the variables in which Cargo describes it to a build
//! script. A table is needed since Cargo describes its own target alone, and a build may be for another.
//!
//! Stands on `cc_text` and `cc_env`. The crates above use one thing: each call gives what the row of the name says,
//! and no row, no answer; only `from_cargo` gives the description then, and no answer exactly where neither is. No
//! call takes memory.
#![tactic(auto)]

mod described;
mod info;
mod rows;
mod tools;

pub use info::{TargetInfo, UnknownTarget};
pub use rows::table_is_sound;
pub use tools::{gnu_candidate, gnu_candidates, gnu_prefix, llvm_target};
