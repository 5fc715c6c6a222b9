//! Tokens for commands that run side by side, a token a command: what a pool promises of each seat, and three pools,
//! of one caller, of callers that share one atomic word, and of a client that hands tokens out.
//!
//! Stands on `cc_text`, `cc_env` and the kit's `atomic_table`. A caller keeps a seat, and each meaning is of the
//! seat: how many tokens it holds, how often its pool has failed, the pool's total where it is known, two counts of
//! what was taken, how often a token was given back, and how often there was none. The crates above use one thing: `take` that answers `Token` raises what the seat holds by one,
//! and `give` lowers it by one and can't fail.
#![tactic(auto)]

mod client;
mod inherited;
mod inherited_pool;
mod jobs;
mod memory_client;
mod one;
mod shared;
mod sharing;
mod size;

pub use client::JobClient;
pub use inherited::{Inherited, InheritedSeat};
pub use inherited_pool::InheritedPool;
pub use jobs::{JobFault, Jobs, Take};
pub use memory_client::MemoryClient;
pub use one::{OneCaller, OneSeat};
pub use shared::{SharedPool, SharedSeat};
pub use sharing::SeatView;
pub use size::pool_size;
