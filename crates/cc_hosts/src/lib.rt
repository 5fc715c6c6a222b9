//! A host over the machine, its processes, files and streams, two hosts in memory: one with fixed outcomes, and one on which nothing is set, and the files of the
//! machine, for reading.
//!
//! Stands on `cc_text` and `cc_host`. The world of `FixedHost` is steady. `ProcessHost` keeps the trait `Host`, and nothing is proved of it beyond that: a
//! proof can't say what a process did. What it starts a child with, and what it keeps of the child's end, are values
//! with contracts of their own.
#![tactic(auto)]

mod asking;
mod bell;
mod child;
mod command;
mod disk;
mod entry;
mod fixed_host;
mod found;
mod heard;
mod kinds;
mod late;
mod learned;
mod look_up;
mod outputs;
mod plain;
mod process_host;
mod real_files;
mod reason;
mod replaced;
mod running;
mod sink;
mod standard;
mod waiting;
mod watched;
mod watchers;

pub use child::Closed;
pub use fixed_host::{Fixed, FixedHost};
pub use plain::PlainHost;
pub use process_host::{ProcessHost, Real};
pub use real_files::RealFiles;
pub use standard::StandIns;
