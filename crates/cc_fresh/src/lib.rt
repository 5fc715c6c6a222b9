//! What is known of how an object was made: the files that a compiler tells of, digests of bytes and of commands, and
//! records of them, which are kept as a JSON text.
//!
//! Stands on `cc_build` and the crates below it, `serde_json` and `sha2`. The crates above use two things: what is read
//! of a record's text is the record, and `try_refresh` compiles those sources alone whose record doesn't equal their
//! inputs (`specs/Refresh.antt`).
#![tactic(auto)]

mod choice;
mod deps;
mod digests;
mod entries;
mod file;
mod made;
mod read;
mod reader;
mod reason;
mod record;
mod refresh;
mod states;
mod step;
mod unit;
mod write;

pub use deps::{DepsError, read_deps};
pub use digests::{command_digest, digest};
pub use read::read_record;
pub use reason::{Reason, Reasons};
pub use record::{Entry, Record, reads_back};
pub use refresh::try_refresh;
pub use write::write_record;
