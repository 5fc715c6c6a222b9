//! Loggers of the messages that are said to a host, and the compilation database: compile commands as a JSON text,
//! collected, written and read.
//!
//! Stands on `cc_text`, `cc_host` and `serde_json`. The text's layout and what an entry has are those of LLVM's page
//! "JSON Compilation Database Format Specification". The crates above use four things: a host with a logger listens,
//! and does all else as the host inside; the text that is written is `database` of the commands; two lists of commands
//! have two texts; and what is read of a text is `read_database` of it.
#![tactic(auto)]

mod collected;
mod collector;
mod database;
mod logged;
mod logger;
mod message;
mod read;

pub use collected::Collected;
pub use collector::{CompileCommandCollector, CompileCommands};
pub use database::{json_compilation_database, one_list_a_text};
pub use logged::Logged;
pub use logger::{BuildMessageLogger, NoLogger};
pub use message::{BuildMessage, BuildMessageKind, Extra};
pub use read::{DatabaseError, read_database};
