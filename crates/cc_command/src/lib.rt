//! The top call: words ask for a compile run, an archive alone, a large run from a number, an expanded source, the
//! tools of a build, or a fleet of builds, which `drive` does.
//!
//! Stands on `cc_fleet`, `cc_graph` and the crates below them. `read_words` makes a request of the words, or tells the
//! first bad one; `drive` reads them, captures the host's variables, does what is asked for, and prints why a run was
//! refused. `generate`, as a word and as a call, compiles generated sources on a host in memory of its own. The
//! contract of `drive` is the theorem of the repository, so whoever makes this call, with any host and any pool, has
//! it: the program `cc_main` on the machine, the program `cc_rows` on a host in memory.
#![tactic(auto)]

mod archive;
mod commands;
mod database;
mod done;
mod ended;
mod expand;
mod failing;
mod files;
mod fleet;
mod fleet_lines;
mod fleet_words;
mod graph;
mod graph_errors;
mod graph_file;
mod graph_lines;
mod job;
mod large_run;
mod lines;
mod reading;
mod recorded;
mod settings;
mod show;
mod summary;
mod top;
mod words;

pub use commands::read_words;
pub use ended::{Ended, cause_text};
pub use files::drive_files;
pub use large_run::{Generated, generate};
pub use top::drive;
pub use words::{BadWord, Job, ReadError, Request, WordCause};
