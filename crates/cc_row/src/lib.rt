//! What worked rows say, read from TOML, and the log of a host in memory as lines.
//!
//! Stands on `cc_text`, `cc_host` and the kit's `toml`. A row is one run of the command: its words, how its host
//! differs from one at which all goes well, and what is expected of it. A call row is one call of a function: what it
//! is given and what it gives. The program above uses `read_book`, `host_of` and `files_of`, which give what a row runs
//! on, with their `healed` twins at which no call fails, `log_lines`, and `left_over`, which finds what a run left
//! undone or unused.
#![tactic(auto)]

mod commands;
mod error;
mod fields;
mod knobs;
mod line;
mod lines;
mod names;
mod reading;
mod row;
mod used;

pub use error::{Read, RowError};
pub use knobs::{files_of, healed_files_of, healed_host_of, host_of};
pub use line::quoted_list;
pub use lines::log_lines;
pub use reading::read_book;
pub use row::{
    Answer, Book, CallRow, Commands, Expected, ExpectedError, ExpectedLog, ExpectedWord, Failure,
    Given, Knobs, Parts, Pool, ReadFile, Reads, Row, ScriptOf, Surroundings,
};
pub use used::left_over;
