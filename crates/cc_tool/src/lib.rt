//! Tools, the questions to them, and what is kept of the answers.
//!
//! Stands on `cc_text`, `cc_env` and `cc_host`. The crates above use two things. A pass over a plan asks nothing itself: `Passes` says that it
//! answers the value that the `Answers` settle, or the questions that it wants. `settle` asks what is wanted, and makes the plan again: it
//! appends `Asks` to the log of its host and to the `Answers` of its public call.
#![tactic(auto)]

mod answers;
mod asking;
mod caches;
mod calls;
mod digest;
mod emitted;
mod entries;
mod envs;
mod family;
mod files;
mod kinds;
mod known;
mod libcxx;
mod notes;
mod places;
mod planner;
mod probes;
mod question;
mod seeking;
mod seen;
mod tool;
mod verdicts;
mod want;

pub use answers::Answers;
pub use asking::ask;
pub use caches::Caches;
pub use calls::{ask_family, ask_flag, ask_libcxx};
pub use cc_text::Detected;
pub use digest::question_digest;
pub use emitted::Emitted;
pub use envs::Envs;
pub use family::family_of;
pub use files::NamedTempfile;
pub use kinds::FileKind;
pub use known::Known;
pub use libcxx::uses_libcxx;
pub use notes::Notes;
pub use places::Places;
pub use planner::{Found, Planner, settle};
pub use question::question_of;
pub use seeking::{first_shown, first_there};
pub use seen::{note_name, note_names, note_warnings, verdict};
pub use tool::Tool;
pub use verdicts::{Verdicts, verdicts_of};
pub use want::{Planned, Want, Wanted};
