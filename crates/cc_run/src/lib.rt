//! Runs commands to their ends: side by side, each under a token, or alone.
//!
//! Stands on `cc_text`, `cc_host` and `cc_jobs`. A run asks a queue which command comes next, starts it, makes turns,
//! forwards what the children write on their standard error line by line, tells the queue what began and what ended,
//! and gives the token of each child that ended back. The crates above use one record: the run went on by good events
//! to its end, and from there on its log has the one event that tells why it ended, and the children that were left
//! alone.
#![tactic(auto)]

mod all;
mod error;
mod forwarder;
mod hearing;
mod listed;
mod mark;
mod messages;
mod one;
mod planned;
mod print;
mod queue;
mod running;
mod spawn;
mod texts;
mod wait;
mod warnings;
mod whole;

pub use all::{drop_all, failure_of, run_all, run_queue};
pub use error::{RunError, Step};
pub use forwarder::Forwarder;
pub use listed::Listed;
pub use mark::Mark;
pub use one::run_one;
pub use planned::{Planned, Shows, Turns};
pub use queue::Queue;
pub use running::{Marks, Running};
pub use spawn::SpawnState;
pub use texts::failed_text;
pub use wait::WaitState;
pub use warnings::stderr_warnings;
pub use whole::{run_output, run_silent};
