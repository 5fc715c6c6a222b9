//! Commands with prerequisites: whether they can be put in an order, their run, and the JSON text that says them.
//!
//! Stands on `cc_text`, `cc_env`, `cc_host`, `cc_jobs`, `cc_run`, `json`, `fast_float` and `serde_json`. The crates
//! above use three things: what `check_graph` answers is an order of all places, a cycle among them, or the first need
//! that is no place; where `run_graph` answers well its part is a `GraphRun`, in which each start follows the ends of
//! its needs and skipped are exactly the nodes behind a failure; and what is read of a text is `read_graph` of it.
#![tactic(auto)]

mod check;
mod cycle;
mod ends;
mod entries;
mod error;
mod frontier;
mod needs;
mod node;
mod queue;
mod read;
mod run;
mod tokens;
mod walk;

pub use check::{check_graph, one_or_the_other};
pub use ends::{NodeEnd, NodeEnds};
pub use error::GraphError;
pub use needs::Needs;
pub use node::Node;
pub use read::{GraphFileError, read_graph};
pub use run::run_graph;
