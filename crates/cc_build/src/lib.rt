//! `Build`: settings, and the compile run that they ask for.
//!
//! Stands on `cc_text`, `cc_env`, `cc_target`, `cc_flags`, `cc_host`, `cc_jobs`, `cc_tool`, `cc_plan` and `cc_run`. A
//! run makes the plan, goes through its stages one after another, and stops at the first that is refused. The crate
//! above uses one thing: `try_compile` answers Ok only where `Built` holds, and each error has its cause in the
//! settings or in the log (`specs/Went.antt`).
#![tactic(auto)]

mod archiving;
mod build;
mod compiler;
mod compiles;
mod compiling;
mod directives;
mod environment;
mod error;
mod existence;
mod expand;
mod goal;
mod intermediates;
mod library;
mod linking;
mod lists;
mod marks;
mod message;
mod phases;
mod planning;
mod refusal;
mod reporting;
mod reruns;
mod run;
mod run_plan;
mod several;
mod shows;
mod stage;
mod support;
mod task;
mod texts;
mod tools;

pub use build::Build;
pub use error::{Error, ErrorKind};
pub use linking::{emit_link_directives, try_emit_link_directives};
pub use planning::CompilePlan;
pub use run_plan::RunPlan;
pub use shows::is_debug_wanted;
