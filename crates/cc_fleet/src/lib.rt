//! A fleet: several builds under one pool.
//!
//! Stands on `cc_text`, `cc_host`, `cc_jobs`, `cc_plan`, `cc_run` and `cc_build`. Each member is planned, the commands
//! of all are run as one list, and then the library of each member is written of which no command failed. The crate
//! above uses one thing: where `run_fleet` answers well, its part is a `Fleet`.
#![tactic(auto)]

mod clash;
mod failures;
mod fleet;
mod joined;
mod members;
mod paths;
mod plans;
mod run;
mod segments;

pub use clash::find_clash;
pub use failures::{Failure, last_failures};
pub use fleet::run_fleet;
pub use joined::Joined;
pub use members::{FleetEnd, FleetEnds, Member};
