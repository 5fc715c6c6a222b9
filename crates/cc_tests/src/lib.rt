//! Tests of builds that no row of data can say: several calls on one build or its clones, a build asked in parts, callers beside each other on one pool, loggers,
//! and a compiler of the machine.
//!
//! Stands on `cc_build` and what that stands on, on `cc_db` and `cc_hosts`, and on `cc_run_tests`, which has the tests that need no build. The crate has tests alone.
//! They stand here, and not in the crates that they test, since a crate with tests is proved twice. A helper has no promise, doesn't end early, and borrows what it
//! works on, so that it is proved soon.
#![tactic(auto)]

#[cfg(test)]
mod clones;
#[cfg(test)]
mod environment;
#[cfg(test)]
mod errors;
#[cfg(test)]
mod fixed;
#[cfg(test)]
mod lent;
#[cfg(test)]
mod machine;
#[cfg(test)]
mod messages;
#[cfg(test)]
mod on_machine;
#[cfg(test)]
mod once;
#[cfg(test)]
mod parts;
#[cfg(test)]
mod same;
#[cfg(test)]
mod seats;
#[cfg(test)]
mod settings;
#[cfg(test)]
mod setup;
#[cfg(test)]
mod tokens;
#[cfg(test)]
mod verdicts;
