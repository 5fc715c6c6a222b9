//! Tests of hosts, pools and runs that no row of data can say: the processes and the files of the machine, a caller that makes a host's calls one by one, tokens
//! that a client hands out, and what a run does between two calls of its pool and its host.
//!
//! Stands on `cc_text`, `cc_host`, `cc_hosts`, `cc_jobs` and `cc_run`, and on no crate that plans or builds, so that its tests are proved beside those. `cc_tests`
//! has the tests of builds, and takes from here what isn't a test: `log_text`, a log as text. Helpers are as there.
#![tactic(auto)]

#[cfg(test)]
mod calls;
#[cfg(test)]
mod files;
mod log;
#[cfg(test)]
mod memory;
#[cfg(test)]
mod on_machine;
#[cfg(test)]
mod processes;
#[cfg(test)]
mod reads;
#[cfg(test)]
mod runs;
#[cfg(test)]
mod same;
#[cfg(test)]
mod tokens;
#[cfg(test)]
mod turns;
#[cfg(test)]
mod watch;

pub use log::log_text;
