// What a run is given.
use crate::reporting::Reporting;
use cc_env::BuildEnv;
use cc_host::World;
use cc_plan::{BuildConfig, Reads, Sources};
use cc_tool::Caches;

/// What a run is given: how it reports, its settings in their environment, and the output that names its library. It
/// stays the same from the first part of the run to the last.
#[derive(Clone, Copy)]
pub(crate) struct Task<'a> {
    pub reporting: Reporting,
    pub set: &'a BuildConfig,
    pub env: &'a BuildEnv,
    pub output: &'a str,
}

/// What the parts of a run share: the task, the pool of its commands, what is kept of the host's world, the sources
/// with the names of the library, and what the run reads variables for.
#[derive(Drop)]
pub(crate) struct Shared<'a, W: World, J> {
    pub task: Task<'a>,
    pub jobs: &'a J,
    pub caches: &'a Caches<W>,
    pub sources: &'a Sources,
    pub reads: Reads,
}
