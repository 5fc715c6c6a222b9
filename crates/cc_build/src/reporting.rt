// How a run reports.
use cc_run::Shows;
use std::alloc::Global;

/// How a run reports: what of it is shown, and the allocator of its lines and errors. It stays the same for all stages.
#[derive(Clone, Copy)]
pub(crate) struct Reporting {
    pub alloc: Global,
    pub shows: Shows,
}
