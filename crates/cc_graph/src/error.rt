// Why commands with prerequisites weren't run to their ends.
ghost use Rattle.std.specs.Prelude.{◌≡◌};
ghost use Rattle.cc_graph.specs.declared.error.GraphError.TheVariants.{NoMemory as WantsMemory};

use crate::Needs;
use cc_run::RunError;
use cc_text::NoMemory;
use std::alloc::AllocError;

/// Why commands with prerequisites can't be put in an order, or why their run ended at once.
#[derive(Drop, Debug)]
pub enum GraphError {
    /// The first need that is no place, with the node that has it.
    OutOfRange { node: u64, need: u64 },
    /// Places of which each needs the next and the last the first. The least stands first.
    Cycle(Needs),
    /// The run ended at once, with places of nodes. It is neither a failed command nor want of memory.
    Run(RunError),
    /// Memory was refused.
    NoMemory,
}

impl From<NoMemory> for GraphError {
    ghost from_gives = { λ _ e. e ≡ WantsMemory };

    fn from(_: NoMemory) -> Self {
        GraphError::NoMemory
    }
}

impl From<AllocError> for GraphError {
    ghost from_gives = { λ _ e. e ≡ WantsMemory };

    fn from(_: AllocError) -> Self {
        GraphError::NoMemory
    }
}
