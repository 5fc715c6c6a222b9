// A command with its prerequisites.
use crate::Needs;
use cc_run::Planned;

/// A command, with the places of those that it needs.
#[derive(Drop, Debug)]
pub struct Node {
    /// The command.
    pub cmd: Planned,
    /// The places of the commands that have to end with 0 before it is started.
    pub needs: Needs,
}
