// What a run keeps of its commands.
use cc_host::Status;

/// The command at a place was started, or has ended.
#[derive(Clone, Copy, Debug, PartialEq, Eq)]
pub enum Mark {
    Began(usize),
    Over(usize, Status),
}
