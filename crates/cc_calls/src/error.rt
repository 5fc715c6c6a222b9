// Why a call gives no texts.
use cc_text::NoMemory;
use std::alloc::{AllocError, AllocFailed};

/// Why a call gives no texts.
#[derive(Clone, Copy, Debug, PartialEq, Eq)]
pub enum CallError {
    /// No function has the name.
    Unknown,
    /// What is given has another number or form than the function takes.
    Given,
    /// Memory was refused.
    NoMemory,
}

impl From<NoMemory> for CallError {
    fn from(_: NoMemory) -> Self {
        CallError::NoMemory
    }
}

impl From<AllocError> for CallError {
    fn from(_: AllocError) -> Self {
        CallError::NoMemory
    }
}

impl<T: Drop> From<AllocFailed<T>> for CallError {
    fn from(_: AllocFailed<T>) -> Self {
        CallError::NoMemory
    }
}
