// Why a file is refused.
use cc_text::NoMemory;
use std::alloc::{AllocError, AllocFailed, Global};

/// Why a file gives no rows.
#[derive(Drop, Debug)]
pub enum RowError {
    /// The place, the key, and what is wrong there, on one line.
    Refused(String),
    NoMemory,
}

/// What reading gives.
pub type Read<T> = Result<T, RowError>;

impl RowError {
    /// A refusal of what stands under a key at a place of the file.
    pub fn refused(alloc: Global, place: &str, key: &str, why: &str) -> RowError {
        match format!(in alloc; "{place}: {key}: {why}") {
            Ok(text) => RowError::Refused(text),
            Err(_) => RowError::NoMemory,
        }
    }
}

impl From<NoMemory> for RowError {
    fn from(_: NoMemory) -> Self {
        RowError::NoMemory
    }
}

impl From<AllocError> for RowError {
    fn from(_: AllocError) -> Self {
        RowError::NoMemory
    }
}

impl<T: Drop> From<AllocFailed<T>> for RowError {
    fn from(_: AllocFailed<T>) -> Self {
        RowError::NoMemory
    }
}
