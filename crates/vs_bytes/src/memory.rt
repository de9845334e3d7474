//! Out of memory.

use std::alloc::{AllocError, AllocFailed};

/// An allocation was refused. It says nothing else, and is the one answer that needs no cause.
#[derive(Clone, Copy, PartialEq, Eq, Debug, Drop)]
pub struct NoMemory;

impl From<AllocError> for NoMemory {
    fn from(_error: AllocError) -> NoMemory {
        NoMemory
    }
}

impl<T: Drop> From<AllocFailed<T>> for NoMemory {
    fn from(_error: AllocFailed<T>) -> NoMemory {
        NoMemory
    }
}
