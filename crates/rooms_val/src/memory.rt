//! Out of memory, the one result that no clause ties to a cause.
use std::alloc::{AllocError, AllocFailed};
use thiserror::Error;

/// Memory was refused. What stands after it is said by the call that returns it.
#[derive(Clone, Copy, Debug, PartialEq, Eq, Error)]
#[error("out of memory")]
pub struct OutOfMemory;

/// The result of a call that fails only where memory runs out.
pub type Mem<T> = Result<T, OutOfMemory>;

impl From<AllocError> for OutOfMemory {
    fn from(_refused: AllocError) -> OutOfMemory {
        OutOfMemory
    }
}

impl<T: Drop> From<AllocFailed<T>> for OutOfMemory {
    fn from(_refused: AllocFailed<T>) -> OutOfMemory {
        OutOfMemory
    }
}
