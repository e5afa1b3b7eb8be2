use std::alloc::{AllocError, AllocFailed};
use thiserror::Error;

/// Memory is wanting.
#[derive(Clone, Copy, Debug, PartialEq, Eq, Hash, Error)]
#[error("no memory")]
pub struct NoMemory;

impl From<AllocError> for NoMemory {
    ghost from_gives = { λ _ _. Unit {0} };

    fn from(_error: AllocError) -> NoMemory {
        NoMemory
    }
}

impl<T: Drop> From<AllocFailed<T>> for NoMemory {
    ghost from_gives = { λ _ _. Unit {0} };

    fn from(_error: AllocFailed<T>) -> NoMemory {
        NoMemory
    }
}

/// A stream, a file or a wire of the outside failed.
#[derive(Clone, Copy, Debug, PartialEq, Eq, Hash, Error)]
#[error("failed")]
pub struct Failed;
