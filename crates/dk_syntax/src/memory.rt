//! Want of memory.
use crate::seq::NoRoom;
use std::alloc::{AllocError, AllocFailed};

/// There was no memory. It is merged with no other answer, and no contract says when it comes.
#[derive(Clone, Copy, Debug, PartialEq, Eq)]
pub struct NoMemory;

impl From<AllocError> for NoMemory {
    fn from(_: AllocError) -> NoMemory {
        NoMemory
    }
}

impl<T: Drop> From<AllocFailed<T>> for NoMemory {
    fn from(_: AllocFailed<T>) -> NoMemory {
        NoMemory
    }
}

impl<T: Drop> From<NoRoom<T>> for NoMemory {
    fn from(_: NoRoom<T>) -> NoMemory {
        NoMemory
    }
}
