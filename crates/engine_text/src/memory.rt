// The one answer that every call which takes memory may give (own).
use std::alloc::AllocError;

/// There was no memory.
#[derive(Clone, Copy, PartialEq, Eq, Debug, Drop)]
pub struct NoMemory;

impl From<AllocError> for NoMemory {
    fn from(_: AllocError) -> NoMemory {
        NoMemory
    }
}
