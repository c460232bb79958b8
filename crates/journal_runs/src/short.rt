// The one error of this program.
use std::alloc::{AllocError, AllocFailed};

/// There was no memory.
#[derive(Clone, Copy, Debug, Drop)]
pub struct Short;

impl From<AllocError> for Short {
    fn from(_: AllocError) -> Short {
        Short
    }
}

impl<T: Drop> From<AllocFailed<T>> for Short {
    fn from(_: AllocFailed<T>) -> Short {
        Short
    }
}

impl From<engine_text::NoMemory> for Short {
    fn from(_: engine_text::NoMemory) -> Short {
        Short
    }
}
