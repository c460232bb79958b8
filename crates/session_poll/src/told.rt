// What a poll is told.
use std::alloc::Global;

/// Where memory comes from, the moment, in milliseconds, and whether the daemon stops.
#[derive(Clone, Copy)]
pub(crate) struct Told {
    pub(crate) alloc: Global,
    pub(crate) handed: u64,
    pub(crate) stop: bool,
}
