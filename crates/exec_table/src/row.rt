// An exec beside its output, and its number beside its container's.
use engine_text::{Exec, OpenLog};

/// An exec, and what it has written.
#[derive(Drop)]
pub struct Row {
    pub exec: Exec,
    pub log: OpenLog,
}

/// The number of an exec beside that of its container.
#[derive(Clone, Copy)]
pub struct Owned {
    pub container: u64,
    pub number: u64,
}
