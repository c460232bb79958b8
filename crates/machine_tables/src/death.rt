// The end of a main process in a step.

/// The container's number, and the code.
#[derive(Clone, Copy, Drop)]
pub struct Death {
    pub number: u64,
    pub code: u8,
}
