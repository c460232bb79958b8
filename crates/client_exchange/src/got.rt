// What of an answer is handed on.

/// What of an answer is handed on, beside its body: its status, the number of the first event, where it is told, and whether
/// all of the body came.
#[derive(Clone, Copy, Debug, PartialEq, Eq)]
pub struct Got {
    pub status: u16,
    pub first: Option<u64>,
    pub whole: bool,
}
