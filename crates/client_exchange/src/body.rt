// What is handed on of an answer that doesn't refuse.
use engine_text::Bytes;

/// What is handed on of an answer that doesn't refuse: the first line of its request; its status; the number of its first event,
/// where it is told; its body, where that is kept; and whether all of the body came and ends where it may.
#[derive(Drop)]
pub struct Body {
    pub line: Bytes,
    pub status: u16,
    pub first: Option<u64>,
    pub bytes: Vec<u8>,
    pub whole: bool,
}
