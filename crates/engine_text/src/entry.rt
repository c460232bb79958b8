// The entries of a journal (own).
use super::{Call, Reply};

/// A call of a history with its reply. `dues` counts the due steps since the entry before, `conn`
/// is the connection's number, and the moment is in milliseconds since 1970.
#[derive(Drop)]
pub struct Entry {
    pub dues: u64,
    pub conn: u32,
    pub moment: u64,
    pub call: Call,
    pub reply: Reply,
}
