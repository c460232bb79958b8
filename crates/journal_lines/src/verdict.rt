// What is said of a journal (own).
use engine_text::Text;

/// What is said of a journal's text. Lines count from 1, and the first one that is wrong is named;
/// `kept` and `found` are the reply, or the count of due steps, that the line has and that the
/// machine gives.
#[derive(Drop)]
pub enum Verdict {
    Legal { steps: u64 },
    Illegal { line: u64, kept: Text, found: Text },
    BadLine { line: u64 },
}
