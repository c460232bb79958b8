// A drill: what it is run with, and what it came to.
use engine_text::Text;
use session_model::Ending;

/// What a drill came to.
#[derive(Drop)]
pub enum Drilled {
    /// Its session was closed, and this is its report.
    Reported(Text),
    /// Its session ended otherwise.
    Ended(Ending),
}

/// What a drill is run with.
#[derive(Clone, Copy, Drop)]
pub struct Drill {
    /// The seed of its words and of the ids.
    pub seed: [u8; 32],
    /// How many requests it makes.
    pub requests: u32,
    /// The moment at which its daemon is opened, in milliseconds.
    pub opening: u64,
    /// The most entries of its journal.
    pub entries: u64,
}
