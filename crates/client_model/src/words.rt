// How options stand among words (own).
use engine_text::{Pairs, Words};

/// What stands behind an option's word.
#[derive(Clone, Copy)]
pub enum Kind {
    /// Nothing.
    Flag,
    /// Its value.
    Valued,
    /// Its value, and the option may stand again.
    Repeated,
}

/// The words behind a command's name.
#[derive(Drop)]
pub struct Split {
    /// The options, in order, each with its value; that of a flag is empty.
    pub given: Pairs,
    /// The words behind them.
    pub words: Words,
}
