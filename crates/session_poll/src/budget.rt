// How much one poll may do.

/// The most turns of a poll that make a call.
pub(crate) const TURNS: u32 = 16;

/// The most reads of a poll that give bytes, and the most writes that take some.
pub(crate) const MOVES: u32 = 64;

/// How much is left of it.
#[derive(Clone, Copy, Debug, PartialEq, Eq)]
pub(crate) struct Budget {
    pub(crate) turns: u32,
    /// How many parts of the stream that is told.
    pub(crate) parts: u32,
    pub(crate) reads: u32,
    pub(crate) writes: u32,
}

impl Budget {
    ghost use Rattle.std.specs.Prelude.{◌≡◌};

    pub(crate) fn new() -> Budget
        ensures { result ≡ record { turns = 16; parts = 16; reads = 64; writes = 64 } }
    {
        Budget {
            turns: TURNS,
            parts: TURNS,
            reads: MOVES,
            writes: MOVES,
        }
    }
}
