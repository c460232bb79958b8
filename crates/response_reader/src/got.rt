// What a reader of one response answers, and where it stands.

use crate::framing::Left;

/// Why a reader reads no more.
#[derive(Clone, Copy, Debug, PartialEq, Eq)]
pub enum Stopped {
    /// No head of this API begins at this place of the input, from 0.
    BadHead { at: u64 },
    /// No chunk begins at this place.
    BadChunk { at: u64 },
    CutShort,
    ReadFault,
}

/// What a reader reads next.
#[derive(Clone, Copy, Debug, PartialEq, Eq)]
pub enum Stage {
    Head,
    Body(Left),
    Stopped(Stopped),
}

/// What the front of the input is.
#[derive(Clone, Copy, Debug, PartialEq, Eq)]
pub enum Answered {
    /// A head with this status; `first` is its `X-Engine-From`.
    Head { status: u16, first: Option<u64> },
    /// No head of this API begins at this place of the input, from 0.
    BadHead { at: u64 },
    /// The input ended inside a head.
    CutShort,
    /// A read failed.
    ReadFault,
}

/// What comes next of a body.
#[derive(Clone, Copy, Debug, PartialEq, Eq)]
pub enum BodyGot {
    /// So many bytes of it stand at the front of the place.
    Bytes(usize),
    /// The body is whole.
    End,
    /// No chunk begins at this place of the input, from 0.
    BadChunk { at: u64 },
    /// The input ended inside the body.
    CutShort,
    /// A read failed.
    ReadFault,
}
