// How a stream is no stream of frames, and how it ends (own: the places of wrong bytes).

/// The first byte with which no stream of frames goes on. `at` is its place in the stream, from 0,
/// up to the greatest u64.
#[derive(Clone, Copy, PartialEq, Eq, Debug, Drop)]
pub enum FrameFault {
    /// It stands in a type's place, and is above 2.
    BadType { at: u64 },
    /// It stands in the place of one of the three zero bytes, and isn't 0.
    BadPad { at: u64 },
}

/// How a stream ends.
#[derive(Clone, Copy, PartialEq, Eq, Debug, Drop)]
pub enum Ended {
    /// Behind a whole frame, or before the first.
    Whole,
    /// Behind so many bytes of a header, 1 to 7.
    CutHeader(u8),
    /// Where so many bytes of a payload are missing, at least one.
    CutPayload(u32),
    /// It isn't a stream of frames.
    Faulted(FrameFault),
}
