// Where a reader of pieces stands, and what the next bytes come to.
use httparse::spans::RequestSpans;

/// Where a reader stands inside a request.
#[derive(Clone, Copy)]
pub(crate) enum Inside {
    /// In its head, or before it.
    Head,
    /// Behind the head, in a body of so many bytes.
    Body { found: RequestSpans, size: usize },
    /// Behind the head, in a body by chunks.
    Chunks { found: RequestSpans, at: ChunkAt },
}

/// Where it stands inside a body by chunks.
#[derive(Clone, Copy)]
pub(crate) enum ChunkAt {
    /// In a chunk's line.
    Line,
    /// In a chunk, behind which the body has so many bytes.
    Bytes(usize),
    /// In the line end behind a chunk.
    End,
    Trailers,
}

/// What bytes came to.
#[derive(Clone, Copy)]
pub(crate) enum Came {
    /// A request, with the parts of its head.
    Whole(RequestSpans),
    Refused(u16),
    /// More is awaited there: the piece is used up.
    Awaits(Inside),
}

/// What a step came to.
#[derive(Clone, Copy)]
pub(crate) enum Step {
    /// It goes on there.
    On(Inside),
    Ends(Came),
}
