// What is left of a body.
ghost use Rattle.std.specs.Prelude.{[]};
ghost use Rattle.response_reader.specs.Bodies.{framing_of, Carries};

use http_edge::Form;

/// What is left of a body.
#[derive(Clone, Copy, Debug, PartialEq, Eq)]
pub enum Left {
    /// So many bytes.
    Sized(u64),
    /// Chunks, the next from its line on.
    Chunk,
    /// So many bytes of a chunk's piece and its line end, and then chunks.
    Piece(u64),
    /// Nothing behind the chunk that ends it.
    Over,
    /// Whatever comes.
    UntilEnd,
}

/// What is left of a body before its first byte.
pub(crate) fn left_of(form: Form) -> Left
    ensures { Carries (framing_of form) [] [] [] result }
{
    match form {
        Form::Json(length) | Form::Plain(length) => Left::Sized(length),
        Form::Empty => Left::Sized(0),
        Form::ChunkedFrames | Form::ChunkedJson { .. } | Form::ChunkedPlain => Left::Chunk,
        Form::Takeover { .. } => Left::UntilEnd,
    }
}
