// A body by chunks, in pieces.
ghost use Rattle.request_pieces.specs.Pieces.{view_of, left_of};
ghost use Rattle.request_pieces.specs.Standing.{IsBegun};
ghost use Rattle.request_pieces.specs.Taking.{StepSays, GoesOn, LineSays};
ghost use Rattle.request_pieces.specs.declared.standing.Inside.TheVariants.{Chunks};
ghost use Rattle.request_pieces.specs.declared.standing.ChunkAt.TheVariants.{Line, Bytes, End, Trailers};
ghost use Rattle.std.specs.Prelude.{◌≡◌, ◌≤◌, length};
ghost use Rattle.http_edge.specs.Limits.{body_limit};

use crate::body::grow_to;
use crate::source::Piece;
use crate::standing::{Came, ChunkAt, Inside, Step};
use http_edge::{Ahead, BODY_LIMIT, Buffers, Part, PartRead, read_part};
use httparse::spans::RequestSpans;

/// Reads on in a body by chunks.
pub(crate) fn take_chunks(
    piece: &mut Piece<'_>,
    ahead: &mut Ahead,
    buffers: &mut Buffers,
    found: RequestSpans,
    at: ChunkAt,
) -> Step
    requires { IsBegun (Chunks found at) buffers.old ahead.old }
    ensures says { StepSays result (Chunks found at) buffers.old ahead.old buffers.new ahead.new
        (view_of piece.old) (view_of piece.new) }
    ensures less { GoesOn result (left_of ahead.old piece.old) (left_of ahead.new piece.new) }
{
    match at {
        ChunkAt::Line => take_line(piece, ahead, buffers, found),
        ChunkAt::Bytes(until) => take_bytes(piece, ahead, buffers, found, until),
        ChunkAt::End => take_end(piece, ahead, buffers, found),
        ChunkAt::Trailers => take_trailers(piece, ahead, buffers, found),
    }
}

/// Reads on in a chunk's line.
fn take_line(
    piece: &mut Piece<'_>,
    ahead: &mut Ahead,
    buffers: &Buffers,
    found: RequestSpans,
) -> Step
    requires { IsBegun (Chunks found Line) buffers.now ahead.old }
    ensures says { StepSays result (Chunks found Line) buffers.now ahead.old buffers.now ahead.new
        (view_of piece.old) (view_of piece.new) }
    ensures less { GoesOn result (left_of ahead.old piece.old) (left_of ahead.new piece.new) }
{
    match read_part(piece, ahead, Part::Line) {
        PartRead::Whole(size, _) => behind_line(found, buffers.body().len(), size),
        PartRead::Refused => Step::Ends(Came::Refused(400)),
        PartRead::CutShort => Step::Ends(Came::Awaits(Inside::Chunks {
            found,
            at: ChunkAt::Line,
        })),
        PartRead::Failed => unreachable!(),
    }
}

/// Goes on behind a chunk's line, which tells this size, and behind so many bytes of the body.
fn behind_line(found: RequestSpans, len: usize, size: u64) -> Step
    requires { len ≤ body_limit }
    ensures { LineSays result found len size }
{
    if size == 0 {
        return Step::On(Inside::Chunks {
            found,
            at: ChunkAt::Trailers,
        });
    }
    if size > (BODY_LIMIT - len) as u64 {
        return Step::Ends(Came::Refused(413));
    }
    Step::On(Inside::Chunks {
        found,
        at: ChunkAt::Bytes(len + size as usize),
    })
}

/// Reads on in a chunk.
fn take_bytes(
    piece: &mut Piece<'_>,
    ahead: &mut Ahead,
    buffers: &mut Buffers,
    found: RequestSpans,
    until: usize,
) -> Step
    requires { IsBegun (Chunks found (Bytes until)) buffers.old ahead.old }
    ensures says { StepSays result (Chunks found (Bytes until)) buffers.old ahead.old
        buffers.new ahead.new (view_of piece.old) (view_of piece.new) }
    ensures less { GoesOn result (left_of ahead.old piece.old) (left_of ahead.new piece.new) }
{
    if grow_to(piece, ahead, buffers, until) {
        Step::On(Inside::Chunks {
            found,
            at: ChunkAt::End,
        })
    } else {
        Step::Ends(Came::Awaits(Inside::Chunks {
            found,
            at: ChunkAt::Bytes(until),
        }))
    }
}

/// Reads on in the line end behind a chunk.
fn take_end(
    piece: &mut Piece<'_>,
    ahead: &mut Ahead,
    buffers: &Buffers,
    found: RequestSpans,
) -> Step
    ensures says { StepSays result (Chunks found End) buffers.now ahead.old buffers.now ahead.new
        (view_of piece.old) (view_of piece.new) }
    ensures less { GoesOn result (left_of ahead.old piece.old) (left_of ahead.new piece.new) }
{
    match read_part(piece, ahead, Part::End) {
        PartRead::Whole(_, _) => Step::On(Inside::Chunks {
            found,
            at: ChunkAt::Line,
        }),
        PartRead::Refused => Step::Ends(Came::Refused(400)),
        PartRead::CutShort => Step::Ends(Came::Awaits(Inside::Chunks {
            found,
            at: ChunkAt::End,
        })),
        PartRead::Failed => unreachable!(),
    }
}

/// Reads on in the trailers.
fn take_trailers(
    piece: &mut Piece<'_>,
    ahead: &mut Ahead,
    buffers: &Buffers,
    found: RequestSpans,
) -> Step
    ensures says { StepSays result (Chunks found Trailers) buffers.now ahead.old buffers.now ahead.new
        (view_of piece.old) (view_of piece.new) }
    ensures less { GoesOn result (left_of ahead.old piece.old) (left_of ahead.new piece.new) }
{
    match read_part(piece, ahead, Part::Trailers) {
        PartRead::Whole(_, _) => Step::Ends(Came::Whole(found)),
        PartRead::Refused => Step::Ends(Came::Refused(400)),
        PartRead::CutShort => Step::Ends(Came::Awaits(Inside::Chunks {
            found,
            at: ChunkAt::Trailers,
        })),
        PartRead::Failed => unreachable!(),
    }
}
