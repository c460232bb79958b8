// The head of a request, in pieces.
ghost use Rattle.std.specs.Prelude.{◌≡◌, ◌≤◌, [], length};
ghost use Rattle.httparse.specs.Spans.{IsRequestWithin, IsRequestOf};
ghost use Rattle.http_edge.specs.Limits.{head_limit};
ghost use Rattle.request_pieces.specs.Pieces.{view_of, left_of};
ghost use Rattle.request_pieces.specs.Taking.{StepSays, GoesOn, FrameSays};
ghost use Rattle.request_pieces.specs.declared.standing.Inside.TheVariants.{Head};

use crate::source::Piece;
use crate::standing::{Came, ChunkAt, Inside, Step};
use http_edge::{Ahead, Buffers, Framing, HeadRead};
use httparse::spans::RequestSpans;

/// Reads on in a head, or before it.
pub(crate) fn take_head(piece: &mut Piece<'_>, ahead: &mut Ahead, buffers: &mut Buffers) -> Step
    ensures says { StepSays result Head buffers.old ahead.old buffers.new ahead.new
        (view_of piece.old) (view_of piece.new) }
    ensures less { GoesOn result (left_of ahead.old piece.old) (left_of ahead.new piece.new) }
{
    buffers.clear();
    match buffers.read_head(piece, ahead) {
        HeadRead::Head(found) => take_framed(ahead, buffers, found),
        HeadRead::Malformed => Step::Ends(Came::Refused(400)),
        HeadRead::TooLong => Step::Ends(Came::Refused(431)),
        HeadRead::End => Step::Ends(Came::Awaits(Inside::Head)),
        HeadRead::CutShort => Step::Ends(Came::Awaits(Inside::Head)),
        HeadRead::Failed => unreachable!(),
    }
}

/// Takes the head that the bytes ahead begin with.
fn take_framed(ahead: &mut Ahead, buffers: &mut Buffers, found: RequestSpans) -> Step
    requires small { length ahead.old ≤ head_limit }
    requires within { IsRequestWithin ahead.old buffers.old.spans found }
    requires of { IsRequestOf ahead.old buffers.old.spans found }
    requires none { buffers.old.body ≡ [] }
    ensures { FrameSays result buffers.new ahead.new ahead.old }
{
    match buffers.take_head(ahead, found) {
        Framing::Length(size) => Step::On(Inside::Body { found, size }),
        Framing::Chunked => Step::On(Inside::Chunks {
            found,
            at: ChunkAt::Line,
        }),
        Framing::Refused(status) => Step::Ends(Came::Refused(status)),
    }
}
