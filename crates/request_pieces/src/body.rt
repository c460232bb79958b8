// A body of so many bytes, in pieces.
ghost use Rattle.std.specs.Prelude.{◌≡◌, ◌≤◌, length};
ghost use Rattle.http_edge.specs.Limits.{body_limit};
ghost use Rattle.request_pieces.specs.Pieces.{view_of, left_of};
ghost use Rattle.request_pieces.specs.Standing.{IsBegun};
ghost use Rattle.request_pieces.specs.Taking.{StepSays, GoesOn, GrowSays};
ghost use Rattle.request_pieces.specs.declared.standing.Inside.TheVariants.{Body};

use crate::source::Piece;
use crate::standing::{Came, Inside, Step};
use http_edge::{Ahead, Buffers};
use httparse::spans::RequestSpans;

/// Adds bytes to the body, first those ahead, until it has so many; whether it has.
pub(crate) fn grow_to(
    piece: &mut Piece<'_>,
    ahead: &mut Ahead,
    buffers: &mut Buffers,
    until: usize,
) -> bool
    requires fits { until ≤ body_limit }
    requires part { length buffers.old.body ≤ until }
    ensures says { GrowSays result until buffers.old.body buffers.new.body ahead.old ahead.new
        (view_of piece.old) (view_of piece.new) }
    ensures head { buffers.new.head ≡ buffers.old.head }
    ensures spans { buffers.new.spans ≡ buffers.old.spans }
{
    let wanted = until - buffers.body().len();
    let held = ahead.len().min(wanted);
    buffers.push_body(&ahead.as_slice()[..held]);
    ahead.skip(held);
    buffers.push_body(piece.take(wanted - held));
    buffers.body().len() == until
}

/// Reads on in a body of so many bytes.
pub(crate) fn take_body(
    piece: &mut Piece<'_>,
    ahead: &mut Ahead,
    buffers: &mut Buffers,
    found: RequestSpans,
    size: usize,
) -> Step
    requires { IsBegun (Body found size) buffers.old ahead.old }
    ensures says { StepSays result (Body found size) buffers.old ahead.old buffers.new ahead.new
        (view_of piece.old) (view_of piece.new) }
    ensures less { GoesOn result (left_of ahead.old piece.old) (left_of ahead.new piece.new) }
{
    if grow_to(piece, ahead, buffers, size) {
        Step::Ends(Came::Whole(found))
    } else {
        Step::Ends(Came::Awaits(Inside::Body { found, size }))
    }
}
