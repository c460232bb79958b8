// Bytes of a body, handed out.
ghost use Rattle.std.specs.Prelude.{◌≡◌, ◌≢◌, ◌<◌, ◌≤◌, [], length, take, drop};
ghost use Rattle.response_reader.specs.Steps.{MoreSays, missing_in, left_after, is_line_end, is_line};

use crate::framing::Left;
use engine_ports::{Got, Source};
use http_edge::Ahead;

/// Whether bytes stand ahead.
#[derive(Clone, Copy)]
pub(crate) enum More {
    Some,
    End,
    Failed,
}

/// Reads where no byte stands ahead.
pub(crate) fn read_more<S: Source>(source: &mut S, ahead: &mut Ahead) -> More
    ensures { MoreSays result ahead.old ahead.new (S.gives source.old) (S.gives source.new) }
{
    if ahead.len() > 0 {
        return More::Some;
    }
    match ahead.read(source) {
        Got::Bytes(_) => More::Some,
        Got::End => More::End,
        Got::Failed => More::Failed,
    }
}

/// Moves at most so many of the bytes ahead to the place, and answers how many.
pub(crate) fn hand_out(ahead: &mut Ahead, into: &mut [u8], most: u64) -> usize
    requires some { ahead.old ≢ [] }
    requires place { 0 < length into.old }
    requires most { 0 < most }
    ensures count { (0 < result) × (result ≤ length into.new) × (result ≤ most)
        × (result ≤ length ahead.old) }
    ensures front { take result into.new ≡ take result ahead.old }
    ensures left { ahead.new ≡ drop result ahead.old }
{
    let room = into.len();
    if most < room as u64 {
        return ahead.take(&mut into[..most as usize]);
    }
    ahead.take(into)
}

/// How many bytes of the body may come next.
pub(crate) fn missing_in(left: Left) -> u64
    ensures { result ≡ missing_in left }
{
    match left {
        Left::Sized(missing) | Left::Piece(missing) => missing,
        Left::UntilEnd => u64::MAX,
        Left::Chunk | Left::Over => 0,
    }
}

/// What is left behind so many bytes of the body.
pub(crate) fn left_after(left: Left, count: u64) -> Left
    requires { count ≤ missing_in left }
    ensures { result ≡ left_after left count }
{
    match left {
        Left::Sized(missing) => Left::Sized(missing - count),
        Left::Piece(missing) => Left::Piece(missing - count),
        other => other,
    }
}

/// Whether the line end behind a piece comes next.
pub(crate) fn is_line_end(left: Left) -> bool
    ensures { result ≡ is_line_end left }
{
    match left {
        Left::Piece(missing) => missing == 0,
        _ => false,
    }
}

/// Whether the line of a chunk comes next.
pub(crate) fn is_line(left: Left) -> bool
    ensures { result ≡ is_line left }
{
    match left {
        Left::Chunk => true,
        _ => false,
    }
}
