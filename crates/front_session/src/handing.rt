// Bytes that are handed on.
ghost use Rattle.std.specs.Prelude.{◌≡◌, ◌<◌, ◌≤◌, length, take, drop, min};
ghost use Rattle.front_session.specs.Steps.{Hands};

use crate::stepping::Act;
use http_edge::Ahead;

/// Moves at most so many of the bytes ahead to the place, and answers how many.
fn give(ahead: &mut Ahead, most: usize, into: &mut [u8]) -> usize
    requires { most ≤ length into.old }
    ensures count { result ≡ min (length ahead.old) most }
    ensures front { take result into.new ≡ take result ahead.old }
    ensures left { ahead.new ≡ drop result ahead.old }
{
    ahead.take(&mut into[..most])
}

/// Hands on at most so many bytes: of those ahead, or, where none is, as they come.
pub(crate) fn hand(ahead: &mut Ahead, most: usize, into: &mut [u8]) -> Act
    requires some { 0 < most }
    requires place { 0 < length into.old }
    ensures { Hands most result into.new ahead.old ahead.new }
{
    let size = most.min(into.len());
    if ahead.len() == 0 {
        return Act::Passes(size);
    }
    Act::Gave(give(ahead, size, into))
}
