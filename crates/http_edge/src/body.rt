// The body behind a head.
ghost use Rattle.std.specs.Prelude.{◌≡◌, ◌≤◌};
ghost use Rattle.http_edge.specs.Limits.{body_limit};
ghost use Rattle.std.specs.Vec.{vec_capacity};
ghost use Rattle.http_edge.specs.Framing.{IsWithinLimit};
ghost use Rattle.http_edge.specs.Bodies.{BodySays};
ghost use Rattle.http_edge.specs.declared.framing.Framing.TheVariants.{Length};

use crate::ahead::Ahead;
use crate::chunked::read_chunked;
use crate::fill::{Filled, fill};
use crate::framing::Framing;
use engine_ports::Source;

/// What the bytes behind a head are.
#[derive(Clone, Copy)]
pub(crate) enum BodyRead {
    /// A body, which so many bytes spell.
    Whole(usize),
    Refused(u16),
    CutShort,
    Failed,
}

/// Reads the body that is framed so.
pub(crate) fn read_body<S: Source>(
    source: &mut S,
    ahead: &mut Ahead,
    body: &mut Vec<u8>,
    framing: Framing,
) -> BodyRead
    requires fits { IsWithinLimit framing }
    requires room { body_limit ≤ vec_capacity body.old }
    ensures room { body_limit ≤ vec_capacity body.new }
    ensures says { BodySays framing result ahead.old ahead.new body.new.items
        (S.gives source.old) (S.gives source.new) }
{
    match framing {
        Framing::Length(size) => read_sized(source, ahead, body, size),
        Framing::Chunked => read_chunked(source, ahead, body),
        Framing::Refused(status) => BodyRead::Refused(status),
    }
}

/// Reads a body of so many bytes.
fn read_sized<S: Source>(
    source: &mut S,
    ahead: &mut Ahead,
    body: &mut Vec<u8>,
    size: usize,
) -> BodyRead
    requires fits { size ≤ body_limit }
    requires room { body_limit ≤ vec_capacity body.old }
    ensures room { body_limit ≤ vec_capacity body.new }
    ensures says { BodySays (Length size) result ahead.old ahead.new body.new.items
        (S.gives source.old) (S.gives source.new) }
{
    let Ok(()) = body.resize(size, 0) else {
        unreachable!()
    };
    match fill(source, ahead, body) {
        Filled::Whole => BodyRead::Whole(size),
        Filled::CutShort => BodyRead::CutShort,
        Filled::Failed => BodyRead::Failed,
    }
}
