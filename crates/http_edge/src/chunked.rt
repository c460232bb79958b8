// A body by chunks.
ghost use Rattle.std.specs.Prelude.{◌≡◌, ◌<◌, ◌≤◌, ◌+◌, ℕ, List, length, take, drop};
ghost use Rattle.std.specs.Vec.{vec_capacity};
ghost use Rattle.http_edge.specs.Limits.{body_limit, line_limit};
ghost use Rattle.http_edge.specs.Reading.{FillSays};
ghost use Rattle.http_edge.specs.Bodies.{BodySays};
ghost use Rattle.http_edge.specs.Chunking.{GrowSays, ChunkSays, BehindLine};
ghost use Rattle.http_edge.specs.declared.framing.Framing.TheVariants.{Chunked};

use crate::ahead::Ahead;
use crate::body::BodyRead;
use crate::fill::{Filled, fill};
use crate::limits::BODY_LIMIT;
use crate::parts::{Part, PartRead, read_part};
use engine_ports::Source;

/// What the next bytes of a body by chunks are.
#[derive(Clone, Copy)]
pub(crate) enum ChunkRead {
    /// A chunk, which so many bytes spell.
    Chunk(usize),
    /// The end of the body, which so many bytes spell.
    Last(usize),
    Refused(u16),
    CutShort,
    Failed,
}

/// Reads a body by chunks.
pub(crate) fn read_chunked<S: Source>(
    source: &mut S,
    ahead: &mut Ahead,
    body: &mut Vec<u8>,
) -> BodyRead
    requires room { body_limit ≤ vec_capacity body.old }
    ensures room { body_limit ≤ vec_capacity body.new }
    ensures says { BodySays Chunked result ahead.old ahead.new body.new.items
        (S.gives source.old) (S.gives source.new) }
{
    body.clear();
    let mut count = 0;
    'more: loop {
        match read_chunk(source, ahead, body) {
            ChunkRead::Chunk(more) => count += more,
            ChunkRead::Last(more) => return BodyRead::Whole(count + more),
            ChunkRead::Refused(status) => return BodyRead::Refused(status),
            ChunkRead::CutShort => return BodyRead::CutShort,
            ChunkRead::Failed => return BodyRead::Failed,
        }
    }
}

/// Reads a chunk behind the bytes of the body, or the end of the body.
fn read_chunk<S: Source>(source: &mut S, ahead: &mut Ahead, body: &mut Vec<u8>) -> ChunkRead
    requires fits { length body.old.items ≤ body_limit }
    requires room { body_limit ≤ vec_capacity body.old }
    ensures room { body_limit ≤ vec_capacity body.new }
    ensures says { ChunkSays result ahead.old ahead.new body.old.items body.new.items
        (S.gives source.old) (S.gives source.new) }
{
    match read_part(source, ahead, Part::Line) {
        PartRead::Whole(size, count) => read_sized(source, ahead, body, size, count),
        PartRead::Refused => ChunkRead::Refused(400),
        PartRead::CutShort => ChunkRead::CutShort,
        PartRead::Failed => ChunkRead::Failed,
    }
}

/// Reads what follows a chunk's line, which tells this size and has so many bytes.
fn read_sized<S: Source>(
    source: &mut S,
    ahead: &mut Ahead,
    body: &mut Vec<u8>,
    size: u64,
    count: usize,
) -> ChunkRead
    requires fits { length body.old.items ≤ body_limit }
    requires short { count ≤ line_limit }
    requires room { body_limit ≤ vec_capacity body.old }
    ensures room { body_limit ≤ vec_capacity body.new }
    ensures says { BehindLine result size count ahead.old ahead.new body.old.items body.new.items
        (S.gives source.old) (S.gives source.new) }
{
    if size == 0 {
        return read_last(source, ahead, count);
    }
    if size > (BODY_LIMIT - body.len()) as u64 {
        return ChunkRead::Refused(413);
    }
    read_piece(source, ahead, body, size as usize, count)
}

/// Reads the trailers behind a line that tells no bytes, and has so many.
fn read_last<S: Source>(source: &mut S, ahead: &mut Ahead, count: usize) -> ChunkRead
    requires short { count ≤ line_limit }
    ensures { (body : List ℕ) → BehindLine result 0 count ahead.old ahead.new body body
        (S.gives source.old) (S.gives source.new) }
{
    match read_part(source, ahead, Part::Trailers) {
        PartRead::Whole(_, more) => ChunkRead::Last(count + more),
        PartRead::Refused => ChunkRead::Refused(400),
        PartRead::CutShort => ChunkRead::CutShort,
        PartRead::Failed => ChunkRead::Failed,
    }
}

/// Reads so many bytes of the body, and the line end behind them.
fn read_piece<S: Source>(
    source: &mut S,
    ahead: &mut Ahead,
    body: &mut Vec<u8>,
    size: usize,
    count: usize,
) -> ChunkRead
    requires some { 0 < size }
    requires fits { length body.old.items + size ≤ body_limit }
    requires short { count ≤ line_limit }
    requires room { body_limit ≤ vec_capacity body.old }
    ensures room { body_limit ≤ vec_capacity body.new }
    ensures says { BehindLine result size count ahead.old ahead.new body.old.items body.new.items
        (S.gives source.old) (S.gives source.new) }
{
    match grow(source, ahead, body, size) {
        Filled::Whole => {}
        Filled::CutShort => return ChunkRead::CutShort,
        Filled::Failed => return ChunkRead::Failed,
    }
    match read_part(source, ahead, Part::End) {
        PartRead::Whole(_, _) => ChunkRead::Chunk(count + size + 2),
        PartRead::Refused => ChunkRead::Refused(400),
        PartRead::CutShort => ChunkRead::CutShort,
        PartRead::Failed => ChunkRead::Failed,
    }
}

/// Reads so many bytes behind those of the body.
fn grow<S: Source>(source: &mut S, ahead: &mut Ahead, body: &mut Vec<u8>, size: usize) -> Filled
    requires fits { length body.old.items + size ≤ body_limit }
    requires room { body_limit ≤ vec_capacity body.old }
    ensures room { body_limit ≤ vec_capacity body.new }
    ensures says { GrowSays result size ahead.old ahead.new body.old.items body.new.items
        (S.gives source.old) (S.gives source.new) }
{
    let start = body.len();
    let Ok(()) = body.resize(start + size, 0) else {
        unreachable!()
    };
    fill_behind(source, ahead, body, start)
}

/// Fills the place behind the first bytes of the buffer.
fn fill_behind<S: Source>(
    source: &mut S,
    ahead: &mut Ahead,
    buffer: &mut [u8],
    start: usize,
) -> Filled
    requires { start ≤ length buffer.old }
    ensures front { take start buffer.new ≡ take start buffer.old }
    ensures says { FillSays result ahead.old ahead.new (drop start buffer.new)
        (S.gives source.old) (S.gives source.new) }
{
    fill(source, ahead, &mut buffer[start..])
}
