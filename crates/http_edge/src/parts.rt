// The parts of a body by chunks that are not bytes of the body.
ghost use Rattle.std.specs.Prelude.{◌≡◌, ◌<◌, ◌≤◌, List, ℕ, length, take};
ghost use Rattle.http_edge.specs.Limits.{head_limit, trailer_limit};
ghost use Rattle.http_edge.specs.Parts.{part_limit, part_window};
ghost use Rattle.http_edge.specs.Chunking.{PartFacts, PartSays};
ghost use Rattle.http_edge.specs.declared.parts.Part.TheVariants.{Line, End, Trailers};

use crate::ahead::Ahead;
use crate::limits::{LINE_LIMIT, TRAILER_LIMIT, TRAILER_PLACES};
use engine_ports::{Got, Source};
use httparse::spans::{EMPTY_HEADER_SPAN, parse_headers};
use httparse::{Status, parse_chunk_size};

/// A part of a body by chunks that is not bytes of the body.
#[derive(Clone, Copy)]
pub enum Part {
    /// The line before a chunk.
    Line,
    /// The line end behind a chunk.
    End,
    /// The fields behind the last chunk, and an empty line.
    Trailers,
}

/// What bytes are, read as a part.
#[derive(Clone, Copy)]
pub(crate) enum PartParsed {
    /// They begin with one: the size that it tells, and how many bytes it has.
    Whole(u64, usize),
    Piece,
    Malformed,
}

/// Reads bytes as a part.
fn parse_part(part: Part, bytes: &[u8]) -> PartParsed
    requires small { length bytes.now ≤ part_limit part }
    ensures { PartFacts part result bytes.now }
{
    match part {
        Part::Line => parse_line(bytes),
        Part::End => parse_end(bytes),
        Part::Trailers => parse_trailers(bytes),
    }
}

fn parse_line(bytes: &[u8]) -> PartParsed
    ensures { PartFacts Line result bytes.now }
{
    match parse_chunk_size(bytes) {
        Ok(Status::Complete((len, size))) => PartParsed::Whole(size, len),
        Ok(Status::Partial) => PartParsed::Piece,
        Err(_) => PartParsed::Malformed,
    }
}

fn parse_end(bytes: &[u8]) -> PartParsed
    ensures { PartFacts End result bytes.now }
{
    match bytes {
        [b'\r', b'\n', ..] => PartParsed::Whole(0, 2),
        [] | [b'\r'] => PartParsed::Piece,
        _ => PartParsed::Malformed,
    }
}

/// There are places for all fields that can stand in the bytes. They are many, and have no place on
/// the stack of who reads no trailers.
#[cold]
#[inline(never)]
fn parse_trailers(bytes: &[u8]) -> PartParsed
    requires small { length bytes.now ≤ trailer_limit }
    ensures { PartFacts Trailers result bytes.now }
{
    let mut places = [EMPTY_HEADER_SPAN; TRAILER_PLACES];
    match parse_headers(bytes, &mut places) {
        Ok(Status::Complete((len, _))) => PartParsed::Whole(0, len),
        Ok(Status::Partial) => PartParsed::Piece,
        Err(_) => PartParsed::Malformed,
    }
}

/// What the next bytes are, read as a part.
#[derive(Clone, Copy)]
pub enum PartRead {
    /// The part: the size that it tells, and how many bytes it had.
    Whole(u64, usize),
    Refused,
    CutShort,
    Failed,
}

fn limit_of(part: Part) -> usize
    ensures { result ≡ part_limit part }
{
    match part {
        Part::Line => LINE_LIMIT,
        Part::End => 2,
        Part::Trailers => TRAILER_LIMIT,
    }
}

/// The bytes in which a part has to stand.
fn window(part: Part, bytes: &[u8]) -> &[u8]
    ensures { result.now ≡ part_window part bytes.now }
{
    &bytes[..bytes.len().min(limit_of(part))]
}

/// Reads until the bytes ahead begin with the part, and takes it.
pub fn read_part<S: Source>(source: &mut S, ahead: &mut Ahead, part: Part) -> PartRead
    ensures { PartSays part result ahead.old ahead.new (S.gives source.old) (S.gives source.new) }
{
    'more: loop {
        match parse_part(part, window(part, ahead.as_slice())) {
            PartParsed::Whole(size, count) => {
                ahead.skip(count);
                return PartRead::Whole(size, count);
            }
            PartParsed::Piece => {}
            PartParsed::Malformed => return PartRead::Refused,
        }
        if ahead.len() >= limit_of(part) {
            return PartRead::Refused;
        }
        match ahead.read(source) {
            Got::Bytes(_) => {}
            Got::End => return PartRead::CutShort,
            Got::Failed => return PartRead::Failed,
        }
    }
}
