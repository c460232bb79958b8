// The head at the front of the input.
ghost use Rattle.std.specs.Prelude.{◌≡◌, ◌<◌, ◌≤◌, List, ℕ, length};
ghost use Rattle.std.specs.Vec.{vec_capacity};
ghost use Rattle.http_edge.specs.Limits.{head_limit, field_places};
ghost use Rattle.http_edge.specs.Reading.{Fills, HeadFacts, ParseFacts};

use crate::ahead::Ahead;
use crate::limits::{FIELD_PLACES, HEAD_LIMIT};
use engine_ports::{Got, Source};
use httparse::spans::{EMPTY_HEADER_SPAN, HeaderSpan, RequestSpans, parse_request};
use httparse::{Error, Status};

/// What bytes are, read as a head.
#[derive(Clone, Copy)]
pub(crate) enum Parsed {
    Head(RequestSpans),
    /// A part of a head.
    Part,
    Malformed,
}

/// Reads bytes as a head. Where it has more fields than there are places, places are made for all
/// that it can have.
fn parse_head(bytes: &[u8], spans: &mut Vec<HeaderSpan>) -> Parsed
    requires small { length bytes.now ≤ head_limit }
    requires room { field_places ≤ vec_capacity spans.old }
    ensures room { field_places ≤ vec_capacity spans.new }
    ensures facts { ParseFacts result bytes.now spans.new.items }
{
    match parse_request(bytes, spans) {
        Ok(Status::Complete(head)) => Parsed::Head(head),
        Ok(Status::Partial) => Parsed::Part,
        Err(error) => {
            if error == Error::TooManyHeaders {
                return parse_crowded(bytes, spans);
            }
            Parsed::Malformed
        }
    }
}

/// Makes places for all fields that can stand in the bytes, which have room, and reads them again.
fn parse_crowded(bytes: &[u8], spans: &mut Vec<HeaderSpan>) -> Parsed
    requires small { length bytes.now ≤ head_limit }
    requires room { field_places ≤ vec_capacity spans.old }
    ensures room { field_places ≤ vec_capacity spans.new }
    ensures facts { ParseFacts result bytes.now spans.new.items }
{
    match spans.resize(FIELD_PLACES, EMPTY_HEADER_SPAN) {
        Ok(()) => parse_with_room(bytes, spans),
        Err(_) => unreachable!(),
    }
}

/// The same where there are places for all fields.
fn parse_with_room(bytes: &[u8], spans: &mut [HeaderSpan]) -> Parsed
    requires small { length bytes.now ≤ head_limit }
    requires room { field_places ≤ length spans.old }
    ensures { ParseFacts result bytes.now spans.new }
{
    match parse_request(bytes, spans) {
        Ok(Status::Complete(head)) => Parsed::Head(head),
        Ok(Status::Partial) => Parsed::Part,
        Err(_) => Parsed::Malformed,
    }
}

/// What the front of the input is.
#[derive(Clone, Copy)]
pub enum HeadRead {
    Head(RequestSpans),
    Malformed,
    TooLong,
    End,
    CutShort,
    Failed,
}

/// Reads until the bytes ahead begin with a head. They stay there.
pub(crate) fn read_head<S: Source>(
    source: &mut S,
    ahead: &mut Ahead,
    spans: &mut Vec<HeaderSpan>,
) -> HeadRead
    requires room { field_places ≤ vec_capacity spans.old }
    ensures room { field_places ≤ vec_capacity spans.new }
    ensures within { length ahead.new ≤ head_limit }
    ensures fills { Fills ahead.old ahead.new (S.gives source.old) (S.gives source.new) }
    ensures facts { HeadFacts result ahead.new spans.new.items
        (S.gives source.old) (S.gives source.new) }
{
    'more: loop {
        let len = ahead.len();
        match parse_head(ahead.as_slice(), spans) {
            Parsed::Head(head) => return HeadRead::Head(head),
            Parsed::Part => {}
            Parsed::Malformed => return HeadRead::Malformed,
        }
        if len == HEAD_LIMIT {
            return HeadRead::TooLong;
        }
        match ahead.read(source) {
            Got::Bytes(_) => {}
            Got::End if len == 0 => return HeadRead::End,
            Got::End => return HeadRead::CutShort,
            Got::Failed => return HeadRead::Failed,
        }
    }
}
