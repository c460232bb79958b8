// A list of containers is written with one item alone.
ghost use Rattle.std.specs.Prelude.{◌≡◌, ◌≤◌, ◌+◌, ◌++◌, ◌-◌, length, take, drop, option_map, unwrap_or, codes, IfSome};
ghost use Rattle.engine_ports.specs.Sink.{WriteSays};
ghost use Rattle.http_edge.specs.Response.{head_text};
ghost use Rattle.lab_shown.specs.Shown.{answer_of};
ghost use Rattle.lab_shown.specs.Listed as spec;

use crate::parting::{close_in, head_of};
use crate::searching::{bracket_in, place_in};
use crate::taking::Taking;
use crate::writing::write_two;
use engine_ports::Failed;
use http_edge::{Head, head_line};

/// What an item but the first begins with.
#[tactic(auto, unfolding(crate::specs::Listed::next_item))]
fn next_item() -> &'static [u8]
    ensures { result.now ≡ spec.next_item }
{
    b",{\"Command\":\""
}

/// Where a text last stands in another.
fn last_in(text: &[u8], body: &[u8]) -> Option<usize>
    ensures place { result ≡ spec.last_in text.now body.now }
    ensures within { IfSome result (λ k. k + 1 ≤ length body.now) }
{
    let mut left = body;
    let mut place = 0;
    let mut last = None;
    'bytes: while let [_, rest @ ..] = left {
        last = later_of(last, left.starts_with(text), place);
        left = rest;
        place += 1;
    }
    last
}

/// This place, where it is one, or the last one.
fn later_of(last: Option<usize>, here: bool, place: usize) -> Option<usize>
    ensures { result ≡ spec.later_of last (spec.place_if here place) }
{
    if here { Some(place) } else { last }
}

/// Where the item begins in which a place lies.
fn begin_of(body: &[u8], place: usize) -> usize
    requires { place ≤ length body.now }
    ensures { result ≡ spec.begin_of body.now place }
{
    match last_in(next_item(), &body[..place]) {
        Some(last) => last + 1,
        None => 1,
    }
}

/// How many bytes stand from a place up to the end of its item.
fn rest_of(body: &[u8], place: usize) -> usize
    requires { place ≤ length body.now }
    ensures { result ≡ spec.rest_of body.now place }
{
    let behind = &body[place..];
    match place_in(next_item(), behind) {
        Some(rest) => rest,
        None => behind.len().saturating_sub(1),
    }
}

/// What stands from one place to another: nothing where they aren't in order.
fn part_of(body: &[u8], begin: usize, end: usize) -> &[u8]
    ensures { result.now ≡ drop begin (take end body.now) }
{
    let front = &body[..end.min(body.len())];
    &front[begin.min(front.len())..]
}

/// The item in which a place lies.
fn item_at(body: &[u8], place: usize) -> &[u8]
    requires { place ≤ length body.now }
    ensures { result.now ≡ spec.item_at body.now place }
{
    let end = place.saturating_add(rest_of(body, place));
    part_of(body, begin_of(body, place), end)
}

/// The item in which a text first stands, or nothing.
fn item_in<'b>(text: &[u8], body: &'b [u8]) -> &'b [u8]
    ensures { result.now ≡ spec.item_in text.now body.now }
{
    match place_in(text, body) {
        Some(place) => item_at(body, place),
        None => &[],
    }
}

/// How many bytes a list of this item has.
fn size_of(item: &[u8]) -> u64
    ensures { result ≡ length (spec.list_of item.now) }
{
    item.len() as u64 + 2
}

fn write_three<W: Taking>(
    sink: &mut W,
    first: &[u8],
    second: &[u8],
    third: &[u8],
) -> Result<(), Failed>
    ensures { WriteSays result (first.now ++ (second.now ++ third.now))
        (W.takes sink.old) (W.takes sink.new) }
{
    sink.take(first)?;
    write_two(sink, second, third)
}

/// Writes a list of this item.
fn write_item<W: Taking>(sink: &mut W, item: &[u8]) -> Result<(), Failed>
    ensures { WriteSays result (spec.list_of item.now) (W.takes sink.old) (W.takes sink.new) }
{
    write_three(sink, b"[", item, b"]")
}

/// Writes a list of this item behind a head.
fn write_behind<W: Taking>(sink: &mut W, head: &Head, item: &[u8]) -> Result<(), Failed>
    ensures { WriteSays result (head_text head.now ++ spec.list_of item.now)
        (W.takes sink.old) (W.takes sink.new) }
{
    let line = head_line(head);
    sink.take(line.as_slice())?;
    write_item(sink, item)
}

/// Writes an answer that is a list of this item.
fn write_one<W: Taking>(sink: &mut W, close: bool, item: &[u8]) -> Result<(), Failed>
    ensures { WriteSays result (answer_of 200 close (spec.list_of item.now))
        (W.takes sink.old) (W.takes sink.new) }
{
    let size = size_of(item);
    write_behind(sink, &head_of(200, size, close), item)
}

/// Writes an answer that is a list with the item alone in which a text first stands. It takes no memory.
pub(crate) fn write_list<W: Taking>(
    sink: &mut W,
    text: &[u8],
    close: bool,
    body: &[u8],
) -> Result<(), Failed>
    ensures { WriteSays result (answer_of 200 close (spec.listed text.now body.now))
        (W.takes sink.old) (W.takes sink.new) }
{
    write_one(sink, close, item_in(text, body))
}

/// Whether a connection closes behind an answer, and its list.
#[derive(Clone, Copy)]
struct Told<'a> {
    close: bool,
    body: &'a [u8],
}

/// The list of an answer; none of another piece.
fn list_in(piece: &[u8]) -> Option<Told<'_>>
    ensures { option_map (λ t. (t.close, t.body.now)) result ≡ spec.list_in piece.now }
{
    let (head, body) = piece.split_at(bracket_in(piece));
    match close_in(head, 200, body.len() as u64) {
        Some(close) => Some(Told { close, body }),
        None => None,
    }
}

/// Writes an answer that is a list with this item alone, and another piece as it is.
pub(crate) fn write_listed<W: Taking>(sink: &mut W, text: &[u8], piece: &[u8]) -> Result<(), Failed>
    ensures { WriteSays result (spec.listed_in text.now piece.now)
        (W.takes sink.old) (W.takes sink.new) }
{
    match list_in(piece) {
        Some(told) => write_list(sink, text, told.close, told.body),
        None => sink.take(piece),
    }
}

/// Whether a piece is the head of an answer of status 200 by itself.
fn is_alone(piece: &[u8]) -> bool
    ensures { result ≡ spec.is_alone piece.now }
{
    piece.starts_with(b"HTTP/1.1 200 OK\r\n") && piece.ends_with(b"\r\n\r\n")
}

/// Whether the connection closes behind an answer of status 200 of which a piece is the head alone.
pub fn head_alone(piece: &[u8]) -> Option<bool>
    ensures { result ≡ spec.head_alone piece.now }
{
    if is_alone(piece) {
        return Some(place_in(b"\r\nConnection: close\r\n", piece).is_some());
    }
    None
}
