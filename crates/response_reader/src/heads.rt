// Heads, told from the front of the input: each head that may stand there is compared with it.
ghost use Rattle.std.specs.Prelude.{◌≡◌, ◌<◌, ◌≤◌, ◌^◌, length};
ghost use Rattle.response_reader.specs.Heads.{IsFinal, is_bare, HasBody, Fits, IsTextOf};
ghost use Rattle.response_reader.specs.Matching.{takeover, either, head_with, FrontSays, IsOne, IsNumbered, IsStreaming, IsFramedWith, IsFramed, StatusSays, StatusFacts};

use crate::numbers::{first_difference, leading_number};
use http_edge::{Form, Head, head_line};
use itoa::Buffer;

/// What the front of the input is.
#[derive(Clone, Copy, Debug, PartialEq, Eq)]
pub(crate) enum Front {
    /// This head, of so many bytes.
    Head(Head, usize),
    /// A part of a head.
    Part,
    /// No head, whatever follows.
    Never,
}

/// The forms of head that tell a number.
#[derive(Clone, Copy, Debug, PartialEq, Eq)]
pub(crate) enum Numbered {
    Json,
    Plain,
    Events,
}

/// A head that takes the connection over, upgraded or as it is.
fn takeover(upgrade: bool) -> Head
    ensures { result ≡ takeover upgrade }
{
    Head {
        status: if upgrade { 101 } else { 200 },
        form: Form::Takeover { upgrade },
        close: false,
    }
}

/// Tells which head the bytes begin with.
pub(crate) fn front_of(bytes: &[u8]) -> Front
    ensures { FrontSays IsTextOf result bytes.now }
{
    let taken_over = either(
        front_by(bytes, takeover(true)),
        front_by(bytes, takeover(false)),
    );
    match first_status(&bytes[bytes.len().min(9)..]) {
        Some(status) => either(taken_over, framed_front(bytes, status)),
        None => taken_over,
    }
}

/// Of two answers on the same bytes the one that counts.
fn either(one: Front, other: Front) -> Front
    ensures { result ≡ either one other }
{
    match one {
        Front::Head(..) => one,
        Front::Never => other,
        Front::Part => match other {
            Front::Head(..) => other,
            _ => one,
        },
    }
}

/// Compares the bytes with this head.
fn front_by(bytes: &[u8], head: Head) -> Front
    requires { Fits head.form head.status head.close }
    ensures { FrontSays (IsOne head) result bytes.now }
{
    let line = head_line(&head);
    let text = line.as_slice();
    let len = bytes.len().min(text.len());
    if bytes[..len] != text[..len] {
        return Front::Never;
    }
    if len < text.len() {
        return Front::Part;
    }
    Front::Head(head, len)
}

// ---- the status

/// The first final status that the bytes may begin with.
fn first_status(bytes: &[u8]) -> Option<u16>
    ensures { StatusSays result bytes.now }
{
    for status in 200..600 {
        if may_begin(bytes, status) {
            return Some(status);
        }
    }
    None
}

/// Whether the bytes begin with the status, or are a part of it.
fn may_begin(bytes: &[u8], status: u16) -> bool
    ensures { StatusFacts result status bytes.now }
{
    let mut buffer = Buffer::new();
    let digits = buffer.format(status).as_bytes();
    let len = bytes.len().min(digits.len());
    bytes[..len] == digits[..len]
}

/// 204 and 304 have no body.
fn is_bare(status: u16) -> bool
    ensures { result ≡ is_bare status }
{
    status == 204 || status == 304
}

// ---- the forms

/// Compares the bytes with the heads of this status.
fn framed_front(bytes: &[u8], status: u16) -> Front
    requires { IsFinal status }
    ensures { FrontSays (IsFramed status) result bytes.now }
{
    either(
        front_with(bytes, status, true),
        front_with(bytes, status, false),
    )
}

/// Compares the bytes with those that close the connection, or those that don't.
fn front_with(bytes: &[u8], status: u16, close: bool) -> Front
    requires { IsFinal status }
    ensures { FrontSays (IsFramedWith status close) result bytes.now }
{
    if is_bare(status) {
        return front_by(
            bytes,
            Head {
                status,
                form: Form::Empty,
                close,
            },
        );
    }
    either(
        either(
            numbered_front(bytes, Numbered::Json, status, close),
            numbered_front(bytes, Numbered::Plain, status, close),
        ),
        stream_front(bytes, status, close),
    )
}

/// Compares the bytes with the heads of streams.
fn stream_front(bytes: &[u8], status: u16, close: bool) -> Front
    requires { HasBody status }
    ensures { FrontSays (IsStreaming status close) result bytes.now }
{
    let frames = Head {
        status,
        form: Form::ChunkedFrames,
        close,
    };
    let text = Head {
        status,
        form: Form::ChunkedPlain,
        close,
    };
    let events = Head {
        status,
        form: Form::ChunkedJson { first: None },
        close,
    };
    either(
        either(front_by(bytes, frames), front_by(bytes, text)),
        either(
            front_by(bytes, events),
            numbered_front(bytes, Numbered::Events, status, close),
        ),
    )
}

/// Compares the bytes with the heads of a form that tells a number: with the one that tells 0, and with
/// the one that tells the number that stands where the bytes differ from that.
fn numbered_front(bytes: &[u8], kind: Numbered, status: u16, close: bool) -> Front
    requires { HasBody status }
    ensures { FrontSays (IsNumbered kind status close) result bytes.now }
{
    let zero = head_with(kind, status, close, 0);
    let place = first_difference(bytes, head_line(&zero).as_slice());
    let number = leading_number(&bytes[place..]);
    either(
        front_by(bytes, zero),
        front_by(bytes, head_with(kind, status, close, number)),
    )
}

/// The head of this form that tells this number.
fn head_with(kind: Numbered, status: u16, close: bool, number: u64) -> Head
    ensures { result ≡ head_with kind status close number }
{
    let form = match kind {
        Numbered::Json => Form::Json(number),
        Numbered::Plain => Form::Plain(number),
        Numbered::Events => Form::ChunkedJson {
            first: Some(number),
        },
    };
    Head {
        status,
        form,
        close,
    }
}
