// How the body of a request is framed, and which heads are refused.
ghost use Rattle.std.specs.Prelude.{◌≡◌, ◌≤◌, List, ℕ, [], ◌∷◌, true, length, map, All};
ghost use Rattle.std.specs.List.{list_all};
ghost use Rattle.std.specs.Char.{is_ascii_digit};
ghost use Rattle.std.specs.Str.Parse.{digits_value};
ghost use Rattle.httparse.specs.Spans.{IsHeaderWithin, header_bytes};
ghost use Rattle.http_edge.specs.Fields.{Counts};
ghost use Rattle.http_edge.specs.Framing.{is_length, length_framing, body_framing, IsWithinLimit, framing_of};

use crate::fields::{Occurrences, find_named};
use crate::limits::{BODY_LIMIT, DIGIT_LIMIT, FIELD_LIMIT};
use httparse::spans::HeaderSpan;

/// How a body is framed.
#[derive(Clone, Copy, Debug, PartialEq, Eq)]
pub enum Framing {
    /// So many bytes.
    Length(usize),
    /// By chunks.
    Chunked,
    /// Not at all: the head is refused with a status.
    Refused(u16),
}

/// The framing of a head, whose fields stand in these bytes.
pub(crate) fn frame_head(bytes: &[u8], minor: u8, fields: &[HeaderSpan]) -> Framing
    requires { All (IsHeaderWithin (length bytes.now)) fields.now }
    ensures framing { result ≡ framing_of minor (map (header_bytes bytes.now) fields.now) }
    ensures fits { IsWithinLimit result }
{
    if minor == 0 {
        return Framing::Refused(505);
    }
    if fields.len() > FIELD_LIMIT {
        return Framing::Refused(431);
    }
    match find_named(bytes, fields, b"host") {
        Occurrences::One(_) => {}
        _ => return Framing::Refused(400),
    }
    match find_named(bytes, fields, b"expect") {
        Occurrences::None => {}
        _ => return Framing::Refused(417),
    }
    let codings = find_named(bytes, fields, b"transfer-encoding");
    let lengths = find_named(bytes, fields, b"content-length");
    body_framing(codings, lengths)
}

/// The framing by the values of Transfer-Encoding and Content-Length.
fn body_framing(codings: Occurrences<'_>, lengths: Occurrences<'_>) -> Framing
    ensures framing { (cs ls : List (List ℕ)) → Counts codings.entry cs → Counts lengths.entry ls
        → result ≡ body_framing cs ls }
    ensures fits { IsWithinLimit result }
{
    match (codings, lengths) {
        (Occurrences::None, Occurrences::None) => Framing::Length(0),
        (Occurrences::None, Occurrences::One(digits)) => length_framing(digits),
        (Occurrences::One(coding), Occurrences::None) => coding_framing(coding),
        _ => Framing::Refused(400),
    }
}

/// The framing by a value of Transfer-Encoding.
fn coding_framing(coding: &[u8]) -> Framing
    ensures framing { result ≡ body_framing (coding.now ∷ []) [] }
    ensures fits { IsWithinLimit result }
{
    if coding.eq_ignore_ascii_case(b"chunked") {
        Framing::Chunked
    } else {
        Framing::Refused(400)
    }
}

/// The framing by a value of Content-Length.
fn length_framing(digits: &[u8]) -> Framing
    ensures framing { result ≡ length_framing digits.now }
    ensures fits { IsWithinLimit result }
{
    if !is_length(digits) {
        return Framing::Refused(400);
    }
    let length = number(digits);
    if length <= BODY_LIMIT as u64 {
        Framing::Length(length as usize)
    } else {
        Framing::Refused(413)
    }
}

/// Whether these are 1 to 18 digits.
fn is_length(digits: &[u8]) -> bool
    ensures { result ≡ is_length digits.now }
{
    !digits.is_empty() && digits.len() <= DIGIT_LIMIT && are_digits(digits)
}

/// Whether these are digits alone.
fn are_digits(bytes: &[u8]) -> bool
    ensures { result ≡ list_all is_ascii_digit bytes.now }
{
    bytes.iter().all(|byte| byte.is_ascii_digit())
}

/// The number that the digits write.
fn number(digits: &[u8]) -> u64
    requires { is_length digits.now ≡ true }
    ensures { result ≡ digits_value 10 digits.now }
{
    let mut number: u64 = 0;
    for digit in digits {
        number = number * 10 + u64::from(*digit - b'0');
    }
    number
}
