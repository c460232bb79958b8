// The values of a query.
ghost use Rattle.std.specs.Prelude.{◌≡◌, ◌≤◌, ◌+◌, ◌==◌, ◌∷◌, length, drop, option_map};
ghost use Rattle.std.specs.List.{after_first, position, position_or_len};
ghost use Rattle.lab_front.specs.Queries as spec;

use crate::path::{cut_at, is_between};

/// What stands behind the first question mark of a target.
pub fn query_of(target: &str) -> &str
    ensures { result.now ≡ spec.query_of target.now }
{
    let (_, query) = cut_at(target, '?');
    query
}

/// Where the first such byte stands.
fn place_of(bytes: &[u8], mark: u8) -> Option<usize>
    ensures { result ≡ position (λ b. b == mark) bytes.now }
{
    bytes.iter().position(|byte| *byte == mark)
}

/// Where the first such byte stands, or how many bytes there are.
pub(crate) fn place_in(bytes: &[u8], mark: u8) -> usize
    ensures place { result ≡ position_or_len (λ b. b == mark) bytes.now }
    ensures within { result ≤ length bytes.now }
{
    match place_of(bytes, mark) {
        Some(place) => place,
        None => bytes.len(),
    }
}

/// What stands behind a place.
pub(crate) fn behind(bytes: &[u8], place: usize) -> &[u8]
    requires { place ≤ length bytes.now }
    ensures { result.now ≡ drop (place + 1) bytes.now }
{
    if place == bytes.len() {
        return &[];
    }
    &bytes[place + 1..]
}

/// What stands behind the first such byte, or nothing.
pub fn behind_first(bytes: &[u8], mark: u8) -> &[u8]
    ensures { result.now ≡ after_first (λ b. b == mark) bytes.now }
{
    behind(bytes, place_in(bytes, mark))
}

/// The value of a pair, where it has this name.
fn value_in<'q>(name: &[u8], pair: &'q [u8]) -> Option<&'q [u8]>
    ensures { option_map (λ v. v.now) result ≡ spec.value_in name.now pair.now }
{
    let place = place_in(pair, b'=');
    if &pair[..place] == name {
        return Some(behind(pair, place));
    }
    None
}

/// The value of a key, as it was sent; of a repeated key the first counts.
pub fn value_of<'q>(name: &[u8], query: &'q [u8]) -> Option<&'q [u8]>
    ensures { option_map (λ v. v.now) result ≡ spec.value_of name.now query.now }
{
    let mut rest = query;
    'pairs: loop {
        let place = place_in(rest, b'&');
        if let Some(value) = value_in(name, &rest[..place]) {
            return Some(value);
        }
        if place == rest.len() {
            return None;
        }
        rest = behind(rest, place);
    }
}

/// The value of a hexadecimal digit.
fn hex_value(byte: u8) -> Option<u8>
    ensures { result ≡ spec.hex_value byte }
{
    if is_between(b'0', b'9', byte) {
        return Some(byte - b'0');
    }
    if is_between(b'A', b'F', byte) {
        return Some(byte - 55);
    }
    if is_between(b'a', b'f', byte) {
        return Some(byte - 87);
    }
    None
}

/// The byte that two hexadecimal digits write.
fn hex_byte(high: u8, low: u8) -> Option<u8>
    ensures { result ≡ spec.hex_byte high low }
{
    match hex_value(high) {
        None => None,
        Some(high) => match hex_value(low) {
            None => None,
            Some(low) => Some(16 * high + low),
        },
    }
}

/// The byte of an escape: a percent sign and two digits.
fn escaped(byte: u8, high: u8, low: u8) -> Option<u8>
    ensures { result ≡ spec.escaped byte high low }
{
    if byte == b'%' {
        hex_byte(high, low)
    } else {
        None
    }
}

fn plain(byte: u8) -> u8
    ensures { result ≡ spec.plain byte }
{
    if byte == b'+' { b' ' } else { byte }
}

/// The byte that a value stands for which begins so, and what is behind it.
fn first_byte(byte: u8, rest: &[u8]) -> (u8, &[u8])
    ensures decodes { spec.decoded (byte ∷ rest.now) ≡ result.0 ∷ spec.decoded result.1.now }
    ensures less { length result.1.now ≤ length rest.now }
{
    match rest {
        [high, low, behind @ ..] => match escaped(byte, *high, *low) {
            Some(value) => (value, behind),
            None => (plain(byte), rest),
        },
        _ => (plain(byte), rest),
    }
}

/// Whether a value stands for the text.
pub fn spells(value: &[u8], text: &str) -> bool
    ensures { result ≡ spec.spells value.now text.now }
{
    let mut left = value;
    let mut wanted = text.as_bytes();
    'bytes: loop {
        let [byte, rest @ ..] = left else {
            return wanted.is_empty();
        };
        let (first, behind) = first_byte(*byte, rest);
        let [want, others @ ..] = wanted else {
            return false;
        };
        if *want != first {
            return false;
        }
        left = behind;
        wanted = others;
    }
}
