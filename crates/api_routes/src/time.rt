// The times of queries.
ghost use Rattle.std.specs.Prelude.{◌≡◌, ◌≤◌, true, IfSome};
ghost use Rattle.std.specs.Str.{all_ascii_digits};
ghost use Rattle.api_routes.specs.Keys as spec;
ghost use Rattle.api_routes.specs.Reading.{Reads};

use crate::Fault;
use crate::numeral::{all_digits, number_of};
use crate::path::cut_at;
use crate::query::query_value;
use crate::refused::Refused;
use std::alloc::Global;

// The whole thousandths that decimals write.
fn thousandths(decimals: &[u8]) -> u64
    requires { all_ascii_digits decimals.now ≡ true }
    ensures value { result ≡ spec.thousandths decimals.now }
    ensures bound { result ≤ 999 }
{
    match decimals {
        [] => 0,
        [a] => 100 * digit(*a),
        [a, b] => 100 * digit(*a) + 10 * digit(*b),
        [a, b, c, ..] => 100 * digit(*a) + 10 * digit(*b) + digit(*c),
    }
}

// The value of a digit.
fn digit(b: u8) -> u64
    requires low { 48 ≤ b }
    requires high { b ≤ 57 }
    ensures value { result ≡ spec.digit b }
    ensures bound { result ≤ 9 }
{
    (b - b'0') as u64
}

// The thousandths of at most nine decimals.
fn read_decimals(text: &str) -> Option<u64>
    ensures value { result ≡ spec.read_decimals text.now }
    ensures bound { IfSome result (λ n. n ≤ 999) }
{
    let bytes = text.as_bytes();
    if bytes.len() <= 9 && all_digits(bytes) {
        Some(thousandths(bytes))
    } else {
        None
    }
}

// Seconds with decimals, counted down to milliseconds.
fn read_time(text: &str) -> Option<u64>
    ensures { result ≡ spec.read_time text.now }
{
    let (seconds, decimals) = cut_at(text, '.');
    match (number_of(seconds, 10), read_decimals(decimals)) {
        (Some(seconds), Some(thousandths)) => Some(1000 * seconds + thousandths),
        _ => None,
    }
}

/// The moment that a key names, in milliseconds.
pub(crate) fn time_in(alloc: Global, query: &str, key: &str) -> Result<Option<u64>, Refused>
    ensures { Reads result (spec.time_in key.now query.now) }
{
    let Some(text) = query_value(alloc, query, key)? else {
        return Ok(None);
    };
    match read_time(text.as_str()) {
        Some(moment) => Ok(Some(moment)),
        None => Err(Refused::Fault(Fault::BadTime)),
    }
}
