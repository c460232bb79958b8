// Times as the keys of a query have them (Docker Engine API v1.43, SystemEvents: `since`, `until`).
ghost use Rattle.std.specs.Prelude.{◌≡◌, ◌≤◌, ◌==◌, true, IfSome};
ghost use Rattle.std.specs.List.{before_first, after_first};
ghost use Rattle.std.specs.Str.{all_ascii_digits};
ghost use Rattle.api_routes.specs.Keys as spec;

use api_routes::number_of;

/// The most decimals of a second.
const DECIMALS: usize = 9;

/// What stands before the first dot, and behind it.
fn around_dot(text: &str) -> (&str, &str)
    ensures front { result.0.now ≡ before_first (λ b. b == 46) text.now }
    ensures back { result.1.now ≡ after_first (λ b. b == 46) text.now }
{
    match text.split_once('.') {
        Some(parts) => parts,
        None => (text, ""),
    }
}

/// Whether these are digits alone.
fn are_digits(bytes: &[u8]) -> bool
    ensures { result ≡ all_ascii_digits bytes.now }
{
    bytes.iter().all(|byte| byte.is_ascii_digit())
}

/// The value of a digit.
fn digit(byte: u8) -> u64
    requires low { 48 ≤ byte }
    requires high { byte ≤ 57 }
    ensures value { result ≡ spec.digit byte }
    ensures bound { result ≤ 9 }
{
    u64::from(byte - b'0')
}

/// The whole thousandths that decimals write.
fn thousandths(decimals: &[u8]) -> u64
    requires { all_ascii_digits decimals.now ≡ true }
    ensures value { result ≡ spec.thousandths decimals.now }
    ensures bound { result ≤ 999 }
{
    match decimals {
        [] => 0,
        [a] => 100 * digit(*a),
        [a, b] => 100 * digit(*a) + 10 * digit(*b),
        [a, b, c, ..] => 100 * digit(*a) + 10 * digit(*b) + digit(*c),
    }
}

/// The thousandths of at most nine decimals.
fn read_decimals(text: &str) -> Option<u64>
    ensures value { result ≡ spec.read_decimals text.now }
    ensures bound { IfSome result (λ n. n ≤ 999) }
{
    let bytes = text.as_bytes();
    if bytes.len() <= DECIMALS && are_digits(bytes) {
        Some(thousandths(bytes))
    } else {
        None
    }
}

/// Seconds of one to ten digits with at most nine decimals, counted down to milliseconds.
pub fn time_of(text: &str) -> Option<u64>
    ensures value { result ≡ spec.read_time text.now }
    ensures bound { IfSome result (λ n. n ≤ 9999999999999) }
{
    let (seconds, decimals) = around_dot(text);
    let seconds = number_of(seconds, 10)?;
    let thousandths = read_decimals(decimals)?;
    Some(1000 * seconds + thousandths)
}
