// Whole numbers in decimal, without a sign.
ghost use Rattle.std.specs.Prelude.{◌≡◌, ◌≤◌, ◌<◌, ◌^◌, IfSome};
ghost use Rattle.std.specs.Str.{all_ascii_digits};
ghost use Rattle.api_routes.specs.Numeral as spec;

/// Whether all bytes are decimal digits.
pub(crate) fn all_digits(bytes: &[u8]) -> bool
    ensures { result ≡ all_ascii_digits bytes.now }
{
    match bytes {
        [] => true,
        [b, rest @ ..] => b.is_ascii_digit() && all_digits(rest),
    }
}

// Whether a text is from one to `most` decimal digits.
fn is_numeral(text: &str, most: usize) -> bool
    ensures { result ≡ spec.is_numeral most text.now }
{
    let bytes = text.as_bytes();
    let fits = 1 <= bytes.len() && bytes.len() <= most;
    fits && all_digits(bytes)
}

/// The number that one to `most` decimal digits write; none for any other text.
pub fn number_of(text: &str, most: usize) -> Option<u64>
    requires { most ≤ 19 }
    ensures value { result ≡ spec.number_of most text.now }
    ensures bound { IfSome result (λ n. n < 10 ^ most) }
{
    if !is_numeral(text, most) {
        return None;
    }
    text.parse::<u64>().ok()
}
