// A number of milliseconds, as the words of a query write it.
ghost use Rattle.std.specs.Prelude.{◌≡◌};
ghost use Rattle.std.specs.List.{list_all};
ghost use Rattle.std.specs.Char.{is_ascii_digit};
ghost use Rattle.lab_control.specs.Asking as spec;

/// The most digits of a number.
const DIGITS: usize = 13;

/// Whether these are digits alone.
fn are_digits(bytes: &[u8]) -> bool
    ensures { result ≡ list_all is_ascii_digit bytes.now }
{
    bytes.iter().all(|byte| byte.is_ascii_digit())
}

/// Whether a word is one to 13 decimal digits.
fn is_number(word: &str) -> bool
    ensures { result ≡ spec.is_number word.now }
{
    let bytes = word.as_bytes();
    let fits = 1 <= bytes.len() && bytes.len() <= DIGITS;
    fits && are_digits(bytes)
}

/// The number that one to 13 decimal digits write; none for any other word.
pub(crate) fn number_in(word: &str) -> Option<u64>
    ensures { result ≡ spec.number_in word.now }
{
    if !is_number(word) {
        return None;
    }
    word.parse::<u64>().ok()
}
