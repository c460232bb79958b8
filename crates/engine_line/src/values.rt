// The values of a line's options.
ghost use Rattle.std.specs.Prelude.{◌≡◌, ◌≤◌, ◌==◌, IfSome};
ghost use Rattle.std.specs.List.{before_first, after_first};
ghost use Rattle.std.specs.Option.{option_map};
ghost use Rattle.engine_line.specs.Lines as spec;

use crate::line::{Stepping, Work};
use api_routes::number_of;
use hex::FromHex;

/// The greatest moment, in milliseconds since 1970.
const GREATEST_MOMENT: u64 = 9_000_000_000_000;

/// The most digits of a number that isn't a moment or a port.
const DIGITS: usize = 8;

/// The most requests of a drill.
const MOST_REQUESTS: u64 = 100_000;

/// The most connections that eight digits write.
const MOST_CONNECTIONS: u64 = 99_999_999;

/// The most entries of a journal.
const MOST_ENTRIES: u64 = 16_777_216;

/// The entries of a journal without a setting.
const DEFAULT_ENTRIES: u32 = 4_194_304;

/// The number of one to so many digits, from `least` to `most`.
fn number_between(word: &str, digits: usize, least: u64, most: u64) -> Option<u64>
    requires { digits ≤ 19 }
    ensures value { result ≡ spec.number_between digits least most word.now }
    ensures bound { IfSome result (λ n. n ≤ most) }
{
    match number_of(word, digits) {
        Some(number) => if least <= number && number <= most {
            Some(number)
        } else {
            None
        },
        None => None,
    }
}

/// What stands before the first colon, and behind it.
fn around_colon(text: &str) -> (&str, &str)
    ensures front { result.0.now ≡ before_first (λ b. b == 58) text.now }
    ensures back { result.1.now ≡ after_first (λ b. b == 58) text.now }
{
    match text.split_once(':') {
        Some(parts) => parts,
        None => (text, ""),
    }
}

/// The moment that `word` spells, in milliseconds since 1970: one to 13 decimal digits, at most the greatest moment.
pub fn moment_in(word: &str) -> Option<u64>
    ensures { result ≡ spec.moment_in word.now }
{
    number_between(word, 13, 0, GREATEST_MOMENT)
}

fn stepping_in(word: &str) -> Option<Stepping>
    ensures { result ≡ spec.stepping_in word.now }
{
    let (before, behind) = around_colon(word);
    match (moment_in(before), moment_in(behind)) {
        (Some(start), Some(step)) => Some(Stepping { start, step }),
        _ => None,
    }
}

/// The port of `127.0.0.1:PORT`: one to five decimal digits, at most 65,535.
pub fn port_in(word: &str) -> Option<u16>
    ensures { result ≡ spec.port_in word.now }
{
    let (host, port) = around_colon(word);
    if host != "127.0.0.1" {
        return None;
    }
    match number_between(port, 5, 0, 65_535) {
        Some(port) => Some(port as u16),
        None => None,
    }
}

fn requests_in(word: &str) -> Option<u32>
    ensures { result ≡ spec.number_between 8 1 100_000 word.now }
{
    match number_between(word, DIGITS, 1, MOST_REQUESTS) {
        Some(count) => Some(count as u32),
        None => None,
    }
}

/// The work: exactly one of the three kinds.
pub fn work_of(is_stdio: bool, listen: Option<&str>, drill: Option<&str>) -> Option<Work>
    ensures { result ≡ spec.work_of is_stdio (option_map (λ w. w.now) listen.entry)
        (option_map (λ w. w.now) drill.entry) }
{
    match (is_stdio, listen, drill) {
        (true, None, None) => Some(Work::Stdio),
        (false, Some(addr), None) => port_in(addr).map(Work::Listen),
        (false, None, Some(count)) => requests_in(count).map(Work::Drill),
        _ => None,
    }
}

/// The seed of ids: 64 hexadecimal digits, and zeros where no word is given.
pub fn seed_of(word: Option<&str>) -> Option<[u8; 32]>
    ensures { result ≡ spec.seed_of (option_map (λ w. w.now) word.entry) }
{
    match word {
        None => Some([0; 32]),
        Some(word) => <[u8; 32] as FromHex>::from_hex(word).ok(),
    }
}

/// The clock, where one is set.
pub fn clock_of(word: Option<&str>) -> Option<Option<Stepping>>
    ensures { result ≡ spec.clock_of (option_map (λ w. w.now) word.entry) }
{
    match word {
        None => Some(None),
        Some(word) => stepping_in(word).map(Some),
    }
}

/// The most connections, where it is set.
pub fn connections_of(word: Option<&str>) -> Option<Option<u32>>
    ensures { result ≡ spec.connections_of (option_map (λ w. w.now) word.entry) }
{
    match word {
        None => Some(None),
        Some(word) => match number_between(word, DIGITS, 1, MOST_CONNECTIONS) {
            Some(count) => Some(Some(count as u32)),
            None => None,
        },
    }
}

/// The most entries of the journal.
pub fn entries_of(word: Option<&str>) -> Option<u32>
    ensures { result ≡ spec.entries_of (option_map (λ w. w.now) word.entry) }
{
    match word {
        None => Some(DEFAULT_ENTRIES),
        Some(word) => match number_between(word, DIGITS, 1, MOST_ENTRIES) {
            Some(count) => Some(count as u32),
            None => None,
        },
    }
}
