// Which records of a log are asked for, and from which place on.
ghost use Rattle.std.specs.Prelude.{◌≡◌, ◌+◌, ◌<◌, cond};
ghost use Rattle.machine_model.specs.Calls.Logs as spec;
ghost use Rattle.reading_calls.specs.LogParts.{selects};

use engine_text::{LogAsk, LogRecord, Stream};

// Whether the stream is asked for.
fn is_asked(out: bool, err: bool, stream: Stream) -> bool
    ensures { result ≡ spec.is_asked out err stream }
{
    match stream {
        Stream::Stdin => false,
        Stream::Stdout => out,
        Stream::Stderr => err,
    }
}

/// Whether the record is of the asked streams, and its moment from the least to the greatest.
pub fn is_selected(item: &LogRecord, out: bool, err: bool, least: u64, greatest: u64) -> bool
    ensures { result ≡ spec.is_selected out err least greatest item.now }
{
    is_asked(out, err, item.stream) && least <= item.moment && item.moment <= greatest
}

// Whether the ask selects the record.
fn selects(ask: &LogAsk, item: &LogRecord) -> bool
    ensures { result ≡ selects ask.now item.now }
{
    is_selected(item, ask.out, ask.err, ask.least, ask.greatest)
}

// How many are still to be found behind a record that passes, or doesn't.
fn left_behind(passes: bool, left: u32) -> u32
    requires { 0 < left }
    ensures { cond passes 1 0 + result ≡ left }
{
    if passes { left - 1 } else { left }
}

// The place of the selected record that is the n-th from the end, n being above 0; 0 where there are
// fewer. It walks from the end.
fn from_end(ask: &LogAsk, log: &[LogRecord], n: u32) -> usize
    requires { 0 < n }
    ensures { result ≡ spec.from_end n (spec.places (selects ask.now) log.now) }
{
    let mut left = n;
    let mut place = log.len();
    while place > 0 {
        place -= 1;
        left = left_behind(selects(ask, &log[place]), left);
        if left == 0 {
            return place;
        }
    }
    0
}

/// The first place of the stream, by its tail.
pub fn first_place(ask: &LogAsk, log: &[LogRecord]) -> u64
    ensures { result ≡ spec.first_place ask.now log.now }
{
    match ask.tail {
        None => 0,
        Some(0) => log.len() as u64,
        Some(n) => from_end(ask, log, n) as u64,
    }
}
