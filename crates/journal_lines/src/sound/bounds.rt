// The bounds of texts, numbers, lists of texts and bytes, each by its test.
ghost use Rattle.std.specs.Prelude.{◌≡◌, ◌&&◌, nat_le, length};
ghost use Rattle.engine_text.specs.Soundness as spec;
ghost use Rattle.journal_lines.specs.CallFields.{signal_field};
ghost use Rattle.journal_lines.specs.Fields.{is_field_sound};
ghost use Rattle.journal_lines.specs.LentFields as lent;

use crate::fields::{NumberTest, TextListTest, TextTest};
use engine_text::{Bytes, HealthSpec, Signal, Text, Words, is_name, is_volume_name};
use machine_model::FAR;

/// The greatest number of restarts.
const MOST_RETRIES: u64 = 2_147_483_647;

/// Counts are below this: they have at most nine digits.
const TOO_MANY: u64 = 1_000_000_000;

/// The longest time of a health check, in milliseconds.
const HOUR: u64 = 3_600_000;

/// The most bytes that a feed has.
const MOST_BYTES: usize = 32_768;

// Whether a text has a byte.
fn is_full(text: &Text) -> bool
    ensures { result ≡ spec.is_full text.now }
{
    match text.as_str().as_bytes() {
        [] => false,
        [_, ..] => true,
    }
}

/// Whether a request can give the text.
pub fn is_text(test: TextTest, text: &Text) -> bool
    ensures { result ≡ lent.text_test test text.now }
{
    match test {
        TextTest::Any => true,
        TextTest::Full => is_full(text),
        TextTest::Name => is_name(text.as_str()),
        TextTest::VolumeName => is_volume_name(text.as_str()),
    }
}

/// Whether it can give the text, or none.
pub fn is_text_if_given(test: TextTest, text: &Option<Text>) -> bool
    ensures { result ≡ spec.if_given (lent.text_test test) text.now }
{
    match text {
        None => true,
        Some(text) => is_text(test, text),
    }
}

// Whether a request can give the number.
fn is_number(test: NumberTest, number: u64) -> bool
    ensures { result ≡ lent.number_test test number }
{
    match test {
        NumberTest::Any => true,
        NumberTest::Run => 1 <= number,
        NumberTest::Retries => number <= MOST_RETRIES,
        NumberTest::Moment => number <= FAR,
        NumberTest::Count => number < TOO_MANY,
        NumberTest::Limit => 1 <= number && number < TOO_MANY,
    }
}

/// Whether it can give the number, or none.
pub fn is_number_if_given(test: NumberTest, number: Option<u64>) -> bool
    ensures { result ≡ spec.if_given (lent.number_test test) number }
{
    match number {
        None => true,
        Some(number) => is_number(test, number),
    }
}

/// Whether it can give the count, or none.
pub fn is_count_if_given(test: NumberTest, count: Option<u32>) -> bool
    ensures { result ≡ spec.if_given (lent.number_test test) count }
{
    match count {
        None => true,
        Some(count) => is_number(test, count as u64),
    }
}

/// Whether it is a signal's number, 1 to 31, or none.
pub fn is_signal_if_given(signal: Option<Signal>) -> bool
    ensures { result ≡ is_field_sound (signal_field signal) }
{
    match signal {
        None => true,
        Some(signal) => 1 <= signal.number && signal.number <= 31,
    }
}

// Whether they are the seconds of a stop.
fn is_seconds(seconds: i32) -> bool
    ensures { result ≡ spec.is_seconds seconds }
{
    -1 <= seconds && seconds <= 2_147_483
}

/// Whether they are, or none are given.
pub fn is_seconds_if_given(seconds: Option<i32>) -> bool
    ensures { result ≡ spec.if_given spec.is_seconds seconds }
{
    match seconds {
        None => true,
        Some(seconds) => is_seconds(seconds),
    }
}

/// Whether a request can give the texts.
pub fn are_words(test: TextListTest, words: &Words) -> bool
    ensures { result ≡ lent.text_list_test test words.now }
{
    match test {
        TextListTest::Any => true,
        TextListTest::Full => match words.as_slice() {
            [] => false,
            [_, ..] => true,
        },
    }
}

// Whether it is a health check's time, which may be 0.
fn is_span(milliseconds: u64) -> bool
    ensures { result ≡ spec.is_span milliseconds }
{
    milliseconds <= HOUR
}

// Whether a request can give the check.
fn is_health(check: &HealthSpec) -> bool
    ensures { result ≡ spec.is_health check.now }
{
    are_words(TextListTest::Full, &check.words)
        && 1 <= check.interval
        && is_span(check.interval)
        && 1 <= check.timeout
        && is_span(check.timeout)
        && is_span(check.start_period)
        && 1 <= check.retries
        && check.retries <= 1_000
}

/// Whether it can give the check, or none.
pub fn is_health_if_given(check: &Option<HealthSpec>) -> bool
    ensures { result ≡ spec.if_given spec.is_health check.now }
{
    match check {
        None => true,
        Some(check) => is_health(check),
    }
}

// Whether there is a byte.
fn has_bytes(bytes: &Bytes) -> bool
    ensures { result ≡ spec.is_full bytes.now }
{
    match bytes.as_slice() {
        [] => false,
        [_, ..] => true,
    }
}

/// Whether there is a byte, and at most so many.
pub fn are_fed(bytes: &Bytes) -> bool
    ensures { result ≡ (spec.is_full bytes.now && nat_le (length bytes.now) 32768) }
{
    has_bytes(bytes) && bytes.len() <= MOST_BYTES
}
