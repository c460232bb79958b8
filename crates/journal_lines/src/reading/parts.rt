// What stands at the keys of a line's value, each of one kind.
ghost use Rattle.std.specs.Prelude.{◌≡◌, Some, MatchResult};
ghost use Rattle.serde_json.specs.Find.{get, as_str};
ghost use Rattle.serde_json.specs.View.{view};
ghost use Rattle.journal_lines.specs.Reading.Parts as spec;

use crate::fault::LineFault;
use engine_text::{Signal, Text};
use machine_model::MOST_SECONDS;
use serde_json::Value;
use std::alloc::Global;

/// The greatest numbers of 32, 16 and 8 bits.
const MOST_COUNT: u64 = 4_294_967_295;

const MOST_STATUS: u64 = 65_535;

const MOST_SIGNAL: u64 = 255;

/// What stands at a key.
pub fn part_at<'v>(value: &'v Value, key: &str) -> Result<&'v Value, LineFault>
    ensures { MatchResult result
        (λ part. get key.now (view value.now) ≡ Some (view part.now))
        (λ fault. spec.IsRefusal (get key.now (view value.now)) fault) }
{
    match value.get(key) {
        None => Err(LineFault::BadLine),
        Some(part) => Ok(part),
    }
}

/// A text, lent.
pub fn word_of(value: &Value) -> Result<&str, LineFault>
    ensures { MatchResult result
        (λ word. as_str (view value.now) ≡ Some word.now)
        (λ fault. spec.IsRefusal (as_str (view value.now)) fault) }
{
    match value.as_str() {
        None => Err(LineFault::BadLine),
        Some(word) => Ok(word),
    }
}

/// The text at a key, lent.
pub fn word_at<'v>(value: &'v Value, key: &str) -> Result<&'v str, LineFault>
    ensures { MatchResult result
        (λ word. spec.text_at key.now (view value.now) ≡ Some word.now)
        (λ fault. spec.IsRefusal (spec.text_at key.now (view value.now)) fault) }
{
    let part = part_at(value, key)?;
    word_of(part)
}

/// A text.
pub fn text_of(alloc: Global, value: &Value) -> Result<Text, LineFault>
    ensures { spec.Reads (as_str (view value.now)) result }
{
    let word = word_of(value)?;
    Ok(Text::of(alloc, word)?)
}

/// The text at a key.
pub fn text_at(alloc: Global, value: &Value, key: &str) -> Result<Text, LineFault>
    ensures { spec.Reads (spec.text_at key.now (view value.now)) result }
{
    let part = part_at(value, key)?;
    text_of(alloc, part)
}

/// The truth value at a key.
pub fn flag_at(value: &Value, key: &str) -> Result<bool, LineFault>
    ensures { spec.Reads (spec.flag_at key.now (view value.now)) result }
{
    let part = part_at(value, key)?;
    match part.as_bool() {
        None => Err(LineFault::BadLine),
        Some(on) => Ok(on),
    }
}

/// A whole number that isn't below 0.
pub fn natural_of(value: &Value) -> Result<u64, LineFault>
    ensures { spec.Reads (spec.natural_of (view value.now)) result }
{
    match value.as_u64() {
        None => Err(LineFault::BadLine),
        Some(number) => Ok(number),
    }
}

/// The whole number at a key that isn't below 0.
pub fn natural_at(value: &Value, key: &str) -> Result<u64, LineFault>
    ensures { spec.Reads (spec.natural_at key.now (view value.now)) result }
{
    let part = part_at(value, key)?;
    natural_of(part)
}

/// A number of 32 bits.
pub fn count_of(value: &Value) -> Result<u32, LineFault>
    ensures { spec.Reads (spec.count_of (view value.now)) result }
{
    let number = natural_of(value)?;
    if number > MOST_COUNT {
        return Err(LineFault::BadLine);
    }
    Ok(number as u32)
}

/// The number of 32 bits at a key.
pub fn count_at(value: &Value, key: &str) -> Result<u32, LineFault>
    ensures { spec.Reads (spec.count_at key.now (view value.now)) result }
{
    let part = part_at(value, key)?;
    count_of(part)
}

/// The number of 16 bits at a key.
pub fn status_at(value: &Value, key: &str) -> Result<u16, LineFault>
    ensures { spec.Reads (spec.status_at key.now (view value.now)) result }
{
    let number = natural_at(value, key)?;
    if number > MOST_STATUS {
        return Err(LineFault::BadLine);
    }
    Ok(number as u16)
}

/// A signal by its number.
pub fn signal_of(value: &Value) -> Result<Signal, LineFault>
    ensures { spec.Reads (spec.signal_of (view value.now)) result }
{
    let number = natural_of(value)?;
    if number > MOST_SIGNAL {
        return Err(LineFault::BadLine);
    }
    Ok(Signal {
        number: number as u8,
    })
}

/// The signal at a key.
pub fn signal_at(value: &Value, key: &str) -> Result<Signal, LineFault>
    ensures { spec.Reads (spec.signal_at key.now (view value.now)) result }
{
    let part = part_at(value, key)?;
    signal_of(part)
}

/// A whole number, below 0 too.
pub fn integer_of(value: &Value) -> Result<i64, LineFault>
    ensures { spec.Reads (spec.integer_of (view value.now)) result }
{
    match value.as_i64() {
        None => Err(LineFault::BadLine),
        Some(number) => Ok(number),
    }
}

/// The seconds of a stop.
pub fn seconds_of(value: &Value) -> Result<i32, LineFault>
    ensures { spec.Reads (spec.seconds_of (view value.now)) result }
{
    let seconds = integer_of(value)?;
    if seconds < -1 || seconds > MOST_SECONDS {
        return Err(LineFault::BadLine);
    }
    Ok(seconds as i32)
}

/// The seconds at a key.
pub fn seconds_at(value: &Value, key: &str) -> Result<i32, LineFault>
    ensures { spec.Reads (spec.seconds_at key.now (view value.now)) result }
{
    let part = part_at(value, key)?;
    seconds_of(part)
}
