// Parts of a line's value that may be absent: null, where they are.
ghost use Rattle.std.specs.Prelude.{◌≡◌};
ghost use Rattle.serde_json.specs.Find.{as_str};
ghost use Rattle.serde_json.specs.View.{view};
ghost use Rattle.journal_lines.specs.Reading.Parts as spec;

use super::parts::{count_of, natural_of, part_at, seconds_of, signal_of, text_of};
use crate::fault::LineFault;
use engine_text::{Signal, Text};
use serde_json::Value;
use std::alloc::Global;

/// A text.
pub fn text_or_null(alloc: Global, value: &Value, key: &str) -> Result<Option<Text>, LineFault>
    ensures { spec.Reads (spec.optional_at as_str key.now (view value.now)) result }
{
    let part = part_at(value, key)?;
    if part.is_null() {
        return Ok(None);
    }
    let text = text_of(alloc, part)?;
    Ok(Some(text))
}

/// A number that isn't below 0.
pub fn number_or_null(value: &Value, key: &str) -> Result<Option<u64>, LineFault>
    ensures { spec.Reads (spec.optional_at spec.natural_of key.now (view value.now)) result }
{
    let part = part_at(value, key)?;
    if part.is_null() {
        return Ok(None);
    }
    let number = natural_of(part)?;
    Ok(Some(number))
}

/// A count.
pub fn count_or_null(value: &Value, key: &str) -> Result<Option<u32>, LineFault>
    ensures { spec.Reads (spec.optional_at spec.count_of key.now (view value.now)) result }
{
    let part = part_at(value, key)?;
    if part.is_null() {
        return Ok(None);
    }
    let count = count_of(part)?;
    Ok(Some(count))
}

/// Seconds.
pub fn seconds_or_null(value: &Value, key: &str) -> Result<Option<i32>, LineFault>
    ensures { spec.Reads (spec.optional_at spec.seconds_of key.now (view value.now)) result }
{
    let part = part_at(value, key)?;
    if part.is_null() {
        return Ok(None);
    }
    let seconds = seconds_of(part)?;
    Ok(Some(seconds))
}

/// A signal.
pub fn signal_or_null(value: &Value, key: &str) -> Result<Option<Signal>, LineFault>
    ensures { spec.Reads (spec.optional_at spec.signal_of key.now (view value.now)) result }
{
    let part = part_at(value, key)?;
    if part.is_null() {
        return Ok(None);
    }
    let signal = signal_of(part)?;
    Ok(Some(signal))
}
