// Values that may be absent: null, where they are.
ghost use Rattle.std.specs.Prelude.{◌≡◌, IfOk, option_copied};
ghost use Rattle.std.specs.Option.{option_map_or};
ghost use Rattle.serde_json.specs.Data.{null};
ghost use Rattle.serde_json.specs.View.{view};
ghost use Rattle.api_json.specs.Values.{text, natural, integer};
ghost use Rattle.journal_lines.specs.CallFields.{signal_field};
ghost use Rattle.journal_lines.specs.Fields.{check_entry, field_value};

use super::values::check_value;
use engine_text::{HealthSpec, Signal, Text};
use serde_json::Value;
use std::alloc::{AllocError, Global};

/// A text, or null.
pub fn text_or_null(alloc: Global, words: &Option<Text>) -> Result<Value, AllocError>
    ensures { IfOk result (λ v. view v ≡ option_map_or text words.now null) }
{
    match words {
        None => Ok(Value::Null),
        Some(word) => Value::try_from_str(alloc, word.as_str()),
    }
}

/// A word of the format's own, or null.
pub fn word_or_null(alloc: Global, word: Option<&'static str>) -> Result<Value, AllocError>
    ensures { IfOk result (λ v. view v ≡ option_map_or text (option_copied word.entry) null) }
{
    match word {
        None => Ok(Value::Null),
        Some(word) => Value::try_from_str(alloc, word),
    }
}

/// A health check, or null.
pub fn check_or_null(alloc: Global, check: &Option<HealthSpec>) -> Result<Value, AllocError>
    ensures { IfOk result (λ v. view v ≡ option_map_or check_entry check.now null) }
{
    match check {
        None => Ok(Value::Null),
        Some(check) => check_value(alloc, check),
    }
}

/// A number that is not below 0, or null.
pub fn number_or_null(number: Option<u64>) -> Value
    ensures { view result ≡ option_map_or natural number null }
{
    match number {
        None => Value::Null,
        Some(number) => Value::from(number),
    }
}

/// A count, or null.
pub fn count_or_null(count: Option<u32>) -> Value
    ensures { view result ≡ option_map_or natural count null }
{
    match count {
        None => Value::Null,
        Some(count) => Value::from(count),
    }
}

/// Seconds, or null.
pub fn seconds_or_null(seconds: Option<i32>) -> Value
    ensures { view result ≡ option_map_or integer seconds null }
{
    match seconds {
        None => Value::Null,
        Some(seconds) => Value::from(seconds),
    }
}

/// A signal's number, or null.
pub fn signal_or_null(signal: Option<Signal>) -> Value
    ensures { view result ≡ field_value (signal_field signal) }
{
    match signal {
        None => Value::Null,
        Some(signal) => Value::from(signal.number),
    }
}
