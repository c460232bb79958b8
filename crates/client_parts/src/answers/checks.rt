// A container with its health check, as an inspect shows them.
ghost use Rattle.std.specs.Prelude.{◌≡◌, option_map};
ghost use Rattle.std.specs.Char.{is_digit};
ghost use Rattle.std.specs.List.{list_all};
ghost use Rattle.serde_json.specs.View.{view};
ghost use Rattle.client_model.specs.Commands.Health as spec;
ghost use Rattle.client_parts.specs.Reading.{Reads, ReadsAs};

use super::fields::{data_in, text_at};
use super::lists::texts_of;
use crate::Unread;
use crate::words::copied;
use client_model::Checked;
use engine_text::{HealthSpec, Text, Words};
use serde_json::Value;
use std::alloc::Global;

/// Nanoseconds of a millisecond.
const MILLISECOND: u64 = 1_000_000;

/// The most retries of a check.
const MOST_RETRIES: u64 = 1_000;

/// How many digits the id of a container has.
const ID_DIGITS: usize = 64;

/// A whole number at a key.
fn number_at(value: &Value, name: &str) -> Result<u64, Unread>
    ensures { Reads result (spec.number_at name.now (view value.now)) }
{
    let number = value.get(name).ok_or(Unread::NoForm)?;
    number.as_u64().ok_or(Unread::NoForm)
}

/// Nanoseconds at a key, counted down to milliseconds.
fn milliseconds_at(value: &Value, name: &str) -> Result<u64, Unread>
    ensures { Reads result (spec.milliseconds_at name.now (view value.now)) }
{
    let nanos = number_at(value, name)?;
    Ok(nanos / MILLISECOND)
}

/// There are at most so many retries.
fn if_retries(number: u64) -> Result<u32, Unread>
    ensures { Reads result (spec.if_retries number) }
{
    if number <= MOST_RETRIES {
        Ok(number as u32)
    } else {
        Err(Unread::NoForm)
    }
}

/// The words behind `CMD`.
fn behind_cmd(alloc: Global, words: &[Text]) -> Result<Words, Unread>
    ensures { Reads result (spec.behind_cmd words.now) }
{
    let [word, words @ ..] = words else {
        return Err(Unread::NoForm);
    };
    if word.is("CMD") {
        Ok(copied(alloc, words)?)
    } else {
        Err(Unread::NoForm)
    }
}

/// `Test`: what is run.
fn test_at(alloc: Global, value: &Value) -> Result<Words, Unread>
    ensures { Reads result (spec.test_at (view value.now)) }
{
    let test = value.get("Test").ok_or(Unread::NoForm)?;
    let items = test.as_array().ok_or(Unread::NoForm)?;
    let words = texts_of(alloc, items.as_slice())?;
    behind_cmd(alloc, words.as_slice())
}

/// The check that a `Healthcheck` tells.
fn check_of(alloc: Global, value: &Value) -> Result<HealthSpec, Unread>
    ensures { Reads result (spec.check_of (view value.now)) }
{
    let interval = milliseconds_at(value, "Interval")?;
    let retries = if_retries(number_at(value, "Retries")?)?;
    let start_period = milliseconds_at(value, "StartPeriod")?;
    let words = test_at(alloc, value)?;
    let timeout = milliseconds_at(value, "Timeout")?;
    Ok(HealthSpec {
        words,
        interval,
        timeout,
        retries,
        start_period,
    })
}

/// Whether these are hexadecimal digits alone.
fn are_hex(bytes: &[u8]) -> bool
    ensures { result ≡ list_all (λ b. is_digit b 16) bytes.now }
{
    bytes.iter().all(|byte| byte.is_ascii_hexdigit())
}

/// A text that may be a container's id.
fn if_container_id(id: &str) -> Result<&str, Unread>
    ensures { ReadsAs (λ s. s.now) result (spec.if_container_id id.now) }
{
    if id.len() == ID_DIGITS && are_hex(id.as_bytes()) {
        Ok(id)
    } else {
        Err(Unread::NoForm)
    }
}

/// A container's id, and its check.
fn checked_as(alloc: Global, value: &Value, check: &Value) -> Result<Checked, Unread>
    ensures { Reads result (spec.checked_as (view value.now) (view check.now)) }
{
    let id = if_container_id(text_at(value, "Id")?)?;
    let id = Text::of(alloc, id)?;
    let spec = check_of(alloc, check)?;
    Ok(Checked { id, spec })
}

/// The same where there is a `Healthcheck`.
fn checked_by(
    alloc: Global,
    value: &Value,
    check: Option<&Value>,
) -> Result<Option<Checked>, Unread>
    ensures { Reads result
        (spec.checked_by (view value.now) (option_map (λ v. view v.now) check.entry)) }
{
    match check {
        None => Ok(None),
        Some(check) => Ok(Some(checked_as(alloc, value, check)?)),
    }
}

/// The container that an inspect shows, with its health check; none where it shows no check.
pub fn checked_in(alloc: Global, body: &[u8]) -> Result<Option<Checked>, Unread>
    ensures { Reads result (spec.checked_in body.now) }
{
    let value = data_in(alloc, body)?;
    let config = value.get("Config").ok_or(Unread::NoForm)?;
    checked_by(alloc, &value, config.get("Healthcheck"))
}
