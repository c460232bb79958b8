// The numbers, truth values and conditions of queries.
ghost use Rattle.std.specs.Prelude.{◌≡◌, IfOk};
ghost use Rattle.api_routes.specs.Keys as spec;
ghost use Rattle.api_routes.specs.Reading.{Reads};

use crate::Fault;
use crate::numeral::number_of;
use crate::query::{query_value, value_or_empty};
use crate::refused::Refused;
use engine_text::{NoMemory, Until, query_bool};
use std::alloc::Global;

/// The greatest number of seconds that `t` may have.
const GREATEST_SECONDS: u64 = 2_147_483;

/// The truth value of a key; an absent key is false.
pub(crate) fn flag(alloc: Global, query: &str, key: &str) -> Result<bool, NoMemory>
    ensures { IfOk result (λ b. b ≡ spec.flag key.now query.now) }
{
    let text = value_or_empty(alloc, query, key)?;
    Ok(query_bool(text.as_str()))
}

// A number of seconds, -1 among them.
fn read_seconds(text: &str) -> Option<i32>
    ensures { result ≡ spec.read_seconds text.now }
{
    if text == "-1" {
        return Some(-1);
    }
    match number_of(text, 7) {
        Some(n) if n <= GREATEST_SECONDS => Some(n as i32),
        _ => None,
    }
}

/// The seconds that `t` asks for.
pub(crate) fn seconds_in(alloc: Global, query: &str) -> Result<Option<i32>, Refused>
    ensures { Reads result (spec.seconds_in query.now) }
{
    let Some(text) = query_value(alloc, query, "t")? else {
        return Ok(None);
    };
    match read_seconds(text.as_str()) {
        Some(seconds) => Ok(Some(seconds)),
        None => Err(Refused::Fault(Fault::BadSeconds)),
    }
}

// A greatest number of containers; 0 and -1 mean none.
fn read_limit(text: &str) -> Option<Option<u32>>
    ensures { result ≡ spec.read_limit text.now }
{
    if text == "-1" {
        return Some(None);
    }
    match number_of(text, 9) {
        Some(0) => Some(None),
        Some(n) => Some(Some(n as u32)),
        None => None,
    }
}

/// The greatest number of containers that a list asks for.
pub(crate) fn limit_in(alloc: Global, query: &str) -> Result<Option<u32>, Refused>
    ensures { Reads result (spec.limit_in query.now) }
{
    let Some(text) = query_value(alloc, query, "limit")? else {
        return Ok(None);
    };
    match read_limit(text.as_str()) {
        Some(limit) => Ok(limit),
        None => Err(Refused::Fault(Fault::BadLimit)),
    }
}

// How many of the last records; nothing and `all` mean all.
fn read_tail(text: &str) -> Option<Option<u32>>
    ensures { result ≡ spec.read_tail text.now }
{
    if text == "" || text == "all" {
        return Some(None);
    }
    match number_of(text, 9) {
        Some(n) => Some(Some(n as u32)),
        None => None,
    }
}

/// How many of the last records are asked for.
pub(crate) fn tail_in(alloc: Global, query: &str) -> Result<Option<u32>, Refused>
    ensures { Reads result (spec.tail_in query.now) }
{
    let text = value_or_empty(alloc, query, "tail")?;
    match read_tail(text.as_str()) {
        Some(tail) => Ok(tail),
        None => Err(Refused::Fault(Fault::BadTail)),
    }
}

// What a wait waits for, by its word.
fn read_condition(text: &str) -> Option<Until>
    ensures { result ≡ spec.read_condition text.now }
{
    match text {
        "" | "not-running" => Some(Until::NotRunning),
        "next-exit" => Some(Until::NextExit),
        "removed" => Some(Until::Removed),
        _ => None,
    }
}

/// What a wait waits for.
pub(crate) fn condition_in(alloc: Global, query: &str) -> Result<Until, Refused>
    ensures { Reads result (spec.condition_in query.now) }
{
    let text = value_or_empty(alloc, query, "condition")?;
    match read_condition(text.as_str()) {
        Some(until) => Ok(until),
        None => Err(Refused::Fault(Fault::BadCondition)),
    }
}
