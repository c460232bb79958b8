// The health check of a create (Docker Engine API v1.43, HealthConfig).
ghost use Rattle.std.specs.Prelude.{◌≡◌, ◌<◌, ◌++◌, length, IfOk, IfSome, IsUtf8, OnOk, option_map};
ghost use Rattle.std.specs.List.{position};
ghost use Rattle.serde_json.specs.View.{view};
ghost use Rattle.engine_text.specs.Query.{is_blank};
ghost use Rattle.api_json.specs.Fault.{Answers};
ghost use Rattle.api_json.specs.Health as spec;

use super::fault::{BodyFault, BodyKey, Refused};
use super::fields::{object_field, whole_field};
use super::lists::{join_words, texts_field};
use engine_text::{HealthSpec, NoMemory, Text, Words, is_blank};
use serde_json::Value;
use std::alloc::Global;

/// Nanoseconds of a millisecond.
const MILLISECOND: i64 = 1_000_000;

/// The most nanoseconds of a time, which is an hour.
const HOUR: i64 = 3_600_000_000_000;

/// Milliseconds of an interval and of a timeout, unless a check says otherwise.
const HALF_A_MINUTE: u64 = 30_000;

/// How often a check fails before its container is unhealthy, unless it says otherwise.
const RETRIES: u32 = 3;

/// The most retries.
const MOST_RETRIES: i64 = 1_000;

// Where the first blank stands.
fn blank_place(bytes: &[u8]) -> Option<usize>
    ensures { result ≡ position is_blank bytes.now }
{
    bytes.iter().position(|byte| is_blank(*byte))
}

// What stands before the first blank, and what stands behind that.
fn split_blank(text: &str) -> Option<(&str, &str)>
    ensures parts { option_map (λ parts. (parts.0.now, parts.1.now)) result
        ≡ spec.split_blank text.now }
    ensures shorter { IfSome result (λ parts. length parts.1.now < length text.now) }
    ensures texts { IfSome result (λ parts. IsUtf8 parts.0.now × IsUtf8 parts.1.now) }
{
    match blank_place(text.as_bytes()) {
        Some(place) => Some((&text[..place], &text[place + 1..])),
        None => None,
    }
}

// One word more, unless it is empty.
fn add_word(alloc: Global, words: &mut Words, word: &str) -> Result<(), NoMemory>
    ensures { OnOk result (words.new ≡ words.old ++ spec.if_word word.now) }
{
    if !word.is_empty() {
        words.push(alloc, Text::of(alloc, word)?)?;
    }
    Ok(())
}

// These words, and the last one.
fn with_last(alloc: Global, words: Words, word: &str) -> Result<Words, NoMemory>
    ensures { IfOk result (λ all. all ≡ words ++ spec.if_word word.now) }
{
    let mut all = words;
    add_word(alloc, &mut all, word)?;
    Ok(all)
}

// The parts of a text between runs of spaces and tabs.
fn between_blanks(alloc: Global, text: &str) -> Result<Words, NoMemory>
    ensures { IfOk result (λ words. words ≡ spec.between_blanks text.now) }
{
    let mut words = Words::new(alloc);
    let mut left = text;
    'parts: while let Some((word, rest)) = split_blank(left) {
        add_word(alloc, &mut words, word)?;
        left = rest;
    }
    let all = with_last(alloc, words, left)?;
    Ok(all)
}

// Words, of which there is at least one.
fn if_full(words: Words) -> Option<Words>
    ensures { result ≡ spec.if_full words }
{
    if words.len() == 0 { None } else { Some(words) }
}

// The words of one text.
fn shell_words(alloc: Global, texts: &[Text]) -> Result<Option<Words>, NoMemory>
    ensures { IfOk result (λ found. found ≡ spec.shell_words texts.now) }
{
    match texts {
        [text] => Ok(if_full(between_blanks(alloc, text.as_str())?)),
        _ => Ok(None),
    }
}

// The words of a test, none where it is empty or `NONE`.
fn test_words(alloc: Global, texts: &[Text]) -> Result<Option<Words>, NoMemory>
    ensures { IfOk result (λ found. found ≡ spec.test_words texts.now) }
{
    let [first, rest @ ..] = texts else {
        return Ok(Some(Words::new(alloc)));
    };
    if first.is("CMD") {
        return Ok(if_full(join_words(alloc, Words::new(alloc), rest)?));
    }
    if first.is("CMD-SHELL") {
        return shell_words(alloc, rest);
    }
    if first.is("NONE") && rest.is_empty() {
        return Ok(Some(Words::new(alloc)));
    }
    Ok(None)
}

// The words of the field.
fn read_test(alloc: Global, check: &Value) -> Result<Words, Refused>
    ensures { Answers (spec.test_of (view check.now)) result }
{
    let texts = texts_field(alloc, check, BodyKey::Test)?;
    match test_words(alloc, texts.as_slice())? {
        Some(words) => Ok(words),
        None => Err(Refused::BadBody(BodyFault::BadField(BodyKey::Test))),
    }
}

// The milliseconds of nanoseconds; 0 stands for the default.
fn span_in(default: u64, nanoseconds: i64) -> Option<u64>
    ensures { result ≡ spec.span_in default nanoseconds }
{
    if nanoseconds == 0 {
        return Some(default);
    }
    if nanoseconds < MILLISECOND || nanoseconds > HOUR {
        return None;
    }
    Some((nanoseconds / MILLISECOND) as u64)
}

// The milliseconds of a field.
fn span_of(default: u64, key: BodyKey, check: &Value) -> Result<u64, BodyFault>
    ensures { result ≡ spec.span_of default key (view check.now) }
{
    let found = whole_field(check, key)?;
    span_in(default, found.unwrap_or(0)).ok_or(BodyFault::BadField(key))
}

// Retries; 0 stands for the default.
fn retries_in(retries: i64) -> Option<u32>
    ensures { result ≡ spec.retries_in retries }
{
    if retries == 0 {
        return Some(RETRIES);
    }
    if retries < 0 || retries > MOST_RETRIES {
        return None;
    }
    Some(retries as u32)
}

// The retries of a check.
fn retries_of(check: &Value) -> Result<u32, BodyFault>
    ensures { result ≡ spec.retries_of (view check.now) }
{
    let found = whole_field(check, BodyKey::Retries)?;
    retries_in(found.unwrap_or(0)).ok_or(BodyFault::BadField(BodyKey::Retries))
}

// The five fields that are read, in their order; no words mean no check.
fn health_in(alloc: Global, check: &Value) -> Result<Option<HealthSpec>, Refused>
    ensures { Answers (spec.health_in (view check.now)) result }
{
    let words = read_test(alloc, check)?;
    let interval = span_of(HALF_A_MINUTE, BodyKey::Interval, check)?;
    let timeout = span_of(HALF_A_MINUTE, BodyKey::Timeout, check)?;
    let start_period = span_of(0, BodyKey::StartPeriod, check)?;
    let retries = retries_of(check)?;
    if words.len() == 0 {
        return Ok(None);
    }
    Ok(Some(HealthSpec {
        words,
        interval,
        timeout,
        retries,
        start_period,
    }))
}

/// The health check of a create, if it asks for one.
pub fn read_health(alloc: Global, body: &Value) -> Result<Option<HealthSpec>, Refused>
    ensures { Answers (spec.health_of (view body.now)) result }
{
    match object_field(body, BodyKey::Healthcheck)? {
        None => Ok(None),
        Some(check) => health_in(alloc, check),
    }
}
