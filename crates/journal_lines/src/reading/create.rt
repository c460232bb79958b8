// A create of a line's value, and an update.
ghost use Rattle.std.specs.Prelude.{◌≡◌, option_map};
ghost use Rattle.serde_json.specs.View.{view};
ghost use Rattle.journal_lines.specs.Reading.Parts.{Reads, or_null};
ghost use Rattle.journal_lines.specs.Reading.Calls as spec;

use super::lists::{mounts_at, pairs_at, words_at};
use super::options::text_or_null;
use super::parts::{
    count_at, flag_at, integer_of, natural_at, part_at, seconds_at, signal_at, text_at, word_at,
};
use crate::fault::LineFault;
use engine_text::{Call, CreateSpec, HealthSpec, Policy, Signal, read_policy};
use serde_json::Value;
use std::alloc::Global;

/// What of a create is neither text nor list.
#[derive(Clone, Copy, PartialEq, Eq, Debug, Drop)]
pub struct Settings {
    pub policy: Policy,
    pub signal: Signal,
    pub after: i32,
    pub stdin: bool,
    pub once: bool,
}

// A policy by its name and its greatest number of restarts.
fn policy_in(value: &Value) -> Result<Policy, LineFault>
    ensures { Reads (spec.policy_in (view value.now)) result }
{
    let name = word_at(value, "policy")?;
    let part = part_at(value, "maximum")?;
    let maximum = integer_of(part)?;
    match read_policy(name, maximum) {
        Ok(policy) => Ok(policy),
        Err(_) => Err(LineFault::BadLine),
    }
}

/// A policy, or none where the name of one is null.
pub fn policy_if_given(value: &Value) -> Result<Option<Policy>, LineFault>
    ensures { Reads (spec.policy_if_given (view value.now)) result }
{
    let part = part_at(value, "policy")?;
    if part.is_null() {
        return Ok(None);
    }
    let policy = policy_in(value)?;
    Ok(Some(policy))
}

// A flag, or false where there is no key.
fn flag_if_there(part: Option<&Value>) -> Result<bool, LineFault>
    ensures { Reads (spec.flag_if_there (option_map (λ v. view v.now) part.entry)) result }
{
    match part {
        None => Ok(false),
        Some(part) => part.as_bool().ok_or(LineFault::BadLine),
    }
}

// A health check.
fn check_of(alloc: Global, value: &Value) -> Result<HealthSpec, LineFault>
    ensures { Reads (spec.check_of (view value.now)) result }
{
    let words = words_at(alloc, value, "words")?;
    let interval = natural_at(value, "interval")?;
    let timeout = natural_at(value, "timeout")?;
    let retries = count_at(value, "retries")?;
    let start_period = natural_at(value, "start")?;
    Ok(HealthSpec {
        words,
        interval,
        timeout,
        retries,
        start_period,
    })
}

// A check, or none where there is null.
fn check_or_null(alloc: Global, part: &Value) -> Result<Option<HealthSpec>, LineFault>
    ensures { Reads (or_null spec.check_of (view part.now)) result }
{
    if part.is_null() {
        return Ok(None);
    }
    let health = check_of(alloc, part)?;
    Ok(Some(health))
}

// A check, or none where there is no key, or null.
fn check_if_there(alloc: Global, part: Option<&Value>) -> Result<Option<HealthSpec>, LineFault>
    ensures { Reads (spec.check_if_there (option_map (λ v. view v.now) part.entry)) result }
{
    match part {
        None => Ok(None),
        Some(part) => check_or_null(alloc, part),
    }
}

// What is neither text nor list.
fn settings_in(value: &Value) -> Result<Settings, LineFault>
    ensures { Reads (spec.settings_in (view value.now)) result }
{
    let policy = policy_in(value)?;
    let signal = signal_at(value, "signal")?;
    let after = seconds_at(value, "after")?;
    let stdin = flag_at(value, "stdin")?;
    let once = flag_at(value, "once")?;
    Ok(Settings {
        policy,
        signal,
        after,
        stdin,
        once,
    })
}

/// A create.
pub fn create_in(alloc: Global, value: &Value) -> Result<Call, LineFault>
    ensures { Reads (spec.create_in (view value.now)) result }
{
    let settings = settings_in(value)?;
    let name = text_or_null(alloc, value, "name")?;
    let image = text_at(alloc, value, "image")?;
    let words = words_at(alloc, value, "words")?;
    let labels = pairs_at(alloc, value, "labels")?;
    let mounts = mounts_at(alloc, value, "mounts")?;
    let auto_remove = flag_if_there(value.get("auto"))?;
    let health = check_if_there(alloc, value.get("health"))?;
    Ok(Call::Create(CreateSpec {
        name,
        image,
        words,
        policy: settings.policy,
        stop_signal: settings.signal,
        stop_after: settings.after,
        open_stdin: settings.stdin,
        stdin_once: settings.once,
        labels,
        mounts,
        auto_remove,
        health,
    }))
}
