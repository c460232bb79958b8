// Ids, moments, names, signals, truth values, policies, delays and parts of texts.
ghost use Rattle.engine_text.specs.Moment.{IsMoment};

use crate::line::{as_text, cut, number, owned, spelled};
use crate::short::Short;
use engine_text::{
    Policy, Signal, has_part, id_of, is_name, is_volume_name, moment_text, query_bool, read_policy,
    read_signal, signal_name,
};
use restart_policy::decide;
use std::alloc::Global;

// The seed of zeros, or the one whose bytes count from 0 to 31.
fn seed_of(word: &str) -> [u8; 32] {
    let mut seed = [0u8; 32];
    if word == "counting" {
        for i in 0..32 {
            seed[i] = i as u8;
        }
    }
    seed
}

// The id of `SEED|NUMBER`.
fn id(alloc: Global, rest: &str) -> Result<String, Short> {
    let (seed, n) = cut(rest);
    owned(alloc, as_text(&id_of(&seed_of(seed), number(n))))
}

// The text of a moment.
fn shown(alloc: Global, moment: Option<u64>) -> Result<String, Short>
    requires { IsMoment moment }
{
    let (bytes, len) = moment_text(moment);
    owned(alloc, as_text(&bytes[..len]))
}

// The text of the moment in a field, or of none.
fn moment(alloc: Global, field: &str) -> Result<String, Short> {
    match field.parse::<u64>() {
        Ok(ms) if ms <= 9_000_000_000_000 => shown(alloc, Some(ms)),
        _ => shown(alloc, None),
    }
}

// The policy of `NAME|MAXIMUM`.
fn policy(alloc: Global, rest: &str) -> Result<String, Short> {
    let (name, maximum) = cut(rest);
    let policy = read_policy(name, maximum.parse().unwrap_or(0));
    Ok(format!(in alloc; "{policy:?}")?)
}

// What becomes of a container that is always started again, behind a delay of so many milliseconds.
fn decision(alloc: Global, delay: &str) -> Result<String, Short> {
    let decision = decide(&Policy::Always, 0, 0, 0, number(delay), false);
    Ok(format!(in alloc; "{decision:?}")?)
}

// The name of the signal of a number.
fn name_of(alloc: Global, field: &str) -> Result<String, Short> {
    let number = field.parse().unwrap_or(0);
    owned(alloc, signal_name(Signal { number }))
}

// The signal that a field names.
fn signal(alloc: Global, field: &str) -> Result<String, Short> {
    let signal = read_signal(field);
    Ok(format!(in alloc; "{signal:?}")?)
}

// Yes or no.
fn answer(alloc: Global, holds: bool) -> Result<String, Short> {
    owned(alloc, if holds { "yes" } else { "no" })
}

// Whether the text of `TEXT|PART` has the part.
fn part(alloc: Global, rest: &str) -> Result<String, Short> {
    let (text, part) = cut(rest);
    answer(alloc, has_part(text.as_bytes(), part.as_bytes()))
}

// The truth value of a field.
fn truth(alloc: Global, field: &str) -> Result<String, Short> {
    let text = spelled(alloc, field)?;
    answer(alloc, query_bool(text.as_str()))
}

/// What is said of a text of that kind.
pub fn told(alloc: Global, kind: &str, rest: &str) -> Result<String, Short> {
    match kind {
        "id" => id(alloc, rest),
        "moment" => moment(alloc, rest),
        "name" => answer(alloc, is_name(rest)),
        "volume name" => answer(alloc, is_volume_name(rest)),
        "signal" => signal(alloc, rest),
        "signal name" => name_of(alloc, rest),
        "truth" => truth(alloc, rest),
        "policy" => policy(alloc, rest),
        "delay" => decision(alloc, rest),
        "part" => part(alloc, rest),
        _ => owned(alloc, "no such kind"),
    }
}
