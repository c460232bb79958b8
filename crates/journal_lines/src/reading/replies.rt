// Replies of a line's value.
ghost use Rattle.std.specs.Prelude.{◌≡◌};
ghost use Rattle.serde_json.specs.View.{view};
ghost use Rattle.machine_model.specs.History.{is_drop};
ghost use Rattle.journal_lines.specs.Reading.Parts.{Reads};
ghost use Rattle.journal_lines.specs.Reading.Entries as spec;

use super::parts::{flag_at, natural_at, part_at, status_at, text_at};
use crate::fault::LineFault;
use engine_text::{Call, Reply};
use serde_json::Value;
use std::alloc::Global;

// Whether there is something at a key.
fn has_key(value: &Value, key: &str) -> bool
    ensures { result ≡ spec.has_key key.now (view value.now) }
{
    value.get(key).is_some()
}

// An answer at once.
fn answer_in(alloc: Global, value: &Value) -> Result<Reply, LineFault>
    ensures { Reads (spec.answer_in (view value.now)) result }
{
    let status = status_at(value, "status")?;
    let body = text_at(alloc, value, "body")?;
    Ok(Reply::Answer { status, body })
}

// A ticket.
fn begun_in(value: &Value) -> Result<Reply, LineFault>
    ensures { Reads (spec.begun_in (view value.now)) result }
{
    let ticket = natural_at(value, "ticket")?;
    Ok(Reply::Begun { ticket })
}

// A stream, which begins there: a line doesn't tell which.
fn stream_in(value: &Value) -> Result<Reply, LineFault>
    ensures { Reads (spec.stream_in (view value.now)) result }
{
    let count = natural_at(value, "from")?;
    Ok(Reply::JournalStream { count })
}

// Whether input was taken.
fn fed_in(value: &Value) -> Result<Reply, LineFault>
    ensures { Reads (spec.fed_in (view value.now)) result }
{
    let taken = flag_at(value, "fed")?;
    Ok(Reply::Fed { taken })
}

// A ticket was dropped, by a drop alone.
fn dropped_in(drop: bool, value: &Value) -> Result<Reply, LineFault>
    ensures { Reads (spec.dropped_in drop (view value.now)) result }
{
    if !drop {
        return Err(LineFault::BadLine);
    }
    part_at(value, "dropped")?;
    Ok(Reply::Dropped)
}

// Whether the call ends a ticket unheard.
fn is_drop(call: &Call) -> bool
    ensures { result ≡ is_drop call.now }
{
    matches!(call, Call::Drop { .. })
}

/// A reply, beside its call.
pub fn reply_in(alloc: Global, call: &Call, value: &Value) -> Result<Reply, LineFault>
    ensures { Reads (spec.reply_in call.now (view value.now)) result }
{
    if has_key(value, "body") {
        return answer_in(alloc, value);
    }
    if has_key(value, "ticket") {
        return begun_in(value);
    }
    if has_key(value, "from") {
        return stream_in(value);
    }
    if has_key(value, "fed") {
        return fed_in(value);
    }
    dropped_in(is_drop(call), value)
}
