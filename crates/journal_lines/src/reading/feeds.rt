// Events, reads of the journal, input and tickets of a line's value (own: bytes in hexadecimal).
ghost use Rattle.std.specs.Prelude.{◌≡◌};
ghost use Rattle.std.specs.Result.{result_ok};
ghost use Rattle.serde_json.specs.View.{view};
ghost use Rattle.hex.specs.Hex.{decode_of};
ghost use Rattle.engine_text.specs.declared.call.Call.TheVariants as call;
ghost use Rattle.journal_lines.specs.Reading.Parts.{Reads};
ghost use Rattle.journal_lines.specs.Reading.Calls as spec;

use super::filter::filter_at;
use super::options::number_or_null;
use super::parts::{natural_at, word_at};
use crate::fault::LineFault;
use engine_text::{Bytes, Call, Owner};
use hex::FromHexError;
use serde_json::Value;
use std::alloc::Global;

// Events.
fn events_in(alloc: Global, value: &Value) -> Result<Call, LineFault>
    ensures { Reads (spec.events_in (view value.now)) result }
{
    let since = number_or_null(value, "since")?;
    let until = number_or_null(value, "until")?;
    let filter = filter_at(alloc, value, "filters")?;
    Ok(Call::Events {
        since,
        until,
        filter,
    })
}

// Whose input it is.
fn owner_of(kind: &str, number: u64) -> Result<Owner, LineFault>
    ensures { Reads (spec.owner_of kind.now number) result }
{
    match kind {
        "container" => Ok(Owner::Container(number)),
        "exec" => Ok(Owner::Exec(number)),
        _ => Err(LineFault::BadLine),
    }
}

// Whose input it is, by its kind and number.
fn owner_in(value: &Value) -> Result<Owner, LineFault>
    ensures { Reads (spec.owner_in (view value.now)) result }
{
    let kind = word_at(value, "kind")?;
    let number = natural_at(value, "number")?;
    owner_of(kind, number)
}

// Bytes in hexadecimal.
fn bytes_of(alloc: Global, digits: &str) -> Result<Bytes, LineFault>
    ensures { Reads (result_ok (decode_of digits.now)) result }
{
    match hex::decode(alloc, digits.as_bytes()) {
        Ok(bytes) => Ok(Bytes::from_vec(bytes)),
        Err(FromHexError::OutOfMemory) => Err(LineFault::NoMemory),
        Err(FromHexError::OddLength) => Err(LineFault::BadLine),
        Err(FromHexError::InvalidStringLength) => Err(LineFault::BadLine),
        Err(FromHexError::InvalidHexCharacter { .. }) => Err(LineFault::BadLine),
    }
}

// The bytes at a key.
fn bytes_at(alloc: Global, value: &Value, key: &str) -> Result<Bytes, LineFault>
    ensures { Reads (spec.bytes_at key.now (view value.now)) result }
{
    let digits = word_at(value, key)?;
    bytes_of(alloc, digits)
}

// A feed.
fn feed_in(alloc: Global, value: &Value) -> Result<Call, LineFault>
    ensures { Reads (spec.feed_in (view value.now)) result }
{
    let owner = owner_in(value)?;
    let run = natural_at(value, "run")?;
    let bytes = bytes_at(alloc, value, "bytes")?;
    Ok(Call::Feed { owner, run, bytes })
}

// An end of input.
fn feed_end_in(value: &Value) -> Result<Call, LineFault>
    ensures { Reads (spec.feed_end_in (view value.now)) result }
{
    let owner = owner_in(value)?;
    let run = natural_at(value, "run")?;
    Ok(Call::FeedEnd { owner, run })
}

// The take of a ticket.
fn take_in(value: &Value) -> Result<Call, LineFault>
    ensures { Reads (spec.ticket_in call.Take (view value.now)) result }
{
    let ticket = natural_at(value, "ticket")?;
    Ok(Call::Take { ticket })
}

// The drop of a ticket.
fn drop_in(value: &Value) -> Result<Call, LineFault>
    ensures { Reads (spec.ticket_in call.Drop (view value.now)) result }
{
    let ticket = natural_at(value, "ticket")?;
    Ok(Call::Drop { ticket })
}

/// A call of the journal, of input or of a ticket.
#[tactic(auto, unfolding(crate::specs::Reading::Calls::own_call))]
pub fn own_call(alloc: Global, op: &str, value: &Value) -> Result<Call, LineFault>
    ensures { Reads (spec.own_call op.now (view value.now)) result }
{
    match op {
        "events" => events_in(alloc, value),
        "journal" => Ok(Call::JournalRead),
        "feed" => feed_in(alloc, value),
        "feed_end" => feed_end_in(value),
        "take" => take_in(value),
        "drop" => drop_in(value),
        _ => Err(LineFault::BadLine),
    }
}
