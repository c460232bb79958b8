// The lines of events (Docker Engine API v1.43, SystemEvents).
ghost use Rattle.std.specs.Prelude.{◌≡◌, ◌≤◌, IfOk, IfErr, true, codes};
ghost use Rattle.std.specs.Option.{option_map};
ghost use Rattle.serde_json.specs.Data.{object};
ghost use Rattle.serde_json.specs.View.{view};
ghost use Rattle.api_json.specs.Event as spec;
ghost use Rattle.api_json.specs.EventRules.{attributes_fit as fit};
ghost use Rattle.api_json.specs.Written.{Appends, tokens_of, member_tokens};

use super::event_rules::{action_word, attributes_fit, kind_word, read_action, read_kind};
use super::fault::{BodyFault, Refused};
use super::lists::read_pairs;
use super::written::{number_member, pairs_member, text_member, written_line};
use engine_text::{Bytes, Event, NoMemory, Text};
use json::Writer;
use json_laws::value_of_line;
use serde_json::Value;
use std::alloc::{AllocError, Global};

/// The greatest moment, in milliseconds.
const GREATEST_MOMENT: u64 = 9_000_000_000_000;

// Writes what an event is of.
fn actor_member(alloc: Global, out: &mut Writer, event: &Event) -> Result<(), AllocError>
    ensures { Appends result out.old out.new
        (member_tokens (codes "Actor") (object (spec.actor_members event.now))) }
{
    out.key("Actor")?;
    out.begin_object()?;
    pairs_member(alloc, out, "Attributes", event.attributes.as_slice())?;
    text_member(out, "ID", event.id.as_str())?;
    out.end_object()
}

// Writes an event.
fn write_event(alloc: Global, out: &mut Writer, event: &Event) -> Result<(), AllocError>
    requires { event.now.moment ≤ 9_000_000_000_000 }
    ensures { Appends result out.old out.new (tokens_of (spec.event_data event.now)) }
{
    out.begin_object()?;
    text_member(out, "Action", action_word(event.action))?;
    actor_member(alloc, out, event)?;
    text_member(out, "Type", kind_word(event.kind))?;
    text_member(out, "scope", "local")?;
    number_member(out, "time", event.moment / 1_000)?;
    number_member(out, "timeNano", event.moment * 1_000_000)?;
    out.end_object()
}

// The line of an event, as bytes that are compared.
fn line_of(alloc: Global, event: &Event) -> Result<Vec<u8>, AllocError>
    requires { event.now.moment ≤ 9_000_000_000_000 }
    ensures { IfOk result (λ line. line.items ≡ spec.event_line_text event.now) }
{
    let mut out = Writer::new(Vec::new(alloc));
    write_event(alloc, &mut out, event)?;
    written_line(out)
}

/// The line of an event, with its line end; the moment is at most 9,000,000,000,000.
pub fn event_line(alloc: Global, event: &Event) -> Result<Bytes, NoMemory>
    requires { event.now.moment ≤ 9_000_000_000_000 }
    ensures { IfOk result (λ line. line ≡ spec.event_line_text event.now) }
{
    let line = line_of(alloc, event)?;
    Ok(Bytes::from_vec(line))
}

// The event of a value.
fn event_of(alloc: Global, value: &Value) -> Result<Option<Event>, NoMemory>
    ensures { IfOk result (λ found. found ≡ spec.event_of (view value.now)) }
{
    let Some(action) = value
        .get("Action")
        .and_then(Value::as_str)
        .and_then(read_action)
    else {
        return Ok(None);
    };
    let Some(actor) = value.get("Actor") else {
        return Ok(None);
    };
    let Some(map) = actor.get("Attributes").and_then(Value::as_object) else {
        return Ok(None);
    };
    let Some(attributes) = read_pairs(alloc, map)? else {
        return Ok(None);
    };
    let Some(id) = actor.get("ID").and_then(Value::as_str) else {
        return Ok(None);
    };
    let Some(kind) = value
        .get("Type")
        .and_then(Value::as_str)
        .and_then(read_kind)
    else {
        return Ok(None);
    };
    let Some(nanos) = value.get("timeNano").and_then(Value::as_u64) else {
        return Ok(None);
    };
    let id = Text::of(alloc, id)?;
    Ok(Some(Event {
        kind,
        action,
        id,
        attributes,
        moment: nanos / 1_000_000,
    }))
}

/// Reads an event's line, with its line end: exactly what `event_line` writes is taken.
pub fn read_event_line(alloc: Global, line: &[u8]) -> Result<Event, Refused>
    ensures taken { IfOk result
        (λ e. spec.IsLine e × (spec.event_line_text e ≡ line.now)) }
    ensures refused { IfErr result (λ e. spec.IsLineRefusal line.now e) }
{
    let Some(value) = value_of_line(alloc, line)? else {
        return Err(Refused::BadBody(BodyFault::BadEventLine));
    };
    let Some(event) = event_of(alloc, &value)? else {
        return Err(Refused::BadBody(BodyFault::BadEventLine));
    };
    event.id.utf8();
    event.attributes.utf8();
    if event.moment > GREATEST_MOMENT {
        return Err(Refused::BadBody(BodyFault::BadEventLine));
    }
    if !attributes_fit(event.kind, event.action, event.attributes.as_slice()) {
        return Err(Refused::BadBody(BodyFault::BadEventLine));
    }
    let again = line_of(alloc, &event)?;
    if again.as_slice() != line {
        return Err(Refused::BadBody(BodyFault::BadEventLine));
    }
    Ok(event)
}

/// A law: an event's line is read back as that event; only memory can be wanting.
pub fn law_event_line_reads_back(alloc: Global, event: &Event) -> Result<Event, Refused>
    requires moment { event.now.moment ≤ 9_000_000_000_000 }
    requires attributes { fit event.now.kind event.now.action event.now.attributes ≡ true }
    ensures same { IfOk result (λ e. e ≡ event.now) }
    ensures refused { IfErr result (λ e. e ≡ Refused.NoMemory) }
{
    event.id.utf8();
    event.attributes.utf8();
    let line = event_line(alloc, event)?;
    read_event_line(alloc, line.as_slice())
}
