// Replies as values.
ghost use Rattle.std.specs.Prelude.{◌≡◌, IfOk, false};
ghost use Rattle.serde_json.specs.View.{view};
ghost use Rattle.serde_json.specs.Written.{has_float, compact_text};
ghost use Rattle.journal_lines.specs.JournalLines as spec;

use engine_text::{Call, NoMemory, Reply, Text};
use json_objects::Object;
use serde_json::Value;
use std::alloc::{AllocError, Global};

// An answer at once.
fn answer_value(alloc: Global, status: u16, body: &Text) -> Result<Value, AllocError>
    ensures { IfOk result (λ v. view v ≡ spec.answer_value status body.now) }
{
    let object = Object::new(alloc)
        .text(alloc, "body", body.as_str())?
        .number(alloc, "status", status as u64)?;
    Ok(object.value())
}

// A stream, which begins there.
fn from_value(alloc: Global, first: u64) -> Result<Value, AllocError>
    ensures { IfOk result (λ v. view v ≡ spec.from_value first) }
{
    let object = Object::new(alloc)
        .number(alloc, "from", first)?
        .number(alloc, "status", 200)?;
    Ok(object.value())
}

// An object with this number alone.
fn one_number(alloc: Global, key: &str, number: u64) -> Result<Value, AllocError>
    ensures { IfOk result (λ v. view v ≡ spec.one_number key.now number) }
{
    Ok(Object::new(alloc).number(alloc, key, number)?.value())
}

// Whether input was taken.
fn fed_value(alloc: Global, taken: bool) -> Result<Value, AllocError>
    ensures { IfOk result (λ v. view v ≡ spec.fed_value taken) }
{
    Ok(Object::new(alloc).flag(alloc, "fed", taken)?.value())
}

// The ticket that a call ends, or 0.
fn ended_ticket(call: &Call) -> u64
    ensures { result ≡ spec.ended_ticket call.now }
{
    match call {
        Call::Take { ticket } => *ticket,
        Call::Drop { ticket } => *ticket,
        _ => 0,
    }
}

/// A reply, beside its call.
pub fn reply_value(alloc: Global, call: &Call, reply: &Reply) -> Result<Value, AllocError>
    ensures { IfOk result (λ v. view v ≡ spec.reply_value call.now reply.now) }
{
    match reply {
        Reply::Answer { status, body } => answer_value(alloc, *status, body),
        Reply::Begun { ticket } => one_number(alloc, "ticket", *ticket),
        Reply::LogStream { spec } => from_value(alloc, spec.first),
        Reply::EventStream { first, .. } => from_value(alloc, *first),
        Reply::JournalStream { count } => from_value(alloc, *count),
        Reply::Fed { taken } => fed_value(alloc, *taken),
        Reply::Dropped => one_number(alloc, "dropped", ended_ticket(call)),
    }
}

// The compact text of a value without a float.
fn value_text(alloc: Global, value: &Value) -> Result<Text, NoMemory>
    requires { has_float (view value.now) ≡ false }
    ensures { IfOk result (λ text. text ≡ compact_text (view value.now)) }
{
    let text = value.to_string(alloc)?;
    Ok(Text::from_string(text))
}

/// The text of a reply, beside its call: what a line keeps of it.
pub fn reply_text(alloc: Global, call: &Call, reply: &Reply) -> Result<Text, NoMemory>
    ensures { IfOk result (λ text. text ≡ compact_text (spec.reply_value call.now reply.now)) }
{
    let value = reply_value(alloc, call, reply)?;
    value_text(alloc, &value)
}
