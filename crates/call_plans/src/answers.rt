// Answers that are made before the step, without a change.
ghost use Rattle.std.specs.Prelude.{◌≡◌, ℕ, IfOk, codes, string_bytes};
ghost use Rattle.serde_json.specs.View.{view};
ghost use Rattle.serde_json.specs.Data.{string, object, no_members, member};
ghost use Rattle.machine_model.specs.Outcome.{message_text};
ghost use Rattle.call_plans.specs.Making.{IsAnswer, IsStream};

use crate::plan::Plan;
use crate::prepared::Prepared;
use engine_text::{NoMemory, Reply, Text};
use serde_json::{Value, json};
use std::alloc::{AllocError, Global};

fn message_value(alloc: Global, text: &str) -> Result<Value, AllocError>
    ensures { IfOk result
        (λ v. view v ≡ object (member (codes "message") (string text.now) no_members)) }
{
    json!(in alloc; { "message": text })
}

fn message_string(alloc: Global, text: &str) -> Result<String, AllocError>
    ensures { IfOk result (λ s. string_bytes s ≡ message_text text.now) }
{
    let value = message_value(alloc, text)?;
    value.to_string(alloc)
}

/// The body of a refusal with that text.
pub fn message(alloc: Global, text: &str) -> Result<Text, NoMemory>
    ensures { IfOk result (λ t. t ≡ message_text text.now) }
{
    let body = message_string(alloc, text)?;
    Ok(Text::from_string(body))
}

/// A reply to a plan without events.
pub fn answer(alloc: Global, moment: u64, status: u16, body: Text) -> Prepared
    ensures { IsAnswer moment status body result }
{
    Prepared {
        moment,
        reply: Reply::Answer { status, body },
        events: Vec::new(alloc),
        plan: Plan::Nothing,
    }
}

/// A reply that gives a stream, without events; it changes nothing.
pub fn stream(alloc: Global, moment: u64, reply: Reply) -> Prepared
    ensures { IsStream moment reply result }
{
    Prepared {
        moment,
        reply,
        events: Vec::new(alloc),
        plan: Plan::Nothing,
    }
}

/// A refusal with that text.
pub fn refuse(alloc: Global, moment: u64, status: u16, text: &Text) -> Result<Prepared, NoMemory>
    ensures { IfOk result (λ p. IsAnswer moment status (message_text text.now) p) }
{
    let body = message(alloc, text.as_str())?;
    Ok(answer(alloc, moment, status, body))
}
