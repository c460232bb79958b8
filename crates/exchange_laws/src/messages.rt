// The body of a message.
ghost use Rattle.std.specs.Prelude.{◌≡◌, IfOk, codes, string_bytes};
ghost use Rattle.serde_json.specs.View.{view};
ghost use Rattle.serde_json.specs.Data.{string, object, no_members, member};
ghost use Rattle.machine_model.specs.Outcome.{message_text};

use engine_text::{NoMemory, Text};
use serde_json::{Value, json};
use std::alloc::{AllocError, Global};

fn message_value(alloc: Global, text: &str) -> Result<Value, AllocError>
    ensures { IfOk result
        (λ v. view v ≡ object (member (codes "message") (string text.now) no_members)) }
{
    json!(in alloc; { "message": text })
}

fn message_string(alloc: Global, text: &str) -> Result<String, AllocError>
    ensures { IfOk result (λ s. string_bytes s ≡ message_text text.now) }
{
    let value = message_value(alloc, text)?;
    value.to_string(alloc)
}

/// `{"message":"TEXT"}`
pub fn message(alloc: Global, text: &Text) -> Result<Text, NoMemory>
    ensures { IfOk result (λ t. t ≡ message_text text.now) }
{
    match message_string(alloc, text.as_str()) {
        Ok(body) => Ok(Text::from_string(body)),
        Err(_) => Err(NoMemory),
    }
}
