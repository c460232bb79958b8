// Texts of a body.
ghost use Rattle.serde_json.specs.View.{view};
ghost use Rattle.json_laws.specs.Text.{data_of};
ghost use Rattle.api_json.specs.Event.{text_at};
ghost use Rattle.client_model.specs.Bodies as spec;
ghost use Rattle.client_parts.specs.Reading.{Reads, ReadsAs};

use crate::Unread;
use engine_text::Text;
use json_laws::value_of_text;
use serde_json::Value;
use std::alloc::Global;

/// The data of a body.
pub(crate) fn data_in(alloc: Global, body: &[u8]) -> Result<Value, Unread>
    ensures { ReadsAs view result (data_of body.now) }
{
    match value_of_text(alloc, body)? {
        Some(value) => Ok(value),
        None => Err(Unread::NoForm),
    }
}

/// The text at a key.
pub(crate) fn text_at<'v>(value: &'v Value, name: &str) -> Result<&'v str, Unread>
    ensures { ReadsAs (λ s. s.now) result (text_at name.now (view value.now)) }
{
    value
        .get(name)
        .and_then(Value::as_str)
        .ok_or(Unread::NoForm)
}

/// The text at a key of a body.
fn text_in(alloc: Global, name: &str, body: &[u8]) -> Result<Text, Unread>
    ensures { Reads result (spec.text_in name.now body.now) }
{
    let value = data_in(alloc, body)?;
    let text = text_at(&value, name)?;
    Ok(Text::of(alloc, text)?)
}

/// The most bytes of an id.
const ID_LIMIT: usize = 4096;

/// A text that may be an id.
fn if_id(text: &str) -> Result<&str, Unread>
    ensures { ReadsAs (λ s. s.now) result (spec.if_id text.now) }
{
    if text.is_empty() || text.len() > ID_LIMIT {
        return Err(Unread::NoForm);
    }
    Ok(text)
}

/// `Id`: what was created.
pub fn id_in(alloc: Global, body: &[u8]) -> Result<Text, Unread>
    ensures { Reads result (spec.id_in body.now) }
{
    let value = data_in(alloc, body)?;
    let id = if_id(text_at(&value, "Id")?)?;
    Ok(Text::of(alloc, id)?)
}

/// `message`: why a request was refused.
pub fn message_in(alloc: Global, body: &[u8]) -> Result<Text, Unread>
    ensures { Reads result (spec.message_in body.now) }
{
    text_in(alloc, "message", body)
}
