// Lists of a body.
ghost use Rattle.std.specs.Prelude.{◌≡◌, ◌++◌, codes, IfOk};
ghost use Rattle.serde_json.specs.View.{view, items_view};
ghost use Rattle.json_laws.specs.Pairs.{words_of};
ghost use Rattle.api_json.specs.Event.{text_at as text_of};
ghost use Rattle.client_model.specs.Bodies as spec;
ghost use Rattle.client_parts.specs.Reading.{Reads};

use super::fields::{data_in, text_at};
use crate::Unread;
use engine_text::{NoMemory, Text, Words, without_slash};
use serde_json::Value;
use std::alloc::Global;

/// The texts of items that are all texts.
pub(crate) fn texts_of(alloc: Global, items: &[Value]) -> Result<Words, Unread>
    ensures { Reads result (words_of (items_view items.now)) }
{
    let mut words = Words::new(alloc);
    'items: for item in items {
        let Some(text) = item.as_str() else {
            return Err(Unread::NoForm);
        };
        words.push(alloc, Text::of(alloc, text)?)?;
    }
    Ok(words)
}

/// The first of a container's names, without its slash.
fn name_at(alloc: Global, value: &Value) -> Result<Text, Unread>
    ensures { Reads result (spec.name_at (view value.now)) }
{
    let list = value.get("Names").ok_or(Unread::NoForm)?;
    let items = list.as_array().ok_or(Unread::NoForm)?;
    let names = texts_of(alloc, items.as_slice())?;
    match names.as_slice() {
        [] => Err(Unread::NoForm),
        [name, ..] => Ok(Text::of(alloc, without_slash(name.as_str()))?),
    }
}

/// One word more, behind a blank.
pub(crate) fn with_word(line: Text, word: &str) -> Result<Text, NoMemory>
    ensures { IfOk result (λ t. t ≡ line ++ codes " " ++ word.now) }
{
    let mut string = line.into_string();
    string.push_str(" ")?;
    string.push_str(word)?;
    Ok(Text::from_string(string))
}

/// Four words, apart by single blanks.
fn line_of(alloc: Global, id: &str, name: &str, state: &str, status: &str) -> Result<Text, NoMemory>
    ensures { IfOk result (λ t. t ≡ id.now ++ codes " " ++ name.now ++ codes " " ++ state.now
        ++ codes " " ++ status.now) }
{
    let line = Text::of(alloc, id)?;
    let line = with_word(line, name)?;
    let line = with_word(line, state)?;
    with_word(line, status)
}

/// `ID NAME STATE STATUS`.
fn container_line(alloc: Global, value: &Value) -> Result<Text, Unread>
    ensures { Reads result (spec.container_line (view value.now)) }
{
    let id = text_at(value, "Id")?;
    let name = name_at(alloc, value)?;
    let state = text_at(value, "State")?;
    let status = text_at(value, "Status")?;
    Ok(line_of(alloc, id, name.as_str(), state, status)?)
}

/// The line of each container.
fn lines_of(alloc: Global, items: &[Value]) -> Result<Words, Unread>
    ensures { Reads result (spec.read_items spec.container_line (items_view items.now)) }
{
    let mut lines = Words::new(alloc);
    'items: for item in items {
        lines.push(alloc, container_line(alloc, item)?)?;
    }
    Ok(lines)
}

/// A line of each container of a list.
pub fn container_lines_in(alloc: Global, body: &[u8]) -> Result<Words, Unread>
    ensures { Reads result (spec.container_lines_in body.now) }
{
    let value = data_in(alloc, body)?;
    let items = value.as_array().ok_or(Unread::NoForm)?;
    lines_of(alloc, items.as_slice())
}

/// The name of each volume.
fn names_of(alloc: Global, items: &[Value]) -> Result<Words, Unread>
    ensures { Reads result (spec.read_items (text_of (codes "Name")) (items_view items.now)) }
{
    let mut names = Words::new(alloc);
    'items: for item in items {
        names.push(alloc, Text::of(alloc, text_at(item, "Name")?)?)?;
    }
    Ok(names)
}

/// The name of each of a list's volumes.
pub fn volume_names_in(alloc: Global, body: &[u8]) -> Result<Words, Unread>
    ensures { Reads result (spec.volume_names_in body.now) }
{
    let value = data_in(alloc, body)?;
    let list = value.get("Volumes").ok_or(Unread::NoForm)?;
    let items = list.as_array().ok_or(Unread::NoForm)?;
    names_of(alloc, items.as_slice())
}
