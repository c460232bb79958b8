// A filter of a line's value.
ghost use Rattle.std.specs.Prelude.{◌≡◌};
ghost use Rattle.serde_json.specs.View.{view, members_view};
ghost use Rattle.api_json.specs.Filters.{key_among};
ghost use Rattle.journal_lines.specs.Reading.Parts.{Reads};
ghost use Rattle.journal_lines.specs.Reading.Lists as spec;

use super::lists::words_in;
use super::parts::part_at;
use crate::fault::LineFault;
use engine_text::{Filter, FilterKey, FilterRow};
use serde_json::{Map, Value};
use std::alloc::Global;

// The key of a name.
fn key_of(name: &str) -> Option<FilterKey>
    ensures { result ≡ key_among spec.filter_keys name.now }
{
    match name {
        "type" => Some(FilterKey::Kind),
        "event" => Some(FilterKey::Action),
        "container" => Some(FilterKey::Container),
        "image" => Some(FilterKey::Image),
        "volume" => Some(FilterKey::Volume),
        "id" => Some(FilterKey::Id),
        "name" => Some(FilterKey::Name),
        "status" => Some(FilterKey::State),
        "exited" => Some(FilterKey::Exited),
        "ancestor" => Some(FilterKey::Ancestor),
        "label" => Some(FilterKey::Label),
        _ => None,
    }
}

// A row: a key and the texts of a list.
fn row_of(alloc: Global, name: &str, value: &Value) -> Result<FilterRow, LineFault>
    ensures { Reads (spec.row_of name.now (view value.now)) result }
{
    let Some(key) = key_of(name) else {
        return Err(LineFault::BadLine);
    };
    let values = words_in(alloc, value)?;
    Ok(FilterRow { key, values })
}

// The rows of an object's members.
fn rows_of(alloc: Global, map: &Map<String, Value>) -> Result<Filter, LineFault>
    ensures { Reads (spec.rows_of (members_view map.now.entries)) result }
{
    let mut rows = Filter::new(alloc);
    'members: for (name, value) in map.iter() {
        let row = row_of(alloc, name.as_str(), value)?;
        rows.push(alloc, row)?;
    }
    Ok(rows)
}

// The rows of an object.
fn filter_in(alloc: Global, value: &Value) -> Result<Filter, LineFault>
    ensures { Reads (spec.filter_in (view value.now)) result }
{
    match value.as_object() {
        None => Err(LineFault::BadLine),
        Some(map) => rows_of(alloc, map),
    }
}

/// The filter at a key.
pub fn filter_at(alloc: Global, value: &Value, key: &str) -> Result<Filter, LineFault>
    ensures { Reads (spec.filter_at key.now (view value.now)) result }
{
    let part = part_at(value, key)?;
    filter_in(alloc, part)
}
