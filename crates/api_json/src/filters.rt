// Filters in a query (Docker Engine API v1.43, the parameter `filters`).
ghost use Rattle.std.specs.Prelude.{◌≡◌, IfOk};
ghost use Rattle.serde_json.specs.View.{view, members_view};
ghost use Rattle.engine_text.specs.Filter.{filter_word};
ghost use Rattle.api_json.specs.Fault.{Answers};
ghost use Rattle.api_json.specs.Filters as spec;

use super::fault::{BodyFault, Refused};
use super::lists::read_words;
use engine_text::{Filter, FilterKey, FilterRow, NoMemory, Text, Words};
use json_laws::value_of_text;
use serde_json::{Map, Value};
use std::alloc::Global;

/// The name of a key, as a filter has it.
pub fn filter_word(key: FilterKey) -> &'static str
    ensures { result.now ≡ filter_word key }
{
    match key {
        FilterKey::Kind => "type",
        FilterKey::Action => "event",
        FilterKey::Container => "container",
        FilterKey::Image => "image",
        FilterKey::Volume => "volume",
        FilterKey::Id => "id",
        FilterKey::Name => "name",
        FilterKey::State => "status",
        FilterKey::Exited => "exited",
        FilterKey::Ancestor => "ancestor",
        FilterKey::Label => "label",
    }
}

// The key among these that has the name.
fn key_among(keys: &[FilterKey], name: &str) -> Option<FilterKey>
    ensures { result ≡ spec.key_among keys.now name.now }
{
    keys.iter().copied().find(|key| filter_word(*key) == name)
}

// The keys whose value is true, or none where a value is no truth value.
fn true_keys(alloc: Global, map: &Map<String, Value>) -> Result<Option<Words>, NoMemory>
    ensures { IfOk result (λ found. found ≡ spec.true_keys (members_view map.now.entries)) }
{
    let mut words = Words::new(alloc);
    'members: for (key, value) in map.iter() {
        let Some(on) = value.as_bool() else {
            return Ok(None);
        };
        if on {
            words.push(alloc, Text::of(alloc, key.as_str())?)?;
        }
    }
    Ok(Some(words))
}

// The values of a key: a list of texts, or an object of truth values.
fn values_in(alloc: Global, value: &Value) -> Result<Option<Words>, NoMemory>
    ensures { IfOk result (λ found. found ≡ spec.values_in (view value.now)) }
{
    if let Some(items) = value.as_array() {
        return read_words(alloc, items.as_slice());
    }
    match value.as_object() {
        None => Ok(None),
        Some(map) => true_keys(alloc, map),
    }
}

// A row: a key of this call and its values.
fn row_of(
    alloc: Global,
    keys: &[FilterKey],
    name: &str,
    value: &Value,
) -> Result<Option<FilterRow>, NoMemory>
    ensures { IfOk result (λ found. found ≡ spec.row_of keys.now name.now (view value.now)) }
{
    let Some(key) = key_among(keys, name) else {
        return Ok(None);
    };
    let Some(values) = values_in(alloc, value)? else {
        return Ok(None);
    };
    Ok(Some(FilterRow { key, values }))
}

// The rows of an object, in the order of its keys.
fn rows_in(
    alloc: Global,
    keys: &[FilterKey],
    map: &Map<String, Value>,
) -> Result<Option<Filter>, NoMemory>
    ensures { IfOk result
        (λ found. found ≡ spec.rows_in keys.now (members_view map.now.entries)) }
{
    let mut rows = Filter::new(alloc);
    'members: for (name, value) in map.iter() {
        let Some(row) = row_of(alloc, keys, name.as_str(), value)? else {
            return Ok(None);
        };
        rows.push(alloc, row)?;
    }
    Ok(Some(rows))
}

/// Reads a filter with these keys: an object from a key to a list of texts, or to an object whose
/// keys with value true are the texts; the empty text has no rows. Rows stand in byte order of
/// their keys.
#[tactic(auto, unfolding(crate::specs::Filters::filter_of))]
pub fn read_filter(alloc: Global, text: &str, keys: &[FilterKey]) -> Result<Filter, Refused>
    ensures { Answers (spec.filter_of keys.now text.now) result }
{
    if text.is_empty() {
        return Ok(Filter::new(alloc));
    }
    let Some(value) = value_of_text(alloc, text.as_bytes())? else {
        return Err(Refused::BadBody(BodyFault::InvalidFilter));
    };
    let Some(map) = value.as_object() else {
        return Err(Refused::BadBody(BodyFault::InvalidFilter));
    };
    match rows_in(alloc, keys, map)? {
        None => Err(Refused::BadBody(BodyFault::InvalidFilter)),
        Some(rows) => Ok(rows),
    }
}
