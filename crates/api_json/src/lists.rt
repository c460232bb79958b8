// Words and pairs in bodies.
ghost use Rattle.std.specs.Prelude.{◌≡◌, ◌++◌, IfOk};
ghost use Rattle.serde_json.specs.View.{view, items_view, members_view};
ghost use Rattle.json_laws.specs.Pairs.{words_of};
ghost use Rattle.api_json.specs.Fault.{Answers};
ghost use Rattle.api_json.specs.Lists as spec;

use super::fault::{BodyFault, BodyKey, Refused};
use super::fields::field;
use engine_text::{NoMemory, Pair, Pairs, Text, Words};
use serde_json::{Map, Value};
use std::alloc::Global;

/// The texts of a list, or none where an item is no text.
pub fn read_words(alloc: Global, items: &[Value]) -> Result<Option<Words>, NoMemory>
    ensures { IfOk result (λ found. found ≡ words_of (items_view items.now)) }
{
    let mut words = Words::new(alloc);
    'items: for item in items {
        let Some(text) = item.as_str() else {
            return Ok(None);
        };
        words.push(alloc, Text::of(alloc, text)?)?;
    }
    Ok(Some(words))
}

/// These words and then those.
pub fn join_words(alloc: Global, first: Words, second: &[Text]) -> Result<Words, NoMemory>
    ensures { IfOk result (λ words. words ≡ first ++ second.now) }
{
    let mut words = first;
    'second: for word in second {
        words.push(alloc, word.copy(alloc)?)?;
    }
    Ok(words)
}

// The texts of a list of texts.
fn texts_in(alloc: Global, value: &Value) -> Result<Option<Words>, NoMemory>
    ensures { IfOk result (λ found. found ≡ spec.texts_in (view value.now)) }
{
    match value.as_array() {
        None => Ok(None),
        Some(items) => read_words(alloc, items.as_slice()),
    }
}

// The words of a text, which is one, or of a list of texts.
fn words_in(alloc: Global, value: &Value) -> Result<Option<Words>, NoMemory>
    ensures { IfOk result (λ found. found ≡ spec.words_in (view value.now)) }
{
    let Some(word) = value.as_str() else {
        return texts_in(alloc, value);
    };
    let mut words = Words::new(alloc);
    words.push(alloc, Text::of(alloc, word)?)?;
    Ok(Some(words))
}

/// The words of a field, none where it is absent.
pub fn words_field(alloc: Global, body: &Value, key: BodyKey) -> Result<Words, Refused>
    ensures { Answers (spec.words_field key (view body.now)) result }
{
    match field(body, key) {
        None => Ok(Words::new(alloc)),
        Some(value) => match words_in(alloc, value)? {
            None => Err(Refused::BadBody(BodyFault::BadField(key))),
            Some(words) => Ok(words),
        },
    }
}

/// The texts of a field that is a list of texts, none where it is absent.
pub fn texts_field(alloc: Global, body: &Value, key: BodyKey) -> Result<Words, Refused>
    ensures { Answers (spec.texts_field key (view body.now)) result }
{
    match field(body, key) {
        None => Ok(Words::new(alloc)),
        Some(value) => match texts_in(alloc, value)? {
            None => Err(Refused::BadBody(BodyFault::BadField(key))),
            Some(words) => Ok(words),
        },
    }
}

/// The pairs of an object's members, or none where a value is no text.
pub fn read_pairs(alloc: Global, map: &Map<String, Value>) -> Result<Option<Pairs>, NoMemory>
    ensures { IfOk result (λ found. found ≡ spec.pairs_of_members (members_view map.now.entries)) }
{
    let mut pairs = Pairs::new(alloc);
    'members: for (key, value) in map.iter() {
        let Some(text) = value.as_str() else {
            return Ok(None);
        };
        let key = Text::of(alloc, key.as_str())?;
        let value = Text::of(alloc, text)?;
        pairs.push(alloc, Pair { key, value })?;
    }
    Ok(Some(pairs))
}

/// The pairs of an object of texts, in the order of its keys.
pub fn pairs_in(alloc: Global, value: &Value) -> Result<Option<Pairs>, NoMemory>
    ensures { IfOk result (λ found. found ≡ spec.pairs_in (view value.now)) }
{
    match value.as_object() {
        None => Ok(None),
        Some(map) => read_pairs(alloc, map),
    }
}

/// The labels of a body, none where they are absent.
pub fn read_labels(alloc: Global, body: &Value) -> Result<Pairs, Refused>
    ensures { Answers (spec.labels_of (view body.now)) result }
{
    match field(body, BodyKey::Labels) {
        None => Ok(Pairs::new(alloc)),
        Some(value) => match pairs_in(alloc, value)? {
            None => Err(Refused::BadBody(BodyFault::BadField(BodyKey::Labels))),
            Some(pairs) => Ok(pairs),
        },
    }
}
