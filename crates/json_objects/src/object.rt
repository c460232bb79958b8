// The members of a JSON object, one after another (RFC 8259, section 4).
ghost use Rattle.std.specs.Prelude.{◌≡◌, IfOk};
ghost use Rattle.serde_json.specs.Data as json;
ghost use Rattle.serde_json.specs.View.{view};
ghost use Rattle.json_laws.specs.Pairs.{words_data};

use super::words::words_value;
use engine_text::Text;
use serde_json::{Map, Value, put};
use std::alloc::{AllocError, Global};

/// A JSON object that is being built: a member takes the place of an earlier one of its key, and
/// the keys stand in byte order. A refused call lets the object go.
#[derive(Drop)]
pub struct Object {
    map: Map<String, Value>,
}

impl Object {
    ghost use Rattle.json_objects.specs.Object.{members_in};

    /// Without members.
    pub fn new(alloc: Global) -> Object
        ensures { members_in result ≡ json.no_members }
    {
        Object {
            map: Map::new(alloc),
        }
    }

    /// With this member.
    pub fn with(self, alloc: Global, key: &str, value: Value) -> Result<Object, AllocError>
        ensures { IfOk result
            (λ o. members_in o ≡ json.put key.now (view value) (members_in self)) }
    {
        let mut map = self.map;
        put(&mut map, alloc, key, value)?;
        Ok(Object { map })
    }

    /// With this text.
    pub fn text(self, alloc: Global, key: &str, text: &str) -> Result<Object, AllocError>
        ensures { IfOk result
            (λ o. members_in o ≡ json.put key.now (json.string text.now) (members_in self)) }
    {
        let value = Value::try_from_str(alloc, text)?;
        self.with(alloc, key, value)
    }

    /// With this truth value.
    pub fn flag(self, alloc: Global, key: &str, on: bool) -> Result<Object, AllocError>
        ensures { IfOk result
            (λ o. members_in o ≡ json.put key.now (json.boolean on) (members_in self)) }
    {
        self.with(alloc, key, Value::Bool(on))
    }

    /// With this number.
    pub fn number(self, alloc: Global, key: &str, number: u64) -> Result<Object, AllocError>
        ensures { IfOk result
            (λ o. members_in o
            ≡ json.put key.now (json.number (json.unsigned number)) (members_in self)) }
    {
        self.with(alloc, key, Value::from(number))
    }

    /// With the list of these words.
    pub fn words(self, alloc: Global, key: &str, words: &[Text]) -> Result<Object, AllocError>
        ensures { IfOk result
            (λ o. members_in o ≡ json.put key.now (words_data words.now) (members_in self)) }
    {
        let value = words_value(alloc, words)?;
        self.with(alloc, key, value)
    }

    /// The object.
    pub fn value(self) -> Value
        ensures { view result ≡ json.object (members_in self) }
    {
        Value::Object(self.map)
    }
}
