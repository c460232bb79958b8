// Fields as values, each by its kind.
ghost use Rattle.std.specs.Prelude.{◌≡◌, IfOk};
ghost use Rattle.hex.specs.Hex.{encode_lower};
ghost use Rattle.serde_json.specs.Data.{object, no_members};
ghost use Rattle.serde_json.specs.View.{view};
ghost use Rattle.api_json.specs.Values.{text};
ghost use Rattle.json_objects.specs.Object.{members_in};
ghost use Rattle.journal_lines.specs.Fields as spec;
ghost use Rattle.journal_lines.specs.JournalLines.{call_value};
ghost use Rattle.journal_lines.specs.LentFields.{told_field, told_list};

use super::filter::filter_value;
use super::options::{
    check_or_null, count_or_null, number_or_null, seconds_or_null, signal_or_null, text_or_null,
    word_or_null,
};
use super::values::{mounts_value, pairs_value, words_value};
use crate::fields::{Field, FieldsUse, KeyedField, of_fields};
use crate::format::Format;
use engine_text::{Bytes, Call};
use json_objects::Object;
use serde_json::Value;
use std::alloc::{AllocError, Global};

// Bytes in hexadecimal.
fn hex_value(alloc: Global, bytes: &Bytes) -> Result<Value, AllocError>
    ensures { IfOk result (λ v. view v ≡ text (encode_lower bytes.now)) }
{
    let digits = hex::encode(alloc, bytes.as_slice())?;
    Ok(Value::String(digits))
}

// A field.
fn field_value(alloc: Global, field: &Field<'_>) -> Result<Value, AllocError>
    ensures { IfOk result (λ v. view v ≡ spec.field_value (told_field field.now)) }
{
    match *field {
        Field::Word(word) => Value::try_from_str(alloc, word),
        Field::Text(_, text) => Value::try_from_str(alloc, text.as_str()),
        Field::TextOrNone(_, text) => text_or_null(alloc, text),
        Field::NumberOrNone(_, number) => Ok(number_or_null(number)),
        Field::CountOrNone(_, count) => Ok(count_or_null(count)),
        Field::SignalOrNone(signal) => Ok(signal_or_null(signal)),
        Field::SecondsOrNone(seconds) => Ok(seconds_or_null(seconds)),
        Field::Flag(on) => Ok(Value::Bool(on)),
        Field::TextList(_, words) => words_value(alloc, words.as_slice()),
        Field::LabelPairs(pairs) => pairs_value(alloc, pairs.as_slice()),
        Field::MountList(mounts) => mounts_value(alloc, mounts.as_slice()),
        Field::FilterRows(_, filter) => filter_value(alloc, filter.as_slice()),
        Field::HexBytes(bytes) => hex_value(alloc, bytes),
        Field::WordOrNone(word) => word_or_null(alloc, word),
        Field::FlagIfSet(on) => Ok(Value::Bool(on)),
        Field::CheckIfGiven(check) => check_or_null(alloc, check),
    }
}

// Whether what says something or nothing stands in a line of that format.
fn stands_in(format: Format, says: bool) -> bool
    ensures { result ≡ spec.stands_in format says }
{
    match format {
        Format::First => says,
        Format::Second => true,
    }
}

// Whether a field stands there.
fn is_written(format: Format, field: &Field<'_>) -> bool
    ensures { result ≡ spec.is_written format (told_field field.now) }
{
    match *field {
        Field::FlagIfSet(on) => stands_in(format, on),
        Field::CheckIfGiven(check) => stands_in(format, check.is_some()),
        _ => true,
    }
}

// The object with a field more, if it stands in a line.
fn with_field(
    alloc: Global,
    format: Format,
    object: Object,
    key: &str,
    field: &Field<'_>,
) -> Result<Object, AllocError>
    ensures { IfOk result (λ o. members_in o
        ≡ spec.put_field format (key.now, told_field field.now) (members_in object)) }
{
    if !is_written(format, field) {
        return Ok(object);
    }
    let value = field_value(alloc, field)?;
    object.with(alloc, key, value)
}

// The object of these fields, put in one after another.
fn fields_value(
    alloc: Global,
    format: Format,
    fields: &[KeyedField<'_>],
) -> Result<Value, AllocError>
    ensures { IfOk result
        (λ v. view v ≡ object (spec.put_fields format (told_list fields.now) no_members)) }
{
    let mut object = Object::new(alloc);
    'fields: for keyed in fields {
        let (key, field) = *keyed;
        object = with_field(alloc, format, object, key, &field)?;
    }
    Ok(object.value())
}

/// Fields become an object of a line of that format.
#[derive(Drop)]
struct Writing {
    alloc: Global,
    format: Format,
}

impl FieldsUse for Writing {
    type Answer = Result<Value, AllocError>;

    ghost gives = { λ w fs r. IfOk r
        (λ v. view v ≡ object (spec.put_fields w.format fs no_members)) };

    fn of(&self, fields: &[KeyedField<'_>]) -> Result<Value, AllocError> {
        fields_value(self.alloc, self.format, fields)
    }
}

/// A call, its keys in byte order.
pub fn call_value(alloc: Global, format: Format, call: &Call) -> Result<Value, AllocError>
    ensures { IfOk result (λ v. view v ≡ call_value format call.now) }
{
    let value = of_fields(call, &Writing { alloc, format })?;
    Ok(value)
}
