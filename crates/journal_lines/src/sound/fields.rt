// Whether a request can give a field, by its kind.
ghost use Rattle.std.specs.Prelude.{◌≡◌};
ghost use Rattle.std.specs.List.{list_all};
ghost use Rattle.journal_lines.specs.CallFields.{fields_of};
ghost use Rattle.journal_lines.specs.Fields as spec;
ghost use Rattle.journal_lines.specs.LentFields.{told_field, told_list};

use super::bounds::{
    are_fed, are_words, is_count_if_given, is_health_if_given, is_number_if_given,
    is_seconds_if_given, is_signal_if_given, is_text, is_text_if_given,
};
use super::filters::is_filter;
use super::mounts::are_mounts;
use super::rising::are_labels;
use crate::fields::{Field, FieldsUse, KeyedField, of_fields};
use engine_text::Call;

// Whether a request can give it.
fn is_field_sound(field: &Field<'_>) -> bool
    ensures { result ≡ spec.is_field_sound (told_field field.now) }
{
    match *field {
        Field::Word(_) => true,
        Field::Text(test, text) => is_text(test, text),
        Field::TextOrNone(test, text) => is_text_if_given(test, text),
        Field::NumberOrNone(test, number) => is_number_if_given(test, number),
        Field::CountOrNone(test, count) => is_count_if_given(test, count),
        Field::SignalOrNone(signal) => is_signal_if_given(signal),
        Field::SecondsOrNone(seconds) => is_seconds_if_given(seconds),
        Field::Flag(_) => true,
        Field::TextList(test, words) => are_words(test, words),
        Field::LabelPairs(pairs) => are_labels(pairs.as_slice()),
        Field::MountList(mounts) => are_mounts(mounts.as_slice()),
        Field::FilterRows(test, filter) => is_filter(test, filter.as_slice()),
        Field::HexBytes(bytes) => are_fed(bytes),
        Field::WordOrNone(_) => true,
        Field::FlagIfSet(_) => true,
        Field::CheckIfGiven(check) => is_health_if_given(check),
    }
}

// Whether it can give each that is lent.
fn are_all_sound(fields: &[KeyedField<'_>]) -> bool
    ensures { result ≡ list_all (λ f. spec.is_field_sound (told_field f.1)) fields.now }
{
    fields.iter().all(|keyed| is_field_sound(&keyed.1))
}

// Whether a request can give each of these fields.
fn are_sound(fields: &[KeyedField<'_>]) -> bool
    ensures { result ≡ spec.are_fields_sound (told_list fields.now) }
{
    are_all_sound(fields)
}

/// Fields are tested.
#[derive(Drop)]
struct Testing;

impl FieldsUse for Testing {
    type Answer = bool;

    ghost gives = { λ t fs r. r ≡ spec.are_fields_sound fs };

    fn of(&self, fields: &[KeyedField<'_>]) -> bool {
        are_sound(fields)
    }
}

/// Whether a request can give each field of a call.
pub fn are_fields_sound(call: &Call) -> bool
    ensures { result ≡ spec.are_fields_sound (fields_of call.now) }
{
    of_fields(call, &Testing)
}
