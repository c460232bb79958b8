// What the types of a call and a reply give: texts of UTF-8, numbers of 64 bits, bytes.
ghost use Rattle.std.specs.Prelude.{◌≡◌, All, IfSome, IsUtf8, length};
ghost use Rattle.hex.specs.Hex.{IsBytes};
ghost use Rattle.journal_lines.specs.CallFields as table;
ghost use Rattle.journal_lines.specs.Fields as kind;
ghost use Rattle.journal_lines.specs.FitsTypes as spec;
ghost use Rattle.journal_lines.specs.LentFields.{told_field, told_list};

use crate::fields::{Field, FieldsUse, KeyedField, of_fields};
use engine_text::{Bytes, Call, Entry, HealthSpec, Reply, Signal, Text};

// Does nothing: its clause says that a number has 64 bits.
fn word(number: u64)
    ensures { kind.IsWord number }
{
    let _ = number;
}

// Does nothing: its clause says that a number has 16 bits.
fn short(number: u16)
    ensures { spec.IsShort number }
{
    let _ = number;
}

// Does nothing: its clause says that a number has 32 bits.
fn count(number: u32)
    ensures { spec.IsCount number }
{
    let _ = number;
}

// Does nothing: its clause says that each is a byte.
fn each_byte(bytes: &[u8])
    ensures { IsBytes bytes.now }
{
    let _ = bytes;
}

/// Does nothing: its clauses say what the type of a seed gives.
pub fn seed_bytes(seed: &[u8; 32])
    ensures bytes { IsBytes seed.now }
    ensures long { length seed.now ≡ 32 }
{
    each_byte(seed.as_slice());
}

// Does nothing: its clause says that each is a byte.
fn bytes(bytes: &Bytes)
    ensures { IsBytes bytes.now }
{
    each_byte(bytes.as_slice());
}

// Does nothing: its clause says that a text, if it is given, is UTF-8.
fn text_if_given(text: &Option<Text>)
    ensures { IfSome text.now IsUtf8 }
{
    match text {
        None => {}
        Some(text) => text.utf8(),
    }
}

// Does nothing: its clause says that a number, if it is given, has 64 bits.
fn word_if_given(number: Option<u64>)
    ensures { IfSome number kind.IsWord }
{
    match number {
        None => {}
        Some(number) => word(number),
    }
}

// Does nothing: its clause says that a count, if it is given, has 64 bits.
fn count_if_given(number: Option<u32>)
    ensures { IfSome number kind.IsWord }
{
    match number {
        None => {}
        Some(number) => word(number as u64),
    }
}

// Does nothing: its clause says that a signal's number, if it is given, has 64 bits.
fn signal_if_given(signal: Option<Signal>)
    ensures { kind.FieldFitsType (table.signal_field signal) }
{
    match signal {
        None => {}
        Some(signal) => word(signal.number as u64),
    }
}

// Does nothing: its clause says what the type of a health check gives.
fn check_texts(check: &HealthSpec)
    ensures { kind.CheckFitsType check.now }
{
    word(check.interval);
    word(check.retries as u64);
    word(check.start_period);
    word(check.timeout);
    check.words.utf8();
}

// Does nothing: its clause says what the type of a check, if it is given, gives.
fn check_if_given(check: &Option<HealthSpec>)
    ensures { IfSome check.now kind.CheckFitsType }
{
    match check {
        None => {}
        Some(check) => check_texts(check),
    }
}

// Does nothing: its clause says what the type of a field gives.
fn field_texts(field: &Field<'_>)
    ensures { kind.FieldFitsType (told_field field.now) }
{
    match *field {
        Field::Word(_) => {}
        Field::Text(_, text) => text.utf8(),
        Field::TextOrNone(_, text) => text_if_given(text),
        Field::NumberOrNone(_, number) => word_if_given(number),
        Field::CountOrNone(_, count) => count_if_given(count),
        Field::SignalOrNone(signal) => signal_if_given(signal),
        Field::SecondsOrNone(_) => {}
        Field::Flag(_) => {}
        Field::TextList(_, words) => words.utf8(),
        Field::LabelPairs(pairs) => pairs.utf8(),
        Field::MountList(mounts) => mounts.utf8(),
        Field::FilterRows(_, filter) => filter.utf8(),
        Field::HexBytes(fed) => bytes(fed),
        Field::WordOrNone(_) => {}
        Field::FlagIfSet(_) => {}
        Field::CheckIfGiven(check) => check_if_given(check),
    }
}

// Does nothing: its clause says what the types of fields that are lent give.
fn each_fits(fields: &[KeyedField<'_>])
    ensures { All (λ f. kind.FieldFitsType (told_field f.1)) fields.now }
{
    for keyed in fields {
        field_texts(&keyed.1);
    }
}

// Does nothing: its clause says what the types of these fields give.
fn fit_types(fields: &[KeyedField<'_>])
    ensures { kind.FieldsFitTypes (told_list fields.now) }
{
    each_fits(fields);
}

/// Of fields it is known what their types give.
#[derive(Drop)]
struct Fitting;

impl FieldsUse for Fitting {
    type Answer = ();

    ghost gives = { λ f fs r. kind.FieldsFitTypes fs };

    fn of(&self, fields: &[KeyedField<'_>]) {
        fit_types(fields);
    }
}

// Does nothing: its clause says what the types of a call give.
fn call_texts(call: &Call)
    ensures { spec.FitsTypes call.now }
{
    of_fields(call, &Fitting);
}

// Does nothing: its clause says what the types of a reply give.
fn reply_texts(reply: &Reply)
    ensures { spec.ReplyFitsTypes reply.now }
{
    match reply {
        Reply::Answer { status, body } => {
            short(*status);
            body.utf8();
        }
        Reply::Begun { ticket } => word(*ticket),
        Reply::LogStream { spec } => word(spec.first),
        Reply::EventStream { first, .. } => word(*first),
        Reply::JournalStream { count } => word(*count),
        Reply::Fed { .. } => {}
        Reply::Dropped => {}
    }
}

/// Does nothing: its clause says what the types of an entry give.
pub fn entry_texts(entry: &Entry)
    ensures { spec.EntryFitsTypes entry.now }
{
    count(entry.conn);
    word(entry.dues);
    word(entry.moment);
    call_texts(&entry.call);
    reply_texts(&entry.reply);
}

/// Does nothing: its clause says what the types of these entries give.
pub fn entries_texts(entries: &[Entry])
    ensures { All spec.EntryFitsTypes entries.now }
{
    for entry in entries {
        entry_texts(entry);
    }
}
