// The kinds of fields, lent by a call.
use engine_text::{Bytes, Filter, HealthSpec, Mounts, Pairs, Signal, Text, Words};

/// Which texts a request can give.
#[derive(Clone, Copy, Drop)]
pub enum TextTest {
    Any,
    Full,
    Name,
    VolumeName,
}

/// Which numbers.
#[derive(Clone, Copy, Drop)]
pub enum NumberTest {
    Any,
    Run,
    Retries,
    Moment,
    Count,
    Limit,
}

/// Which lists of texts.
#[derive(Clone, Copy, Drop)]
pub enum TextListTest {
    Any,
    Full,
}

/// Which filters: those of containers, of events or of volumes.
#[derive(Clone, Copy, Drop)]
pub enum FilterTest {
    Containers,
    Events,
    Volumes,
}

/// A field.
#[derive(Clone, Copy, Drop)]
pub enum Field<'c> {
    Word(&'static str),
    WordOrNone(Option<&'static str>),
    Text(TextTest, &'c Text),
    TextOrNone(TextTest, &'c Option<Text>),
    NumberOrNone(NumberTest, Option<u64>),
    CountOrNone(NumberTest, Option<u32>),
    SignalOrNone(Option<Signal>),
    SecondsOrNone(Option<i32>),
    Flag(bool),
    TextList(TextListTest, &'c Words),
    LabelPairs(&'c Pairs),
    MountList(&'c Mounts),
    FilterRows(FilterTest, &'c Filter),
    HexBytes(&'c Bytes),
    FlagIfSet(bool),
    CheckIfGiven(&'c Option<HealthSpec>),
}

/// A field behind its key.
pub type KeyedField<'c> = (&'static str, Field<'c>);
