// Whether a filter has keys of its call alone, which rise.
ghost use Rattle.std.specs.Prelude.{◌≡◌};
ghost use Rattle.std.specs.List.{list_all};
ghost use Rattle.engine_text.specs.Soundness as spec;
ghost use Rattle.journal_lines.specs.LentFields.{key_test};

use super::rising::do_rows_rise;
use crate::fields::FilterTest;
use engine_text::{FilterKey, FilterRow};

// Whether it is a key of a list of containers.
fn is_list_key(key: FilterKey) -> bool
    ensures { result ≡ spec.is_list_key key }
{
    match key {
        FilterKey::Id
        | FilterKey::Name
        | FilterKey::State
        | FilterKey::Exited
        | FilterKey::Ancestor
        | FilterKey::Label
        | FilterKey::Volume => true,
        _ => false,
    }
}

// Whether it is a key of events.
fn is_event_key(key: FilterKey) -> bool
    ensures { result ≡ spec.is_event_key key }
{
    match key {
        FilterKey::Kind
        | FilterKey::Action
        | FilterKey::Container
        | FilterKey::Image
        | FilterKey::Volume => true,
        _ => false,
    }
}

// Whether it is the key of a list of volumes.
fn is_volume_key(key: FilterKey) -> bool
    ensures { result ≡ spec.is_volume_key key }
{
    match key {
        FilterKey::Name => true,
        _ => false,
    }
}

// Whether the keys are those of a list of containers.
fn are_list_keys(rows: &[FilterRow]) -> bool
    ensures { result ≡ list_all (λ r. spec.is_list_key r.key) rows.now }
{
    rows.iter().all(|row| is_list_key(row.key))
}

// Whether the keys are those of events.
fn are_event_keys(rows: &[FilterRow]) -> bool
    ensures { result ≡ list_all (λ r. spec.is_event_key r.key) rows.now }
{
    rows.iter().all(|row| is_event_key(row.key))
}

// Whether the keys are those of a list of volumes.
fn are_volume_keys(rows: &[FilterRow]) -> bool
    ensures { result ≡ list_all (λ r. spec.is_volume_key r.key) rows.now }
{
    rows.iter().all(|row| is_volume_key(row.key))
}

/// Whether it is a filter with keys of this kind.
pub fn is_filter(test: FilterTest, rows: &[FilterRow]) -> bool
    ensures { result ≡ spec.is_filter (key_test test) rows.now }
{
    match test {
        FilterTest::Containers => do_rows_rise(rows) && are_list_keys(rows),
        FilterTest::Events => do_rows_rise(rows) && are_event_keys(rows),
        FilterTest::Volumes => do_rows_rise(rows) && are_volume_keys(rows),
    }
}
