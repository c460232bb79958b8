// Whether a volume passes the filters of the list of volumes.
ghost use Rattle.std.specs.Prelude.{◌≡◌};
ghost use Rattle.std.specs.List.{list_all, list_any};
ghost use Rattle.machine_model.specs.Filters as spec;

use engine_text::{Filter, FilterKey, FilterRow, Text, Volume, has_part};

// Whether a volume fits a value of a key.
fn fits(volume: &Volume, key: FilterKey, value: &Text) -> bool
    ensures { result ≡ spec.volume_fits volume.now key value.now }
{
    match key {
        FilterKey::Name => has_part(volume.name.as_slice(), value.as_slice()),
        _ => false,
    }
}

fn any_fits(volume: &Volume, row: &FilterRow) -> bool
    ensures { result ≡ list_any (spec.volume_fits volume.now row.now.key) row.now.values }
{
    let key = row.key;
    row.values.as_slice().iter().any(|v| fits(volume, key, v))
}

fn all_fit(volume: &Volume, row: &FilterRow) -> bool
    ensures { result ≡ list_all (spec.volume_fits volume.now row.now.key) row.now.values }
{
    let key = row.key;
    row.values.as_slice().iter().all(|v| fits(volume, key, v))
}

// Whether a volume passes a row: for a label all values, else one.
fn row_passes(volume: &Volume, row: &FilterRow) -> bool
    ensures { result ≡ spec.row_passes row.now.key (spec.volume_fits volume.now row.now.key)
        row.now.values }
{
    match row.key {
        FilterKey::Label => all_fit(volume, row),
        _ => any_fits(volume, row),
    }
}

/// Whether a volume passes all rows.
pub fn passes(volume: &Volume, rows: &Filter) -> bool
    ensures { result ≡ spec.passes (spec.volume_fits volume.now) rows.now }
{
    rows.as_slice().iter().all(|row| row_passes(volume, row))
}
