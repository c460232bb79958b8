// Whether a container passes the filters of the list.
ghost use Rattle.std.specs.Prelude.{◌≡◌, ◌++◌, codes, decimal};
ghost use Rattle.std.specs.List.{list_any, list_all};
ghost use Rattle.engine_text.specs.Texts.{same_bytes, has_part};
ghost use Rattle.machine_model.specs.Filters as spec;
ghost use Rattle.container_table.specs.Logs.{container_in};

use api_json::status_word;
use call_plans::is_image;
use container_table::Held;
use engine_text::{Filter, FilterKey, FilterRow, Mount, Pair, Status, Text, has_part};

fn is_exited(status: Status) -> bool
    ensures { result ≡ spec.is_exited status }
{
    matches!(status, Status::Exited)
}

// Whether the text is the code in decimal.
fn is_code(text: &Text, code: u8) -> bool
    ensures { result ≡ same_bytes (decimal code) text.now }
{
    let mut buffer = itoa::Buffer::new();
    buffer.format(code) == text.as_str()
}

// Whether the text is an equals sign and the value.
fn is_assigned(text: &[u8], value: &[u8]) -> bool
    ensures { result ≡ same_bytes text.now (codes "=" ++ value.now) }
{
    match text {
        [first, rest @ ..] => *first == b'=' && rest == value,
        [] => false,
    }
}

// Whether the text is the key, an equals sign and the value.
fn is_joined(text: &[u8], key: &[u8], value: &[u8]) -> bool
    ensures { result ≡ same_bytes text.now (key.now ++ codes "=" ++ value.now) }
{
    match text.strip_prefix(key) {
        Some(rest) => is_assigned(rest, value),
        None => false,
    }
}

fn is_label(value: &Text, pair: &Pair) -> bool
    ensures { result ≡ spec.is_label value.now pair.now }
{
    value.is(pair.key.as_str())
        || is_joined(value.as_slice(), pair.key.as_slice(), pair.value.as_slice())
}

fn has_label(labels: &[Pair], value: &Text) -> bool
    ensures { result ≡ list_any (spec.is_label value.now) labels.now }
{
    labels.iter().any(|pair| is_label(value, pair))
}

fn has_volume(mounts: &[Mount], value: &Text) -> bool
    ensures { result ≡ list_any (λ m. same_bytes m.volume value.now) mounts.now }
{
    mounts.iter().any(|mount| mount.volume.is(value.as_str()))
}

// Whether a container fits a value of a key.
fn fits(h: &Held, key: FilterKey, value: &Text) -> bool
    ensures { result ≡ spec.container_fits (container_in h.now) key value.now }
{
    let container = &h.container;
    let life = &container.life;
    match key {
        FilterKey::Id => container.id.as_slice().starts_with(value.as_slice()),
        FilterKey::Name => has_part(container.name.as_slice(), value.as_slice()),
        FilterKey::State => status_word(life.status) == value.as_str(),
        FilterKey::Exited => is_exited(life.status) && is_code(value, life.code),
        FilterKey::Ancestor => is_image(value),
        FilterKey::Label => has_label(life.labels.as_slice(), value),
        FilterKey::Volume => has_volume(life.mounts.as_slice(), value),
        _ => false,
    }
}

fn any_fits(h: &Held, row: &FilterRow) -> bool
    ensures { result ≡ list_any (spec.container_fits (container_in h.now) row.now.key)
        row.now.values }
{
    let key = row.key;
    row.values.as_slice().iter().any(|v| fits(h, key, v))
}

fn all_fit(h: &Held, row: &FilterRow) -> bool
    ensures { result ≡ list_all (spec.container_fits (container_in h.now) row.now.key)
        row.now.values }
{
    let key = row.key;
    row.values.as_slice().iter().all(|v| fits(h, key, v))
}

// Whether a container passes a row: for a label all values, else one.
fn row_passes(h: &Held, row: &FilterRow) -> bool
    ensures { result ≡ spec.row_passes row.now.key
        (spec.container_fits (container_in h.now) row.now.key) row.now.values }
{
    match row.key {
        FilterKey::Label => all_fit(h, row),
        _ => any_fits(h, row),
    }
}

/// Whether a container passes all rows.
pub fn passes(h: &Held, rows: &Filter) -> bool
    ensures { result ≡ spec.passes (spec.container_fits (container_in h.now)) rows.now }
{
    rows.as_slice().iter().all(|row| row_passes(h, row))
}
