// Whether an event passes a filter (Docker Engine API v1.43, SystemEvents, filters).
ghost use Rattle.std.specs.Prelude.{◌≡◌};
ghost use Rattle.std.specs.List.{list_any, list_all};
ghost use Rattle.event_ring.specs.Filter as spec;

use super::attributes::attribute;
use api_json::{IMAGE_NAME, action_word, kind_word};
use engine_text::{Event, EventKind, Filter, FilterKey, FilterRow, Text};

// Whether the name is one of the image's two.
fn is_image(image: &Text) -> bool
    ensures { result ≡ spec.is_image image.now }
{
    image.is(IMAGE_NAME) || image.is("engine/tools")
}

fn is_of_container(kind: EventKind) -> bool
    ensures { result ≡ spec.is_of_container kind }
{
    matches!(kind, EventKind::Container)
}

// Whether an event fits a value of a key.
fn fits(event: &Event, key: FilterKey, value: &Text) -> bool
    ensures { result ≡ spec.event_fits event.now key value.now }
{
    let of_container = is_of_container(event.kind);
    match key {
        FilterKey::Kind => kind_word(event.kind) == value.as_str(),
        FilterKey::Action => action_word(event.action) == value.as_str(),
        FilterKey::Container => {
            of_container
                && (event.id.is(value.as_str()) || attribute(event, "name") == value.as_str())
        }
        FilterKey::Image => of_container && is_image(value),
        FilterKey::Volume => !of_container && event.id.is(value.as_str()),
        _ => false,
    }
}

fn any_fits(event: &Event, row: &FilterRow) -> bool
    ensures { result ≡ list_any (spec.event_fits event.now row.now.key) row.now.values }
{
    let key = row.key;
    row.values.as_slice().iter().any(|v| fits(event, key, v))
}

fn all_fit(event: &Event, row: &FilterRow) -> bool
    ensures { result ≡ list_all (spec.event_fits event.now row.now.key) row.now.values }
{
    let key = row.key;
    row.values.as_slice().iter().all(|v| fits(event, key, v))
}

// Whether an event passes a row: for a label all values, else one.
fn row_passes(event: &Event, row: &FilterRow) -> bool
    ensures { result
        ≡ spec.row_passes row.now.key (spec.event_fits event.now row.now.key) row.now.values }
{
    match row.key {
        FilterKey::Label => all_fit(event, row),
        _ => any_fits(event, row),
    }
}

/// Whether an event passes a filter.
pub fn matches(filter: &Filter, event: &Event) -> bool
    ensures { result ≡ spec.event_passes filter.now event.now }
{
    filter.as_slice().iter().all(|row| row_passes(event, row))
}
