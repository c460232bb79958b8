// What a query says of the one image.
ghost use Rattle.std.specs.Prelude.{◌≡◌, option_map};
ghost use Rattle.lab_front.specs.Queries as spec;
ghost use Rattle.lab_front.specs.Rows.{list_row, pull_row};

use crate::query::{spells, value_of};
use crate::table::Row;

/// Whether filters leave the image in the list by asking for nothing.
pub(crate) fn filters_none(value: &[u8]) -> bool
    ensures { result ≡ spec.filters_none value.now }
{
    spells(value, "") || spells(value, "{}")
}

/// Whether they name it by itself.
fn filters_name(value: &[u8]) -> bool
    ensures { result ≡ spec.filters_name value.now }
{
    spells(value, "{\"reference\":[\"engine/tools\"]}")
        || spells(value, "{\"reference\": [\"engine/tools\"]}")
        || spells(value, "{\"reference\":{\"engine/tools\":true}}")
}

/// Whether they name it with its tag.
fn filters_tagged(value: &[u8]) -> bool
    ensures { result ≡ spec.filters_tagged value.now }
{
    spells(value, "{\"reference\":[\"engine/tools:latest\"]}")
        || spells(value, "{\"reference\": [\"engine/tools:latest\"]}")
        || spells(value, "{\"reference\":{\"engine/tools:latest\":true}}")
}

/// Whether filters leave the image in the list.
fn is_listed(value: Option<&[u8]>) -> bool
    ensures { result ≡ spec.is_listed (option_map (λ v. v.now) value.entry) }
{
    match value {
        Some(value) => filters_none(value) || filters_name(value) || filters_tagged(value),
        None => true,
    }
}

/// Whether a tag is the image's.
fn is_latest(value: Option<&[u8]>) -> bool
    ensures { result ≡ spec.is_latest (option_map (λ v. v.now) value.entry) }
{
    match value {
        Some(value) => spells(value, "") || spells(value, "latest"),
        None => true,
    }
}

/// Whether a name is the image's.
fn is_tools(value: &[u8]) -> bool
    ensures { result ≡ spec.is_tools value.now }
{
    spells(value, "engine/tools")
        || spells(value, "engine/tools:latest")
        || spells(value, "docker.io/engine/tools")
}

/// The list of images, by its filters.
pub(crate) fn list_row(query: &str) -> Row
    ensures { result ≡ list_row query.now }
{
    if is_listed(value_of(b"filters", query.as_bytes())) {
        Row::Images
    } else {
        Row::NoImages
    }
}

/// An image to be fetched.
pub(crate) fn pull_row(query: &str) -> Option<Row>
    ensures { result ≡ pull_row query.now }
{
    let query = query.as_bytes();
    let tag = value_of(b"tag", query);
    match value_of(b"fromImage", query) {
        None => None,
        Some(name) => {
            if is_tools(name) && is_latest(tag) {
                Some(Row::Pulled)
            } else {
                Some(Row::NoPull)
            }
        }
    }
}
