// Which volumes a prune removes.
ghost use Rattle.std.specs.Prelude.{◌≡◌, option_map};
ghost use Rattle.lab_front.specs.Pruning as spec;

use crate::images::filters_none;
use crate::left::LeftOut;
use crate::query::value_of;
use crate::table::Row;

/// Whether filters ask for nothing.
fn is_plain_prune(value: Option<&[u8]>) -> bool
    ensures { result ≡ spec.is_plain_prune (option_map (λ v. v.now) value.entry) }
{
    match value {
        Some(value) => filters_none(value),
        None => true,
    }
}

/// Volumes to be pruned.
pub(crate) fn volumes_row(query: &str) -> Row
    ensures { result ≡ spec.volumes_row query.now }
{
    if is_plain_prune(value_of(b"filters", query.as_bytes())) {
        Row::PrunedVolumes
    } else {
        Row::LeftOut(LeftOut::Prune)
    }
}
