// A head that is to be handed on otherwise than it came.
ghost use Rattle.std.specs.Prelude.{◌≡◌};
ghost use Rattle.lab_handed.specs.Changes.{handed};

use crate::keeping::Owed;
use http_edge::HEAD_LIMIT;
use lab_handed::{Change, place_of, text_of};

/// Changes a head that is to be handed on, where it has room.
pub(crate) fn put_in(owed: &mut Owed, change: Change)
    ensures { owed.new ≡ handed change owed.old }
{
    let text = text_of(change);
    if owed.len() > HEAD_LIMIT - text.len() {
        return;
    }
    let place = place_of(change, owed.as_slice());
    owed.put(place, text);
}
