// The first kept event at or after a moment (Docker Engine API v1.43, SystemEvents, since).
ghost use Rattle.std.specs.Prelude.{◌≡◌, ◌≤◌, ◌&&◌, length, slice_get};
ghost use Rattle.std.specs.List.{position_or_len};
ghost use Rattle.event_ring.specs.Ring.{is_since};
ghost use Rattle.event_ring.specs.RingInside.{AreInOrder, is_since_there, is_until_there};
ghost use Rattle.circular_buffer.specs.Buffer.{last_item};

use super::prepared::PreparedEvent;
use circular_buffer::HeapCircularBuffer;

// Whether the event there is at or after the moment.
fn comes_since(kept: &HeapCircularBuffer<PreparedEvent>, place: usize, moment: u64) -> bool
    ensures { result ≡ is_since_there moment (slice_get kept.now.items place) }
{
    match kept.get(place) {
        None => true,
        Some(prepared) => moment <= prepared.moment(),
    }
}

// Whether the last kept event isn't after the moment.
fn is_last(kept: &HeapCircularBuffer<PreparedEvent>, moment: u64) -> bool
    ensures { result ≡ is_until_there moment (last_item kept.now.items) }
{
    match kept.back() {
        None => true,
        Some(prepared) => prepared.moment() <= moment,
    }
}

/// Whether events that are in order, where this is noted, stay so with one more at the moment.
pub fn stays_in_order(noted: bool, kept: &HeapCircularBuffer<PreparedEvent>, moment: u64) -> bool
    ensures { result ≡ noted && is_until_there moment (last_item kept.now.items) }
{
    noted && is_last(kept, moment)
}

/// Where the first at or after the moment stands among events in order, found by halving.
pub fn halved(kept: &HeapCircularBuffer<PreparedEvent>, moment: u64) -> usize
    requires { AreInOrder kept.now.items }
    ensures place { result ≡ position_or_len (is_since moment) kept.now.items }
    ensures within { result ≤ length kept.now.items }
{
    let mut low = 0;
    let mut high = kept.len();
    'halving: while low < high {
        let middle = low + (high - low) / 2;
        if comes_since(kept, middle, moment) {
            high = middle;
        } else {
            low = middle + 1;
        }
    }
    low
}

/// The same among events in any order.
pub fn scanned(kept: &HeapCircularBuffer<PreparedEvent>, moment: u64) -> usize
    ensures place { result ≡ position_or_len (is_since moment) kept.now.items }
    ensures within { result ≤ length kept.now.items }
{
    let len = kept.len();
    'places: for i in 0..len {
        if comes_since(kept, i, moment) {
            return i;
        }
    }
    len
}
