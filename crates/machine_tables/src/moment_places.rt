// The first moment at or after another.
ghost use Rattle.std.specs.Prelude.{◌≡◌, ◌≤◌, ◌&&◌, length, nat_le, slice_get};
ghost use Rattle.std.specs.List.{position_or_len};
ghost use Rattle.std.specs.List.Sorted.{IsNonDecreasing};
ghost use Rattle.machine_tables.specs.Views.Moments.{is_since_there, is_until_last};

use std::collections::VecDeque;

/// Whether the last one lies at or before the moment.
fn is_last(moments: &VecDeque<u64>, moment: u64) -> bool
    ensures { result ≡ is_until_last moment moments.now.items }
{
    match moments.back() {
        None => true,
        Some(last) => *last <= moment,
    }
}

/// Whether moments that are in order, where this is noted, stay so with one more.
pub fn stays_in_order(noted: bool, moments: &VecDeque<u64>, moment: u64) -> bool
    ensures { result ≡ noted && is_until_last moment moments.now.items }
{
    noted && is_last(moments, moment)
}

/// Where the first at or after the moment stands among moments in order, found by halving.
pub fn halved(moments: &VecDeque<u64>, moment: u64) -> usize
    requires { IsNonDecreasing moments.now.items }
    ensures place { result ≡ position_or_len (nat_le moment) moments.now.items }
    ensures within { result ≤ length moments.now.items }
{
    moments.partition_point(|m| *m < moment)
}

// Whether the one at that place lies at or after the moment.
fn comes_since(moments: &VecDeque<u64>, place: usize, moment: u64) -> bool
    ensures { result ≡ is_since_there moment (slice_get moments.now.items place) }
{
    match moments.get(place) {
        None => true,
        Some(m) => moment <= *m,
    }
}

/// The same among moments in any order.
pub fn scanned(moments: &VecDeque<u64>, moment: u64) -> usize
    ensures place { result ≡ position_or_len (nat_le moment) moments.now.items }
    ensures within { result ≤ length moments.now.items }
{
    let len = moments.len();
    'places: for i in 0..len {
        if comes_since(moments, i, moment) {
            return i;
        }
    }
    len
}
