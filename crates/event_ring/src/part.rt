// What a ring lends from a number on (Docker Engine API v1.43, SystemEvents).
ghost use Rattle.std.specs.Prelude.{◌≡◌, drop};
ghost use Rattle.std.specs.Iterator.{YieldsFirstRef, item_count};

use super::prepared::PreparedEvent;
use circular_buffer::HeapCircularBuffer;
use std::marker::Model;

/// An iterator over kept events, seen as the list of those to come.
#[derive(Drop)]
pub struct RingPart<'a> {
    kept: &'a HeapCircularBuffer<PreparedEvent>,
    place: usize,
}

impl<'a> Model for RingPart<'a> {
    ghost use Rattle.std.specs.Prelude.{List, drop};
    ghost use Rattle.engine_text.specs.declared.event.Event.{Event as AnEvent};

    ghost Value = { List AnEvent };

    ghost view = { λ p. drop p.place p.kept.now.items };
}

/// What a ring has from a number on.
#[derive(Drop)]
pub enum FromRing<'a> {
    Slice(RingPart<'a>),
    UpToDate,
    /// The event of that number is kept no more.
    Lagged { next: u64, first: u64 },
}

impl<'a> RingPart<'a> {
    /// The kept events from that place on.
    pub(crate) fn of(kept: &'a HeapCircularBuffer<PreparedEvent>, place: usize) -> RingPart<'a>
        ensures { result ≡ drop place kept.now.items }
    {
        RingPart { kept, place }
    }
}

impl<'a> Iterator for RingPart<'a> {
    type Item = &'a PreparedEvent;

    ghost next_gives = { YieldsFirstRef (λ l. l) };

    ghost remaining = { item_count (λ l. l) };

    fn next(&mut self) -> Option<&'a PreparedEvent> {
        if self.place >= self.kept.len() {
            return None;
        }
        match self.kept.get(self.place) {
            None => None,
            Some(found) => {
                self.place += 1;
                Some(found)
            }
        }
    }
}
