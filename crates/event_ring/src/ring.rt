// The ring of the last events (Docker Engine API v1.43, SystemEvents).
ghost use Rattle.std.specs.Prelude.{◌≡◌, ◌+◌, ◌^◌, ◌<◌, ◌≤◌, [], ◌∷◌, ◌++◌, List, IfOk, length};
ghost use Rattle.std.specs.List.{position_or_len};
ghost use Rattle.engine_text.specs.Lists.{last_of};
ghost use Rattle.engine_text.specs.declared.event.Event.{Event as AnEvent};
ghost use Rattle.event_ring.specs.Ring.{capacity, ring_of, first_number, from_number, is_since, number_at};

use super::part::{FromRing, RingPart};
use super::prepared::PreparedEvent;
use super::search::{halved, scanned, stays_in_order};
use circular_buffer::HeapCircularBuffer;
use engine_text::NoMemory;
use std::alloc::Global;
use std::marker::Model;

/// How many events are kept at most.
const CAPACITY: usize = 65_536;

/// The last events with their lines, and how many there were in all; events count from 0.
#[derive(Drop)]
pub struct Ring {
    kept: HeapCircularBuffer<PreparedEvent>,
    count: u64,
    in_order: bool,
}

impl Model for Ring {
    ghost use Rattle.event_ring.specs.Ring.{Kept};

    ghost Value = { Kept };

    ghost use Rattle.event_ring.specs.RingInside.{kept_inside, IsSoundRing};

    ghost view = { kept_inside };

    ghost invariant = { IsSoundRing };
}

impl Ring {
    /// A ring without events, with the memory for all that it will keep but their bytes.
    pub fn new(alloc: Global) -> Result<Ring, NoMemory>
        ensures { IfOk result (λ r. r ≡ ring_of []) }
    {
        match HeapCircularBuffer::with_capacity(alloc, CAPACITY) {
            Ok(kept) => Ok(Ring {
                kept,
                count: 0,
                in_order: true,
            }),
            Err(_) => Err(NoMemory),
        }
    }

    /// Keeps one more event; a full ring lets its oldest one go.
    pub fn push(&mut self, prepared: PreparedEvent)
        requires { self.old.count < 2 ^ 63 }
        ensures events { self.new.events ≡ last_of capacity (self.old.events ++ prepared ∷ []) }
        ensures count { self.new.count ≡ self.old.count + 1 }
        ensures all { (all : List AnEvent) → self.old ≡ ring_of all
            → self.new ≡ ring_of (all ++ prepared ∷ []) }
    {
        let moment = prepared.moment();
        let in_order = stays_in_order(self.in_order, &self.kept, moment);
        self.in_order = in_order;
        self.count += 1;
        self.kept.push_back(prepared);
    }

    /// How many events there were.
    pub fn count(&self) -> u64
        ensures { result ≡ self.now.count }
    {
        self.count
    }

    /// The number of the first event that is kept.
    pub fn first(&self) -> u64
        ensures { result ≡ first_number self.now }
    {
        self.count - self.kept.len() as u64
    }

    /// The kept events from a number on.
    pub fn from(&self, number: u64) -> FromRing<'_>
        requires { number ≤ self.now.count }
        ensures { result ≡ from_number number self.now }
    {
        let first = self.first();
        if number < first {
            return FromRing::Lagged {
                next: number,
                first,
            };
        }
        if number == self.count {
            return FromRing::UpToDate;
        }
        FromRing::Slice(RingPart::of(&self.kept, (number - first) as usize))
    }

    // How many kept events are before the first at or after the moment.
    fn before(&self, moment: u64) -> usize
        ensures place { result ≡ position_or_len (is_since moment) self.now.events }
        ensures within { result ≤ length self.now.events }
    {
        if self.in_order {
            halved(&self.kept, moment)
        } else {
            scanned(&self.kept, moment)
        }
    }

    /// The least kept number whose event is at or after the moment, else the count. It is found by
    /// halving as long as no event came with a moment before the last one's.
    pub fn first_at(&self, moment: u64) -> u64
        ensures { result ≡ number_at moment self.now }
    {
        let behind = self.kept.len() - self.before(moment);
        self.count - behind as u64
    }
}
