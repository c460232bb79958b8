// The moments of the last events.
ghost use Rattle.std.specs.Prelude.{◌≡◌, ℕ, ◌+◌, ◌<◌, ◌≤◌, [], ◌∷◌, ◌++◌, length, map, min, nat_le, OnOk};
ghost use Rattle.std.specs.List.{position_or_len};
ghost use Rattle.std.specs.VecDeque.{deque_capacity};
ghost use Rattle.container_table.specs.Lists.{last_of};

use crate::moment_places::{halved, scanned, stays_in_order};
use engine_text::{Event, NoMemory};
use machine_model::KEPT_EVENTS;
use std::alloc::Global;
use std::collections::VecDeque;
use std::marker::Model;

/// The moments of the last events, as they came.
#[derive(Drop)]
pub struct Moments {
    items: VecDeque<u64>,
    in_order: bool,
}

impl Model for Moments {
    ghost use Rattle.machine_tables.specs.Values.Moments.{MomentRows};

    ghost Value = { MomentRows };

    ghost use Rattle.machine_tables.specs.Views.Moments.{moment_rows, AreSoundMoments};

    ghost view = { moment_rows };

    ghost invariant = { AreSoundMoments };
}

// A moment more, in the place of the oldest where all places are taken.
fn push_last(items: &mut VecDeque<u64>, moment: u64)
    requires few { length items.old.items ≤ KEPT_EVENTS }
    requires room { min KEPT_EVENTS (length items.old.items + 1) ≤ deque_capacity items.old }
    ensures items { items.new.items ≡ last_of KEPT_EVENTS (items.old.items ++ moment ∷ []) }
    ensures room { deque_capacity items.new ≡ deque_capacity items.old }
{
    if items.len() >= KEPT_EVENTS {
        let _oldest = items.pop_front();
    }
    items.push_back_reserved(moment);
}

impl Moments {
    /// None; it takes no memory.
    pub fn new(alloc: Global) -> Moments
        ensures { result.moments ≡ [] }
    {
        Moments {
            items: VecDeque::new(alloc),
            in_order: true,
        }
    }

    // No more stand than are kept.
    fn few(&self)
        ensures { length self.now.moments ≤ KEPT_EVENTS }
    {
        let _ = &self.items;
    }

    /// Makes room for so many moments more.
    pub fn reserve(&mut self, more: usize) -> Result<(), NoMemory>
        ensures moments { self.new.moments ≡ self.old.moments }
        ensures room { OnOk result
            (min KEPT_EVENTS (length self.new.moments + more) ≤ self.new.room) }
    {
        let free = KEPT_EVENTS - self.items.len();
        let wanted = if more < free { more } else { free };
        match self.items.reserve(wanted) {
            Ok(()) => Ok(()),
            Err(_) => Err(NoMemory),
        }
    }

    /// A moment more, in the place of the oldest where all places are taken.
    pub fn push(&mut self, moment: u64)
        requires { min KEPT_EVENTS (length self.old.moments + 1) ≤ self.old.room }
        ensures moments { self.new.moments
            ≡ last_of KEPT_EVENTS (self.old.moments ++ moment ∷ []) }
        ensures room { self.new.room ≡ self.old.room }
    {
        self.in_order = stays_in_order(self.in_order, &self.items, moment);
        push_last(&mut self.items, moment);
    }

    /// How many they are.
    pub fn len(&self) -> usize
        ensures { result ≡ length self.now.moments }
    {
        self.items.len()
    }

    /// How many stand before the first one at or after that moment. It is found by halving as long as
    /// none came that lies before the one before it.
    pub fn before(&self, moment: u64) -> usize
        ensures place { result ≡ position_or_len (nat_le moment) self.now.moments }
        ensures within { result ≤ length self.now.moments }
    {
        if self.in_order {
            halved(&self.items, moment)
        } else {
            scanned(&self.items, moment)
        }
    }

    /// Those of these events.
    pub fn add(&mut self, events: &[Event])
        requires { min KEPT_EVENTS (length self.old.moments + length events.now) ≤ self.old.room }
        ensures moments { self.new.moments
            ≡ last_of KEPT_EVENTS (self.old.moments ++ map (λ e. e.moment) events.now) }
        ensures room { self.new.room ≡ self.old.room }
    {
        self.few();
        for e in events {
            self.push(e.moment);
        }
    }
}
