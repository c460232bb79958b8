// The course of a talk: whose slot it is, and what was written so far.
use crate::talk::{Act, Slot};
use engine_ports::Failed;
use std::alloc::Global;
use std::sync::{Condvar, Mutex, Wait};

/// How far a talk is.
#[derive(Drop)]
struct Place {
    /// The number of the slot that it is at.
    at: usize,
    /// Its connection goes on.
    taken: bool,
    /// The connections that have ended.
    gone: Vec<u32>,
    /// What was written, each slot behind its line.
    told: Vec<u8>,
}

/// What the connections of a talk share. One of them goes on, and the others wait for their slots.
#[derive(Drop)]
pub struct Course {
    slots: Vec<Slot>,
    place: Mutex<Place>,
    moved: Condvar,
}

impl Place {
    /// Whether it is at a slot of this connection.
    fn is_of(&self, slots: &[Slot], who: u32) -> bool {
        match slots.get(self.at) {
            Some(slot) => slot.who == who,
            None => false,
        }
    }

    /// Goes on to the next slot of a connection that hasn't ended.
    fn go_on(&mut self, slots: &[Slot]) {
        let next = self.at.saturating_add(1);
        self.at = slots.len();
        self.taken = false;
        for (number, slot) in slots.iter().enumerate().skip(next) {
            if !self.gone.contains(&slot.who) {
                self.at = number;
                break;
            }
        }
    }

    /// Takes the slot that it is at, and tells its line.
    fn take(&mut self, slot: &Slot) {
        self.taken = true;
        let _ = self.told.extend_from_slice(b"\n-- ");
        let _ = self.told.extend_from_slice(&slot.line);
        let _ = self.told.push(b'\n');
    }
}

impl Course {
    /// The course of these slots, at the first.
    pub fn new(alloc: Global, slots: Vec<Slot>) -> Course {
        Course {
            slots,
            place: Mutex::new(Place {
                at: 0,
                taken: false,
                gone: Vec::new(alloc),
                told: Vec::new(alloc),
            }),
            moved: Condvar::new(),
        }
    }

    /// What was written, each slot behind its line.
    pub fn into_told(self) -> Vec<u8> {
        let Course {
            slots: _,
            place,
            moved: _,
        } = self;
        let Place { told, .. } = place.into_inner();
        told
    }

    /// The connection's first slot of that number or a later one, with its number.
    fn slot_from(&self, who: u32, from: usize) -> Option<(usize, &Slot)> {
        for (number, slot) in self.slots.iter().enumerate().skip(from) {
            if slot.who == who {
                return Some((number, slot));
            }
        }
        None
    }

    /// Waits until it is at the connection's slot of this number, and takes it. The one that it
    /// holds ends.
    fn reach<R: Wait>(&self, rt: &R, who: u32, number: usize, slot: &Slot) {
        let slots = self.slots.as_slice();
        let mut place = self.place.lock(rt);
        if place.taken && place.at < number && place.is_of(slots, who) {
            place.go_on(slots);
            self.moved.notify_all();
        }
        let mut place = self.moved.wait_while(rt, place, |place| place.at < number);
        if place.at == number && !place.taken {
            place.take(slot);
        }
    }

    /// The connection's first slot of that number or a later one, with its number, once reached.
    fn next_of<R: Wait>(&self, rt: &R, who: u32, from: usize) -> Option<(usize, &Slot)> {
        let (number, slot) = self.slot_from(who, from)?;
        self.reach(rt, who, number, slot);
        Some((number, slot))
    }

    /// The connection's first slot of that number or a later one in which it sends something, with
    /// its number, once reached; none where its input ends before.
    pub fn next_sent<R: Wait>(&self, rt: &R, who: u32, from: usize) -> Option<(usize, &Slot)> {
        let mut from = from;
        for _ in 0..self.slots.len() {
            let (number, slot) = self.next_of(rt, who, from)?;
            if slot.act == Act::Ends {
                return None;
            }
            if !slot.bytes.is_empty() {
                return Some((number, slot));
            }
            from = number.saturating_add(1);
        }
        None
    }

    /// The connection's next slot, once it was reached.
    pub fn next_behind<R: Wait>(&self, rt: &R, who: u32) -> Option<&Slot> {
        let from = self.at(rt).saturating_add(1);
        let (_, slot) = self.next_of(rt, who, from)?;
        Some(slot)
    }

    /// The number of the slot that it is at.
    fn at<R: Wait>(&self, rt: &R) -> usize {
        self.place.lock(rt).at
    }

    /// The moment of the slot that it is at, in milliseconds since 1970.
    pub fn moment<R: Wait>(&self, rt: &R) -> u64 {
        match self.slots.get(self.at(rt)) {
            Some(slot) => slot.moment,
            None => 0,
        }
    }

    /// Waits until it is at the first slot of this connection, or tells that there is none.
    pub fn comes<R: Wait>(&self, rt: &R, who: u32) -> bool {
        let slots = self.slots.as_slice();
        let place = self.moved.wait_while(rt, self.place.lock(rt), |place| {
            place.at < slots.len() && !place.is_of(slots, who)
        });
        place.at < slots.len()
    }

    /// Whether a slot so far broke the connection.
    fn is_broken(&self, who: u32, at: usize) -> bool {
        self.slots
            .iter()
            .take(at.saturating_add(1))
            .any(|slot| slot.who == who && slot.act == Act::Breaks)
    }

    /// Tells what a connection wrote, or that it is broken.
    pub fn tell<R: Wait>(&self, rt: &R, who: u32, piece: &[u8]) -> Result<(), Failed> {
        let mut place = self.place.lock(rt);
        if self.is_broken(who, place.at) || place.told.extend_from_slice(piece).is_err() {
            return Err(Failed);
        }
        Ok(())
    }

    /// The connection has ended.
    pub fn leave<R: Wait>(&self, rt: &R, who: u32) {
        let slots = self.slots.as_slice();
        let mut place = self.place.lock(rt);
        let _ = place.gone.push(who);
        if place.is_of(slots, who) {
            place.go_on(slots);
        }
        self.moved.notify_all();
    }
}
