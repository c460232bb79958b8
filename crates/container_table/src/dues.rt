// What is due of processes, the least first.
ghost use Rattle.std.specs.Prelude.{◌≡◌, ◌+◌, ◌<◌, ◌≤◌, [], true, false, nat_lt, length, slice_get, IsTrue, OnOk};
ghost use Rattle.container_table.specs.Dues.{is_found, is_same, with_due, without_due};
ghost use Rattle.container_table.specs.DuesInside.{IsUnreversed};
ghost use Rattle.container_table.specs.Search.{Parts};
ghost use Rattle.container_table.specs.Timers.{is_before, least};

use engine_text::{DueAction, NoMemory};
use std::alloc::Global;
use std::collections::VecDeque;
use std::marker::Model;

/// What is due of processes, in order of moment, rank and number.
#[derive(Drop)]
pub struct Dues {
    list: VecDeque<DueAction>,
}

impl Model for Dues {
    ghost use Rattle.container_table.specs.Dues.{DueList};

    ghost Value = { DueList };

    ghost use Rattle.container_table.specs.DuesInside.{due_list, StandInOrder};

    ghost view = { due_list };

    ghost invariant = { StandInOrder };
}

fn is_before(a: &DueAction, b: &DueAction) -> bool
    ensures { result ≡ is_before a.now b.now }
{
    a.moment < b.moment
        || (a.moment == b.moment && (a.rank < b.rank || (a.rank == b.rank && a.number < b.number)))
}

fn is_same(a: &DueAction, b: &DueAction) -> bool
    ensures { result ≡ is_same a.now b.now }
{
    a.moment == b.moment && (a.rank == b.rank && a.number == b.number)
}

// How many come before that one.
fn place_of(list: &VecDeque<DueAction>, action: &DueAction) -> usize
    requires { IsUnreversed list.now.items }
    ensures bound { result ≤ length list.now.items }
    ensures place { Parts (λ d. is_before d action.now ≡ true) (λ d. is_before d action.now ≡ false)
        list.now.items result }
{
    list.partition_point(|d| is_before(d, action))
}

// Whether that one stands at the place.
fn is_at(list: &VecDeque<DueAction>, place: usize, action: &DueAction) -> bool
    ensures { result ≡ is_found action.now (slice_get list.now.items place) }
{
    match list.get(place) {
        None => false,
        Some(found) => is_same(action, found),
    }
}

// The first of them.
fn first_of(list: &VecDeque<DueAction>) -> Option<DueAction>
    ensures { result ≡ slice_get list.now.items 0 }
{
    match list.get(0) {
        None => None,
        Some(first) => Some(*first),
    }
}

impl Dues {
    /// Nothing is due; it takes no memory.
    pub fn new(alloc: Global) -> Dues
        ensures { result.actions ≡ [] }
    {
        Dues {
            list: VecDeque::new(alloc),
        }
    }

    /// How many they are.
    pub fn len(&self) -> usize
        ensures { result ≡ length self.now.actions }
    {
        self.list.len()
    }

    /// Whether there is room for one more.
    pub fn has_room(&self) -> bool
        ensures value { result ≡ nat_lt (length self.now.actions) self.now.places }
        ensures room { IsTrue result → length self.now.actions < self.now.places }
    {
        self.list.len() < self.list.capacity()
    }

    /// Makes room for n more.
    pub fn reserve(&mut self, n: usize) -> Result<(), NoMemory>
        ensures actions { self.new.actions ≡ self.old.actions }
        ensures places { self.old.places ≤ self.new.places }
        ensures ok { OnOk result (length self.new.actions + n ≤ self.new.places) }
    {
        match self.list.reserve(n) {
            Ok(()) => Ok(()),
            Err(_) => Err(NoMemory),
        }
    }

    /// One more is due; it takes no memory.
    pub fn add(&mut self, action: &DueAction)
        requires { length self.old.actions < self.old.places }
        ensures actions { self.new.actions ≡ with_due action.now self.old.actions }
        ensures places { self.old.places ≤ self.new.places }
    {
        let place = place_of(&self.list, action);
        let _ = self.list.insert(place, *action);
    }

    /// It is due no more; where it wasn't, nothing changes.
    pub fn remove(&mut self, action: &DueAction)
        ensures actions { self.new.actions ≡ without_due action.now self.old.actions }
        ensures places { self.new.places ≡ self.old.places }
    {
        let place = place_of(&self.list, action);
        if is_at(&self.list, place, action) {
            let _ = self.list.remove(place);
        }
    }

    /// The least of them, by moment, rank and number.
    pub fn least(&self) -> Option<DueAction>
        ensures { result ≡ least self.now.actions }
    {
        first_of(&self.list)
    }
}
