// Timers by rank and number, and the same by moment.
ghost use Rattle.std.specs.Prelude.{◌≡◌, ℕ, ◌+◌, ◌<◌, ◌≤◌, [], None, IsTrue, OnOk, nat_lt, length, vec_len, vec_capacity};
ghost use Rattle.std.specs.List.Sorted.{IsSearchInRange};
ghost use Rattle.container_table.specs.Lists.{placed};
ghost use Rattle.container_table.specs.Order.{in_order, IsInOrder};
ghost use Rattle.container_table.specs.Timers.{timer_in, cleared, with_timer, is_before, is_listed_before, least};
ghost use Rattle.container_table.specs.DueOrders.{listed_order, due_order, IsFound};

use engine_text::{DueAction, NoMemory};
use std::alloc::Global;
use std::cmp::Ordering;
use std::marker::Model;

/// Timers of any rank, one of a rank and number; moments are milliseconds.
#[derive(Drop)]
pub struct Timers {
    listed: Vec<DueAction>,
    due: Vec<DueAction>,
}

impl Model for Timers {
    ghost use Rattle.container_table.specs.Tables.{Timed};

    ghost Value = { Timed };

    ghost use Rattle.container_table.specs.TimersInside.{timed_of, IsTimed};

    ghost view = { timed_of };

    ghost invariant = { IsTimed };
}

// By rank, then by number.
fn listed_cmp(a: &DueAction, b: &DueAction) -> Ordering
    ensures { result ≡ listed_order a.now b.now }
{
    (a.rank, a.number).cmp(&(b.rank, b.number))
}

// Where a timer of that rank and number stands, or would stand.
fn listed_place(listed: &[DueAction], timer: &DueAction) -> Result<usize, usize>
    requires { IsInOrder is_listed_before listed.now }
    ensures bound { IsSearchInRange result (length listed.now) }
    ensures place { IsFound listed_order listed.now timer.now result }
{
    listed.binary_search_by(|d| listed_cmp(d, timer))
}

// Where that timer stands among those by moment, or would stand.
fn due_place(due: &[DueAction], timer: &DueAction) -> Result<usize, usize>
    requires { IsInOrder is_before due.now }
    ensures bound { IsSearchInRange result (length due.now) }
    ensures place { IsFound due_order due.now timer.now result }
{
    due.binary_search(timer)
}

impl Timers {
    /// No timer; it takes no memory.
    pub fn new(alloc: Global) -> Timers
        ensures timers { result.timers ≡ [] }
        ensures places { result.places ≡ 0 }
    {
        Timers {
            listed: Vec::new(alloc),
            due: Vec::new(alloc),
        }
    }

    /// Makes room for n timers more.
    pub fn reserve(&mut self, n: usize) -> Result<(), NoMemory>
        ensures timers { self.new.timers ≡ self.old.timers }
        ensures places { self.old.places ≤ self.new.places }
        ensures ok { OnOk result (length self.new.timers + n ≤ self.new.places) }
    {
        self.listed.reserve(n)?;
        self.due.reserve(n)?;
        Ok(())
    }

    /// Whether there is room for one timer more.
    pub fn has_room(&self) -> bool
        ensures value { result ≡ nat_lt (length self.now.timers) self.now.places }
        ensures room { IsTrue result → (moment rank number : ℕ)
            → length (with_timer moment rank number self.now.timers) ≤ self.now.places }
    {
        self.listed.len() < self.listed.capacity().min(self.due.capacity())
    }

    /// The timer of that rank and number.
    pub fn timer(&self, rank: u8, number: u64) -> Option<DueAction>
        ensures { result ≡ timer_in rank number self.now.timers }
    {
        let key = DueAction {
            moment: 0,
            rank,
            number,
        };
        match listed_place(self.listed.as_slice(), &key) {
            Ok(i) => Some(self.listed[i]),
            Err(_) => None,
        }
    }

    /// The least of the timers.
    pub fn least(&self) -> Option<DueAction>
        ensures { result ≡ least self.now.timers }
    {
        self.due.first().copied()
    }

    /// The timer of that rank and number is gone.
    pub fn clear(&mut self, rank: u8, number: u64)
        ensures timers { self.new.timers ≡ cleared rank number self.old.timers }
        ensures places { self.new.places ≡ self.old.places }
    {
        let key = DueAction {
            moment: 0,
            rank,
            number,
        };
        take_out(&mut self.listed, &mut self.due, &key);
    }

    /// There is a timer of that rank and number at the moment, in the place of an earlier one.
    pub fn set(&mut self, moment: u64, rank: u8, number: u64)
        requires { length (with_timer moment rank number self.old.timers) ≤ self.old.places }
        ensures timers { self.new.timers ≡ with_timer moment rank number self.old.timers }
        ensures places { self.new.places ≡ self.old.places }
    {
        let timer = DueAction {
            moment,
            rank,
            number,
        };
        take_out(&mut self.listed, &mut self.due, &timer);
        put_in(&mut self.listed, &mut self.due, &timer);
    }
}

// Takes the timer of that rank and number, if there is one, out of both lists.
fn take_out(listed: &mut Vec<DueAction>, due: &mut Vec<DueAction>, key: &DueAction)
    requires order { IsInOrder is_listed_before listed.old.items }
    requires due { due.old.items ≡ in_order is_before listed.old.items }
    requires len { vec_len due.old ≡ vec_len listed.old }
    ensures listed { listed.new.items ≡ cleared key.now.rank key.now.number listed.old.items }
    ensures order { IsInOrder is_listed_before listed.new.items }
    ensures due { due.new.items ≡ in_order is_before listed.new.items }
    ensures gone { timer_in key.now.rank key.now.number listed.new.items ≡ None }
    ensures len { vec_len due.new ≡ vec_len listed.new }
    ensures capacity { vec_capacity listed.new ≡ vec_capacity listed.old }
    ensures due_capacity { vec_capacity due.new ≡ vec_capacity due.old }
{
    let Ok(i) = listed_place(listed.as_slice(), key) else {
        return;
    };
    let timer = listed[i];
    let Ok(j) = due_place(due.as_slice(), &timer) else {
        unreachable!();
    };
    let _ = listed.remove(i);
    let _ = due.remove(j);
}

// Puts a timer, of whose rank and number there is none, into both lists.
fn put_in(listed: &mut Vec<DueAction>, due: &mut Vec<DueAction>, timer: &DueAction)
    requires order { IsInOrder is_listed_before listed.old.items }
    requires due { due.old.items ≡ in_order is_before listed.old.items }
    requires fresh { timer_in timer.now.rank timer.now.number listed.old.items ≡ None }
    requires len { vec_len due.old ≡ vec_len listed.old }
    requires room { vec_len listed.old < vec_capacity listed.old }
    requires due_room { vec_len due.old < vec_capacity due.old }
    ensures listed { listed.new.items ≡ placed is_listed_before timer.now listed.old.items }
    ensures order { IsInOrder is_listed_before listed.new.items }
    ensures due { due.new.items ≡ in_order is_before listed.new.items }
    ensures len { vec_len due.new ≡ vec_len listed.new }
    ensures capacity { vec_capacity listed.new ≡ vec_capacity listed.old }
    ensures due_capacity { vec_capacity due.new ≡ vec_capacity due.old }
{
    let Err(i) = listed_place(listed.as_slice(), timer) else {
        unreachable!();
    };
    let Err(j) = due_place(due.as_slice(), timer) else {
        unreachable!();
    };
    let _ = listed.insert(i, *timer);
    let _ = due.insert(j, *timer);
}
