// The table of tickets.
ghost use Rattle.std.specs.Prelude.{◌≡◌, ℕ, ◌<◌, ◌==◌, [], ◌∷◌, ◌++◌, find, length, map, option_copied, slice_get, Some, OnOk};
ghost use Rattle.container_table.specs.Lists.{remove_first};
ghost use Rattle.machine_tables.specs.Held.{last_ready, late_ready, ready_by, ready_or, answered_by};
ghost use Rattle.machine_tables.specs.Places.{at_place};
ghost use Rattle.machine_tables.specs.declared.held.HeldTicket.{HeldTicket};

use crate::held::{HeldTicket, Ready, RemovalResult};
use crate::ticket_rows;
use engine_text::{Asked, NoMemory};
use std::alloc::Global;
use std::marker::Model;

/// The tickets in order of their begins. Where each was begun with a number above the last, they are
/// found by halving.
#[derive(Drop)]
pub struct Tickets {
    items: Vec<HeldTicket>,
    rises: bool,
}

impl Model for Tickets {
    ghost use Rattle.machine_tables.specs.Values.Tickets.{TicketRows};

    ghost Value = { TicketRows };

    ghost use Rattle.machine_tables.specs.Views.Tickets.{ticket_rows};
    ghost use Rattle.machine_tables.specs.Rising.{Rises};

    ghost view = { ticket_rows };

    ghost invariant = { Rises };
}

// What a ticket is answered when its container goes, whose last code is this.
fn last_ready(asked: Asked, code: u8) -> Ready
    ensures { result ≡ last_ready asked code }
{
    match asked {
        Asked::Stop => Ready::Done,
        Asked::Restart => Ready::Done,
        Asked::Remove => Ready::Done,
        Asked::Wait(_) => Ready::Waited(code),
    }
}

// What it is answered when the removal of its container times out.
fn late_ready(asked: Asked) -> Option<Ready>
    ensures { result ≡ late_ready asked }
{
    match asked {
        Asked::Stop => None,
        Asked::Restart => None,
        Asked::Remove => Some(Ready::TimedOut),
        Asked::Wait(_) => None,
    }
}

// What it is answered by what befell its container.
fn ready_by(removal: RemovalResult, asked: Asked) -> Option<Ready>
    ensures { result ≡ ready_by removal asked }
{
    match removal {
        RemovalResult::Gone(code) => Some(last_ready(asked, code)),
        RemovalResult::TimedOut => late_ready(asked),
    }
}

// What is ready stays.
fn ready_or(ready: Option<Ready>, more: Option<Ready>) -> Option<Ready>
    ensures { result ≡ ready_or ready more }
{
    match ready {
        None => more,
        Some(r) => Some(r),
    }
}

// What is ready for the ticket, which is answered if it is of the container.
fn answered(t: &HeldTicket, number: u64, removal: RemovalResult) -> Option<Ready>
    ensures { result ≡ (answered_by removal number t.now).ready }
{
    if t.container == number {
        ready_or(t.ready, ready_by(removal, t.asked))
    } else {
        t.ready
    }
}

impl Tickets {
    /// None; it takes no memory.
    pub fn new(alloc: Global) -> Tickets
        ensures { result.tickets ≡ [] }
    {
        Tickets {
            items: Vec::new(alloc),
            rises: true,
        }
    }

    /// How many they are.
    pub fn len(&self) -> usize
        ensures { result ≡ length self.now.tickets }
    {
        self.items.len()
    }

    /// The ticket at that place.
    pub fn at(&self, place: usize) -> &HeldTicket
        requires { place < length self.now.tickets }
        ensures { slice_get self.now.tickets place ≡ Some result.now }
    {
        &self.items[place]
    }

    /// The ticket with that number.
    pub fn numbered(&self, number: u64) -> Option<&HeldTicket>
        ensures { option_copied result ≡ find (λ t. t.number == number) self.now.tickets }
    {
        if self.rises {
            ticket_rows::halved(self.items.as_slice(), number)
        } else {
            ticket_rows::numbered(self.items.as_slice(), number)
        }
    }

    /// Makes room for a ticket more.
    pub fn reserve(&mut self) -> Result<(), NoMemory>
        ensures tickets { self.new.tickets ≡ self.old.tickets }
        ensures room { OnOk result (length self.new.tickets < self.new.room) }
    {
        match self.items.reserve(1) {
            Ok(()) => Ok(()),
            Err(_) => Err(NoMemory),
        }
    }

    /// A ticket more; there was room for it.
    pub fn add(&mut self, ticket: HeldTicket)
        requires { length self.old.tickets < self.old.room }
        ensures tickets { self.new.tickets ≡ self.old.tickets ++ ticket ∷ [] }
        ensures room { self.new.room ≡ self.old.room }
    {
        self.rises = ticket_rows::rises_on(self.rises, self.items.as_slice(), ticket.number);
        self.items.push_reserved(ticket);
    }

    /// The ticket with that number is gone.
    pub fn remove(&mut self, number: u64)
        ensures tickets { self.new.tickets
            ≡ remove_first (λ t. t.number == number) self.old.tickets }
        ensures room { self.new.room ≡ self.old.room }
    {
        ticket_rows::remove(&mut self.items, number);
    }

    /// The ticket at that place has that reply, or none.
    pub fn put(&mut self, place: usize, ready: Option<Ready>)
        requires { place < length self.old.tickets }
        ensures tickets { self.new.tickets
            ≡ at_place (λ t. record t { ready = ready }) place self.old.tickets }
        ensures room { self.new.room ≡ self.old.room }
    {
        let t = &mut self.items[place];
        t.ready = ready;
    }

    // What is ready for the ticket at that place, if it is answered.
    fn answered_at(&self, place: usize, number: u64, removal: RemovalResult) -> Option<Ready>
        requires { place < length self.now.tickets }
        ensures { (t : HeldTicket) → slice_get self.now.tickets place ≡ Some t
            → result ≡ (answered_by removal number t).ready }
    {
        answered(self.at(place), number, removal)
    }

    // The ticket at that place is answered, if it is of the container.
    fn answer_at(&mut self, place: usize, number: u64, removal: RemovalResult)
        requires { place < length self.old.tickets }
        ensures tickets { self.new.tickets
            ≡ at_place (answered_by removal number) place self.old.tickets }
        ensures room { self.new.room ≡ self.old.room }
    {
        let ready = self.answered_at(place, number, removal);
        self.put(place, ready);
    }

    /// Each ticket of the container is answered by what befell it.
    pub fn answer(&mut self, number: u64, removal: RemovalResult)
        ensures tickets { self.new.tickets ≡ map (answered_by removal number) self.old.tickets }
        ensures room { self.new.room ≡ self.old.room }
    {
        for i in 0..self.len() {
            self.answer_at(i, number, removal);
        }
    }
}
