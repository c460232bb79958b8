// Tickets: their begin and their end.
ghost use Rattle.std.specs.Prelude.{◌≡◌, ◌<◌, length, option_copied, option_map, OnOk};
ghost use Rattle.machine_model.specs.Calls.Take.{end_ticket};
ghost use Rattle.machine_model.specs.Tickets.{begun, ticket_numbered};
ghost use Rattle.machine_tables.specs.Held.{ticket_in};
ghost use Rattle.machine_events.specs.Tickets.{CanBegin};

use crate::tables::Tables;
use engine_text::{Asked, NoMemory};
use machine_tables::HeldTicket;

impl Tables {
    /// The number that the next ticket gets.
    pub fn next_ticket(&self) -> u64
        ensures { result ≡ self.now.state.next_ticket }
    {
        self.next_ticket
    }

    /// The ticket with that number.
    pub fn ticket(&self, number: u64) -> Option<&HeldTicket>
        ensures { option_map (ticket_in self.now.state.seed) (option_copied result)
            ≡ ticket_numbered number self.now.state }
    {
        self.tickets.numbered(number)
    }

    /// Makes room for a ticket more.
    pub fn make_ticket_room(&mut self) -> Result<(), NoMemory>
        ensures state { self.new.state ≡ self.old.state }
        ensures room { OnOk result (length self.new.state.tickets < self.new.room.tickets) }
        ensures moments { self.new.room.moments ≡ self.old.room.moments }
    {
        self.tickets.reserve()
    }

    /// A ticket more, not ready.
    pub fn begin_ticket(&mut self, connection: u32, container: u64, asked: Asked)
        requires { CanBegin self.old }
        ensures state { self.new.state ≡ begun connection container asked self.old.state }
        ensures room { self.new.room ≡ self.old.room }
        ensures spare { self.new.spare ≡ self.old.spare }
    {
        self.tickets.add(HeldTicket {
            number: self.next_ticket,
            connection,
            container,
            asked,
            ready: None,
        });
        self.next_ticket += 1;
    }

    /// The ticket with that number is gone.
    pub fn end_ticket(&mut self, number: u64)
        ensures state { self.new.state ≡ end_ticket number self.old.state }
        ensures room { self.new.room ≡ self.old.room }
        ensures spare { self.new.spare ≡ self.old.spare }
    {
        self.tickets.remove(number);
    }
}
