// The containers and the tickets of the machine, one by one.
ghost use Rattle.std.specs.Prelude.{◌≡◌, map};
ghost use Rattle.std.specs.Iterator.{YieldsFirst, YieldsFirstBy, item_count};
ghost use Rattle.container_machine.specs.Listing.{containers_left, seen_container, ticket_pair, tickets_left};

use crate::machine::Machine;
use container_table::Held;
use machine_effects::Tables;

/// The containers in order of creation.
#[derive(Drop)]
pub struct Listing<'m> {
    pub(crate) tables: &'m Tables,
    pub(crate) place: usize,
}

/// The tickets in order of number, each with its connection.
#[derive(Drop)]
pub struct Tickets<'m> {
    pub(crate) tables: &'m Tables,
    pub(crate) place: usize,
}

impl Machine {
    /// The containers.
    pub fn containers(&self) -> Listing<'_>
        ensures { containers_left result ≡ self.now.memory.state.containers }
    {
        Listing {
            tables: &self.tables,
            place: 0,
        }
    }

    /// The tickets that stand.
    pub fn tickets(&self) -> Tickets<'_>
        ensures { tickets_left result ≡ map ticket_pair self.now.memory.state.tickets }
    {
        Tickets {
            tables: &self.tables,
            place: 0,
        }
    }
}

impl<'m> Iterator for Listing<'m> {
    type Item = &'m Held;

    ghost next_gives = { YieldsFirstBy seen_container containers_left };

    ghost remaining = { item_count containers_left };

    fn next(&mut self) -> Option<&'m Held> {
        if self.place >= self.tables.containers() {
            return None;
        }
        let held = self.tables.container_at(self.place);
        self.place += 1;
        Some(held)
    }
}

impl<'m> Iterator for Tickets<'m> {
    type Item = (u64, u32);

    ghost next_gives = { YieldsFirst tickets_left };

    ghost remaining = { item_count tickets_left };

    fn next(&mut self) -> Option<(u64, u32)> {
        if self.place as u64 >= self.tables.open_tickets() {
            return None;
        }
        let ticket = self.tables.ticket_at(self.place);
        self.place += 1;
        Some((ticket.number, ticket.connection))
    }
}
