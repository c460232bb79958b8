// The containers and the tickets one by one, for what goes through them all.
ghost use Rattle.std.specs.Prelude.{◌≡◌, ◌<◌, length, slice_get, Some};
ghost use Rattle.container_table.specs.Logs.{container_in};
ghost use Rattle.machine_tables.specs.Held.{ticket_in};

use crate::tables::Tables;
use container_table::Held;
use machine_tables::HeldTicket;

impl Tables {
    /// How many containers there are.
    pub fn containers(&self) -> usize
        ensures { result ≡ length self.now.state.containers }
    {
        self.table.len()
    }

    /// The container at that place, in order of creation.
    pub fn container_at(&self, place: usize) -> &Held
        requires { place < length self.now.state.containers }
        ensures { slice_get self.now.state.containers place ≡ Some (container_in result.now) }
    {
        self.table.at(place)
    }

    /// The ticket at that place, in order of number.
    pub fn ticket_at(&self, place: usize) -> &HeldTicket
        requires { place < length self.now.state.tickets }
        ensures { slice_get self.now.state.tickets place
            ≡ Some (ticket_in self.now.state.seed result.now) }
    {
        self.tickets.at(place)
    }
}
