// The counts of the tables.
ghost use Rattle.std.specs.Prelude.{◌≡◌, length};
ghost use Rattle.machine_model.specs.Calls.Events.{first_event};

use crate::tables::Tables;

impl Tables {
    /// How many steps there were.
    pub fn steps(&self) -> u64
        ensures { result ≡ self.now.state.step_count }
    {
        self.step_count
    }

    /// How many calls there were.
    pub fn calls(&self) -> u64
        ensures { result ≡ self.now.state.call_count }
    {
        self.call_count
    }

    /// How many tickets stand.
    pub fn open_tickets(&self) -> u64
        ensures { result ≡ length self.now.state.tickets }
    {
        self.tickets.len() as u64
    }

    /// The number of the first event of a stream: that of the first kept one at or after a moment, or
    /// how many there were.
    pub fn first_event(&self, since: Option<u64>) -> u64
        ensures { result ≡ first_event since self.now.state }
    {
        match since {
            None => self.event_count,
            Some(moment) => {
                let first = self.event_count.saturating_sub(self.moments.len() as u64);
                first + self.moments.before(moment) as u64
            }
        }
    }
}
