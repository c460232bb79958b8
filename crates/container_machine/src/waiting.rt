// Whether a call can be answered.
ghost use Rattle.std.specs.Prelude.{◌≡◌};
ghost use Rattle.engine_text.specs.declared.call.Call as calls;
ghost use Rattle.machine_model.specs.History.{has_ticket};
ghost use Rattle.machine_model.specs.Ready.{is_ready};

use crate::machine::Machine;
use engine_text::Call;

impl Machine {
    /// Whether the call can be answered now; all but takes and feeds always can.
    pub fn is_ready(&self, call: &Call) -> bool
        ensures { result ≡ is_ready self.now.memory.state call.now }
    {
        match call {
            Call::Take { ticket } => self.is_ticket_ready(*ticket),
            Call::Feed { owner, run, bytes } => self.is_feed_ready(*owner, *run, bytes),
            Call::FeedEnd { owner, run } => self.is_feed_end_ready(*owner, *run),
            _ => true,
        }
    }

    // Whether the ticket stands and its reply is there.
    fn is_ticket_ready(&self, ticket: u64) -> bool
        ensures { result ≡ is_ready self.now.memory.state (calls.Call.Take ticket) }
    {
        match self.tables.ticket(ticket) {
            Some(t) => t.ready.is_some(),
            None => false,
        }
    }

    /// Whether the ticket stands and is the connection's.
    pub fn has_ticket(&self, conn: u32, ticket: u64) -> bool
        ensures { result ≡ has_ticket self.now.memory.state conn ticket }
    {
        match self.tables.ticket(ticket) {
            Some(t) => t.connection == conn,
            None => false,
        }
    }
}
