// A daemon on which a written history is made again.
ghost use Rattle.std.specs.Prelude.{◌≡◌, ◌≤◌, [], IfOk, max};
ghost use Rattle.daemon_core.specs.Keeping.{history_of};
ghost use Rattle.daemon_core.specs.Passing.{whole_pass};
ghost use Rattle.daemon_core.specs.Storing.{charter_of, pass_of};
ghost use Rattle.engine_reboot.specs.Reopening.{behind_client, next_connection, standing_of};
ghost use Rattle.machine_model.specs.History.{greatest_moment};

use container_machine::Machine;
use daemon_core::Daemon;
use engine_text::{Call, NoMemory, Reply};
use history_replay::Replays;
use journal_lines::Header;
use std::alloc::Global;

/// The daemon, and one more than the greatest number of a client among its calls. Who lets it go
/// ends it.
pub struct Reopened {
    pub(crate) daemon: Daemon,
    pub(crate) next: u32,
    pub(crate) ghost first: { next ≡ next_connection (history_of daemon.stored.journal) },
}

/// The numbers of clients end below this one.
const CLIENTS: u32 = 2_147_483_646;

// The number of the next client behind a call of that connection.
fn next_behind(next: u32, connection: u32) -> u32
    ensures { result ≡ max (behind_client connection) next }
{
    if connection < CLIENTS {
        (connection + 1).max(next)
    } else {
        next
    }
}

impl Reopened {
    /// A daemon without history.
    pub(crate) fn new(alloc: Global, header: &Header, greatest: u64) -> Result<Reopened, NoMemory>
        requires { header.now.opening ≤ greatest_moment }
        ensures { IfOk result (λ r. whole_pass r.daemon
            ≡ pass_of (charter_of header.now.seed header.now.opening greatest) []) }
    {
        let daemon = Daemon::new(alloc, header.seed, header.opening, greatest)?;
        Ok(Reopened { daemon, next: 0 })
    }

    /// It comes to its end.
    pub(crate) fn end(self) {
        let Reopened { daemon, next: _ } = self;
        daemon.end();
    }
}

impl Replays for Reopened {
    ghost standing = { λ r. standing_of (whole_pass r.daemon) };

    fn bare(&self) -> &Machine {
        self.daemon.machine()
    }

    fn step_due(&mut self, alloc: Global) -> Result<(), NoMemory> {
        self.daemon.make_due(alloc)
    }

    fn make(
        &mut self,
        alloc: Global,
        conn: u32,
        moment: u64,
        call: &Call,
    ) -> Result<Reply, NoMemory> {
        let reply = self.daemon.make_call(alloc, conn, moment, call)?;
        self.next = next_behind(self.next, conn);
        Ok(reply)
    }
}
