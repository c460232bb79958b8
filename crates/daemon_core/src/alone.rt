// The owner of a daemon, who takes all turns.
ghost use Rattle.std.specs.Prelude.{◌≡◌, refl};
ghost use Rattle.session_model.proofs.PassLemmas.{none_joined};
ghost use Rattle.daemon_core.specs.Keeping.{history_of};
ghost use Rattle.daemon_core.specs.Passing.{whole_pass};

use crate::{Daemon, Turns};
use engine_text::{Call, Filter, LogSpec};
use session_model::{Part, Turned};
use std::alloc::Global;

/// The owner of a daemon, who takes all turns.
#[derive(Drop)]
pub struct Alone {
    daemon: Daemon,
}

impl Alone {
    ghost use Rattle.daemon_core.specs.Passing.{alone_pass};

    pub fn new(daemon: Daemon) -> Alone
        ensures { alone_pass result ≡ whole_pass daemon }
    {
        Alone { daemon }
    }

    /// The daemon, as its turns left it.
    pub fn daemon(&self) -> &Daemon
        ensures { whole_pass result.now ≡ alone_pass self.now }
    {
        &self.daemon
    }

    /// The daemon, given back as its turns left it.
    pub fn into_daemon(self) -> Daemon
        ensures { whole_pass result ≡ alone_pass self }
    {
        let Alone { daemon } = self;
        daemon
    }

    /// The daemon comes to its end.
    pub fn end(self) {
        self.daemon.end();
    }
}

impl Turns for Alone {
    ghost pass = { λ a. whole_pass a.daemon };

    fn turn(&mut self, alloc: Global, conn: u32, handed: u64, call: Option<&Call>) -> Turned {
        self.daemon.turn(alloc, conn, handed, call)
    }

    fn log_from(
        &mut self,
        alloc: Global,
        conn: u32,
        handed: u64,
        spec: &LogSpec,
        place: u64,
        out: &mut Vec<u8>,
    ) -> Part {
        self.daemon.log_from(alloc, conn, handed, spec, place, out)
    }

    fn events_from(
        &mut self,
        alloc: Global,
        conn: u32,
        handed: u64,
        number: u64,
        out: &mut Vec<u8>,
        filter: &Filter,
        until: Option<u64>,
    ) -> Part {
        self.daemon
            .events_from(alloc, conn, handed, number, out, filter, until)
    }

    fn journal_from(&mut self, alloc: Global, _: u32, number: u64, out: &mut Vec<u8>) -> Part {
        self.daemon.journal_from(alloc, number, out)
    }

    ghost sound = { λ a. a.daemon.legal };

    ghost counted = { λ a.
        record { own = refl; joined = none_joined (history_of a.daemon.stored.journal) } };
}
