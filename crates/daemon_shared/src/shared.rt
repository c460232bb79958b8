// One of several threads that take turns on one daemon.
ghost use Rattle.std.specs.Prelude.{◌≡◌, false, length, refl};
ghost use Rattle.machine_model.specs.History.{IsLegal, calls_of};
ghost use Rattle.machine_model.proofs.Histories.{IsLegal-prop};
ghost use Rattle.turnstile.specs.Claims.{times};
ghost use Rattle.turnstile.specs.Turns.{IsPass};
ghost use Rattle.daemon_shared.specs.Sharing.{charter_in, with_calls, shared_pass};
ghost use Rattle.std.proofs.lemmas.List.Elements.{All-map};

use crate::event_job::EventJob;
use crate::journal_job::JournalJob;
use crate::log_job::LogJob;
use crate::one_daemon::OneDaemon;
use daemon_core::Turns;
use engine_text::{Call, Filter, LogSpec};
use session_model::{Part, Turned};
use std::alloc::Global;
use std::mem;
use std::sync::Wait;
use turnstile::{Job, Pass, Turnstile};

/// One turn of a connection.
#[derive(Drop)]
pub struct TurnJob<'c> {
    pub alloc: Global,
    pub conn: u32,
    pub handed: u64,
    pub call: Option<&'c Call>,
}

impl<'c> Job<OneDaemon> for TurnJob<'c> {
    ghost use Rattle.std.specs.Option.{option_map};
    ghost use Rattle.session_model.specs.Turning.{MayAsk};
    ghost use Rattle.daemon_shared.specs.Sharing.{Makes, charter_by};

    type Answer = Turned;

    ghost number = { λ j. j.conn };

    ghost may_meet = { λ j o h. MayAsk (charter_by o) j.conn h (option_map (λ c. c.now) j.call) };

    ghost may_answer = { λ j o h k a i.
        Makes o j.conn j.handed (option_map (λ c. c.now) j.call) a h k };

    fn run(&mut self, value: &mut OneDaemon) -> Turned {
        value
            .daemon
            .turn(self.alloc, self.conn, self.handed, self.call)
    }
}

/// Turns on a shared daemon, by one pass.
pub struct Shared<'a, R> {
    pub(crate) rt: &'a R,
    pub(crate) lock: &'a Turnstile<OneDaemon>,
    pub(crate) pass: Pass<OneDaemon>,
    ghost ours: { pass.table_id ≡ lock.now.table.shared.table_id },
    ghost idle: { length pass.me.1 ≡ 0 },
    ghost live: { pass.me.0.spent ≡ false },
    ghost between: { pass.me.0.holds_turn ≡ false },
    ghost apart: { times pass.me.0.number pass.me.0.joined_calls ≡ 0 },
    ghost legal: { IsLegal (charter_in pass.me.0.charter) pass.me.0.seen } by { IsLegal-prop (charter_in pass.me.0.charter) pass.me.0.seen },
}

impl<'a, R> Shared<'a, R> {
    /// Turns by this pass of the turnstile; no pass of its number was joined in it.
    pub fn new(
        rt: &'a R,
        lock: &'a Turnstile<OneDaemon>,
        mut pass: Pass<OneDaemon>,
    ) -> Shared<'a, R>
        requires pass { IsPass lock.now.table.shared.table_id pass }
        requires apart { times pass.me.0.number pass.me.0.joined_calls ≡ 0 }
        ensures lock { result.lock.now.table.shared.table_id ≡ lock.now.table.shared.table_id }
        ensures pass { (result.pass.me.0 ≡ pass.me.0) × (result.pass.table_id ≡ pass.table_id) }
    {
        lock.learn(&mut pass);
        Shared { rt, lock, pass }
    }

    /// The pass, which has seen what the turns told.
    pub fn into_pass(self) -> Pass<OneDaemon>
        ensures pass { IsPass self.entry.lock.now.table.shared.table_id result }
        ensures same { (result.me.0 ≡ self.entry.pass.me.0)
            × (result.table_id ≡ self.entry.pass.table_id) }
    {
        let Shared {
            rt: _,
            lock: _,
            pass,
        } = self;
        pass
    }
}

impl<'a, R: Wait> Turns for Shared<'a, R> {
    ghost pass = { λ s. shared_pass s.pass.table_id s.pass.me.0 };

    fn turn(&mut self, alloc: Global, conn: u32, handed: u64, call: Option<&Call>) -> Turned {
        let mut job = TurnJob {
            alloc,
            conn,
            handed,
            call,
        };
        self.lock.turn(self.rt, &mut self.pass, &mut job)
    }

    fn log_from(
        &mut self,
        alloc: Global,
        conn: u32,
        handed: u64,
        spec: &LogSpec,
        place: u64,
        out: &mut Vec<u8>,
    ) -> Part {
        let so_far = mem::replace(&mut *out, Vec::new(alloc));
        let mut job = LogJob {
            alloc,
            conn,
            handed,
            spec: *spec,
            place,
            out: so_far,
        };
        let part = self.lock.turn(self.rt, &mut self.pass, &mut job);
        *out = job.out;
        part
    }

    fn events_from(
        &mut self,
        alloc: Global,
        conn: u32,
        handed: u64,
        number: u64,
        out: &mut Vec<u8>,
        filter: &Filter,
        until: Option<u64>,
    ) -> Part {
        let so_far = mem::replace(&mut *out, Vec::new(alloc));
        let mut job = EventJob {
            alloc,
            conn,
            handed,
            place: number,
            filter,
            until,
            out: so_far,
        };
        let part = self.lock.turn(self.rt, &mut self.pass, &mut job);
        *out = job.out;
        part
    }

    fn journal_from(&mut self, alloc: Global, conn: u32, number: u64, out: &mut Vec<u8>) -> Part {
        let so_far = mem::replace(&mut *out, Vec::new(alloc));
        let mut job = JournalJob {
            alloc,
            conn,
            place: number,
            out: so_far,
        };
        let part = self.lock.turn(self.rt, &mut self.pass, &mut job);
        *out = job.out;
        part
    }

    ghost sound = { λ s. s.legal };

    ghost counted = { λ s. record {
      own = refl;
      joined = All-map (λ c. c.1 ≡ calls_of c.0 s.pass.me.0.seen) (with_calls s.pass.me.0.seen)
          s.pass.me.0.joined_calls (λ k d lt. refl);
    } };
}
