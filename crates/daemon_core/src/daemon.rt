// The one daemon value.
ghost use Rattle.std.specs.Prelude.{◌≡◌, ◌≤◌};
ghost use Rattle.std.specs.Coded.{Coded-set};
ghost use Rattle.machine_model.specs.History.{IsLegal, state_after, greatest_moment};
ghost use Rattle.machine_model.proofs.Histories.{IsLegal-prop};
ghost use Rattle.daemon_core.specs.Keeping.{history_of, told_entries};
ghost use Rattle.daemon_core.specs.Storing.{charter_of, turned_by};
ghost use Rattle.daemon_core.specs.Telling.{HasEnds, last_events};

use crate::moment::moment_used;
use crate::ready::{drop_of, is_open};
use crate::room::has_room;
use crate::stored::Stored;
use container_machine::Machine;
use engine_text::{Call, NoMemory, Reply};
use event_ring::Ring;
use journal_lines::Journal;
use session_model::Turned;
use std::alloc::Global;

/// A machine, the journal of its history so far, and the last events of this, under what no step
/// changes: the seed of ids, the moment of the opening in milliseconds, and the greatest number of
/// entries.
#[derive(Drop)]
pub struct Daemon {
    pub(crate) stored: Stored,
    pub(crate) seed: [u8; 32],
    pub(crate) opening: u64,
    pub(crate) greatest: u64,
    pub(crate) ghost state: { stored
        ≡ record stored {
          machine = record stored.machine {
            memory = record stored.machine.memory {
              state = state_after
                  (charter_of seed opening greatest) (history_of stored.journal);
            };
          };
        } } by { Coded-set stored-code stored _ },
    // The ring holds the last events of the history, and the journal's entries are its calls with their replies.
    pub(crate) ghost told: { stored
        ≡ record stored {
          ring = last_events (charter_of seed opening greatest)
              (history_of stored.journal);
          journal = record stored.journal {
            entries = told_entries (charter_of seed opening greatest)
                (history_of stored.journal);
          };
        } } by { Coded-set stored-code stored _ },
    pub(crate) ghost legal: { IsLegal (charter_of seed opening greatest) (history_of stored.journal) } by { IsLegal-prop (charter_of seed opening greatest) (history_of stored.journal) },
    // The end of each ticket that stands has its place behind the entries.
    pub(crate) ghost ends: { HasEnds stored },
}

/// The answer of a turn by the reply to its call.
fn turned(reply: Reply) -> Turned
    ensures { result ≡ turned_by reply }
{
    match reply {
        Reply::Begun { ticket } => Turned::Begun { ticket },
        reply => Turned::Replied(reply),
    }
}

impl Daemon {
    ghost use Rattle.std.specs.Prelude.{ℕ, [], None, Some, IfOk, IsFalse, length};
    ghost use Rattle.std.specs.Option.{option_map};
    ghost use Rattle.engine_text.specs.Soundness.{IsSound};
    ghost use Rattle.engine_text.specs.declared.call.Call as calls;
    ghost use Rattle.machine_model.specs.History.{is_drop};
    ghost use Rattle.session_model.specs.Turning.{MayAsk, Turn};
    ghost use Rattle.daemon_core.specs.Keeping.{history_of};
    ghost use Rattle.daemon_core.specs.Storing.{charter_of, pass_of, drop_of, IsStored, IsClear, HoldsTicket, Ends};
    ghost use Rattle.daemon_core.specs.Passing.{charter, whole_pass};

    /// A daemon without history. The moment is at most the greatest one.
    pub fn new(
        alloc: Global,
        seed: [u8; 32],
        moment: u64,
        greatest: u64,
    ) -> Result<Daemon, NoMemory>
        requires { moment ≤ greatest_moment }
        ensures { IfOk result (λ d. whole_pass d ≡ pass_of (charter_of seed moment greatest) []) }
    {
        Ok(Daemon {
            stored: Stored {
                machine: Machine::new(alloc, seed, moment)?,
                journal: Journal::new(alloc, greatest)?,
                ring: Ring::new(alloc)?,
            },
            seed,
            opening: moment,
            greatest,
        })
    }

    /// How many steps its history has.
    pub fn steps(&self) -> u64
        ensures count { result ≡ length (history_of self.now.stored.journal) }
        ensures stored { IsStored (charter self.now) (history_of self.now.stored.journal) }
    {
        self.stored.journal.steps()
    }

    /// It comes to its end, and all that it keeps is let go. Who lets a daemon go by this has none of its parts to let go,
    /// and so no proof of that.
    pub fn end(self) {}

    /// Makes every step that is due at or before the moment that counts, and then the call. A drop is
    /// made at once, and takes no memory.
    pub fn turn(&mut self, alloc: Global, conn: u32, handed: u64, call: Option<&Call>) -> Turned
        requires { MayAsk (charter self.old) conn (history_of self.old.stored.journal)
            (option_map (λ c. c.now) call) }
        ensures { Turn conn handed (option_map (λ c. c.now) call.entry) result
            (whole_pass self.old) (whole_pass self.new) }
    {
        match drop_of(call) {
            Some(ticket) => self.drop_ticket(alloc, conn, ticket),
            None => self.ask(alloc, conn, handed, call),
        }
    }

    // Ends a ticket at once.
    fn drop_ticket(&mut self, alloc: Global, conn: u32, ticket: u64) -> Turned
        requires { MayAsk (charter self.old) conn (history_of self.old.stored.journal)
            (Some (calls.Call.Drop ticket)) }
        ensures { (handed : ℕ) → Turn conn handed (Some (calls.Call.Drop ticket)) result
            (whole_pass self.old) (whole_pass self.new) }
    {
        let moment = self.stored.machine.now();
        match self.stored.make(alloc, conn, moment, Call::Drop { ticket }) {
            Ok(reply) => Turned::Replied(reply),
            Err(NoMemory) => unreachable!(),
        }
    }

    // Makes what is due, and then the call, which is no drop.
    fn ask(&mut self, alloc: Global, conn: u32, handed: u64, call: Option<&Call>) -> Turned
        requires may { MayAsk (charter self.old) conn (history_of self.old.stored.journal)
            (option_map (λ c. c.now) call) }
        requires kind { drop_of (option_map (λ c. c.now) call) ≡ None }
        ensures { Turn conn handed (option_map (λ c. c.now) call.entry) result
            (whole_pass self.old) (whole_pass self.new) }
    {
        let moment = moment_used(self.stored.machine.now(), handed);
        match self.stored.run_due(alloc, moment) {
            Ok(()) => match call {
                None => Turned::Nothing,
                Some(call) => self.make(alloc, conn, moment, call),
            },
            Err(NoMemory) => Turned::NoMemory,
        }
    }

    // Makes the call behind all that is due by its moment.
    fn make(&mut self, alloc: Global, conn: u32, moment: u64, call: &Call) -> Turned
        requires sound { IsSound call.now }
        requires kind { IsFalse (is_drop call.now) }
        requires holds { HoldsTicket self.old.stored.machine.memory.state conn call.now }
        requires at { IsClear self.old.stored.machine.memory.state moment }
        ensures charter { charter self.new ≡ charter self.old }
        ensures ends { Ends (charter self.old) self.old.stored.machine.memory.state conn moment
            call.now result (history_of self.old.stored.journal)
            (history_of self.new.stored.journal) }
    {
        if !has_room(&self.stored.machine, self.greatest, call) {
            return Turned::JournalFull;
        }
        if !is_open(&self.stored.machine, moment, call) {
            return Turned::NotYet;
        }
        let Ok(made) = call.copy(alloc) else {
            return Turned::NoMemory;
        };
        match self.stored.make(alloc, conn, moment, made) {
            Ok(reply) => turned(reply),
            Err(NoMemory) => Turned::NoMemory,
        }
    }
}
