// The machine, the journal of the steps that led to its state, and their last events.
ghost use Rattle.std.specs.Prelude.{◌≡◌, ◌≢◌, ◌+◌, ◌≤◌, IfOk, OnErr, OnOk, IsFalse, length};
ghost use Rattle.engine_text.specs.declared.reply.Reply.TheVariants as replies;
ghost use Rattle.engine_text.specs.declared.step.Step as steps;
ghost use Rattle.journal_lines.specs.KeptJournal.{ends_of};
ghost use Rattle.machine_model.specs.History.{IsLawful, is_drop, reply_of};
ghost use Rattle.daemon_core.specs.Keeping.{history_of};
ghost use Rattle.daemon_core.specs.Storing.{Adds, AddsDue};
ghost use Rattle.daemon_core.specs.Telling.{HasEnds, HasPlaces, IsLike, IsToldBySome, KeepsTold, Plays};

use crate::telling::{keep_all, with_lines};
use container_machine::Machine;
use engine_text::{Call, Entry, NoMemory, Reply};
use event_ring::Ring;
use journal_lines::Journal;
use std::alloc::Global;

/// A machine, the journal of the steps that led to its state, and the last of their events.
#[derive(Drop)]
pub struct Stored {
    pub machine: Machine,
    pub journal: Journal,
    pub ring: Ring,
}

// The reply again: once for the journal, and once for who asked. Of a ticket's end it takes no memory.
fn reply_again(alloc: Global, reply: &Reply) -> Result<Reply, NoMemory>
    ensures ok { IfOk result (λ r. r ≡ reply.now) }
    ensures err { OnErr result (reply.now ≢ replies.Dropped) }
{
    match reply {
        Reply::Dropped => Ok(Reply::Dropped),
        _ => reply.copy(alloc),
    }
}

impl Stored {
    // The places of a call that ends no ticket, and of the ends of all tickets behind it.
    fn reserve(&mut self) -> Result<(), NoMemory>
        ensures machine { self.new.machine ≡ self.old.machine }
        ensures ring { self.new.ring ≡ self.old.ring }
        ensures journal { IsLike self.old.journal self.new.journal }
        ensures room { OnOk result
            (length self.new.journal.entries + ends_of self.new.journal.entries
            + (length self.new.machine.memory.state.tickets + 2) ≤ self.new.journal.room) }
    {
        self.machine.kept();
        let places = self.machine.ticket_count() + 2;
        self.journal.make_places(places)
    }

    // The place of the call, and of the end of the ticket that it may give. The end of a ticket has
    // its place.
    fn make_place(&mut self, call: &Call) -> Result<(), NoMemory>
        ensures machine { self.new.machine ≡ self.old.machine }
        ensures ring { self.new.ring ≡ self.old.ring }
        ensures journal { IsLike self.old.journal self.new.journal }
        ensures room { OnOk result (HasPlaces self.new call.now) }
        ensures drop { OnErr result (IsFalse (is_drop call.now)) }
    {
        match call {
            Call::Take { .. } => Ok(()),
            Call::Drop { .. } => Ok(()),
            _ => self.reserve(),
        }
    }

    // The machine makes a lawful call, and the ring keeps its events. The reply comes twice.
    fn commit_call(
        &mut self,
        alloc: Global,
        conn: u32,
        moment: u64,
        call: &Call,
    ) -> Result<(Reply, Reply), NoMemory>
        requires lawful { IsLawful self.old.machine.memory.state
            (steps.Step.Call conn moment call.now) }
        requires told { IsToldBySome self.old }
        ensures journal { self.new.journal ≡ self.old.journal }
        ensures made { IfOk result
            (λ r. Plays (steps.Step.Call conn moment call.now) self.old self.new) }
        ensures kept { IfOk result
            (λ r. r.0 ≡ reply_of self.old.machine.memory.state conn moment call.now) }
        ensures reply { IfOk result
            (λ r. r.1 ≡ reply_of self.old.machine.memory.state conn moment call.now) }
        ensures state { OnErr result
            (self.new.machine.memory.state ≡ self.old.machine.memory.state) }
        ensures ring { OnErr result (self.new.ring ≡ self.old.ring) }
        ensures drop { OnErr result (IsFalse (is_drop call.now)) }
    {
        self.machine.kept();
        let prepared = self.machine.prepare(alloc, conn, moment, call)?;
        let lines = with_lines(alloc, prepared.events())?;
        let kept = reply_again(alloc, prepared.reply())?;
        let reply = self.machine.commit(prepared);
        keep_all(&mut self.ring, lines);
        Ok((kept, reply))
    }

    // The machine makes the step that is due first, and the ring keeps its events.
    fn commit_due(&mut self, alloc: Global) -> Result<(), NoMemory>
        requires lawful { IsLawful self.old.machine.memory.state steps.Step.Due }
        requires told { IsToldBySome self.old }
        ensures journal { self.new.journal ≡ self.old.journal }
        ensures made { IfOk result (λ r. Plays steps.Step.Due self.old self.new) }
        ensures state { OnErr result
            (self.new.machine.memory.state ≡ self.old.machine.memory.state) }
        ensures ring { OnErr result (self.new.ring ≡ self.old.ring) }
    {
        self.machine.kept();
        let prepared = self.machine.prepare_due(alloc)?;
        let lines = with_lines(alloc, prepared.events())?;
        self.machine.commit_due(prepared);
        keep_all(&mut self.ring, lines);
        Ok(())
    }

    /// Makes a lawful call, and keeps its entry and its events. Nothing changes where memory is refused. A
    /// drop takes none.
    pub fn make(
        &mut self,
        alloc: Global,
        conn: u32,
        moment: u64,
        call: Call,
    ) -> Result<Reply, NoMemory>
        requires lawful { IsLawful self.old.machine.memory.state
            (steps.Step.Call conn moment call) }
        requires told { IsToldBySome self.old }
        requires ends { HasEnds self.old }
        ensures made { IfOk result
            (λ r. Adds conn moment call r self.old.machine.memory.state
            self.new.machine.memory.state
            (history_of self.old.journal) (history_of self.new.journal)) }
        ensures ends { HasEnds self.new }
        ensures told { KeepsTold self.old self.new }
        ensures state { OnErr result
            (self.new.machine.memory.state ≡ self.old.machine.memory.state) }
        ensures steps { OnErr result (history_of self.new.journal ≡ history_of self.old.journal) }
        ensures drop { OnErr result (IsFalse (is_drop call)) }
    {
        self.machine.kept();
        self.make_place(&call)?;
        self.journal.places();
        let made = self.commit_call(alloc, conn, moment, &call)?;
        let (kept, reply) = made;
        let since = self.journal.dues();
        self.journal.add(Entry {
            dues: since,
            conn,
            moment,
            call,
            reply: kept,
        });
        Ok(reply)
    }

    /// Makes the step that is due first, and keeps its events. Nothing changes where memory is refused.
    pub fn step_due(&mut self, alloc: Global) -> Result<(), NoMemory>
        requires lawful { IsLawful self.old.machine.memory.state steps.Step.Due }
        requires told { IsToldBySome self.old }
        requires ends { HasEnds self.old }
        ensures made { IfOk result
            (λ r. AddsDue self.old.machine.memory.state self.new.machine.memory.state
            (history_of self.old.journal) (history_of self.new.journal)) }
        ensures ends { HasEnds self.new }
        ensures told { KeepsTold self.old self.new }
        ensures state { OnErr result
            (self.new.machine.memory.state ≡ self.old.machine.memory.state) }
        ensures journal { OnErr result (self.new.journal ≡ self.old.journal) }
    {
        self.machine.kept();
        self.commit_due(alloc)?;
        self.journal.due();
        Ok(())
    }
}
