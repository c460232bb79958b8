// The tickets that become ready at the end of a step.
ghost use Rattle.std.specs.Prelude.{◌≡◌, ℕ, ◌<◌, ◌==◌, length, find, slice_get};
ghost use Rattle.machine_model.specs.Effects.Settle.{settle_tickets, is_at_rest, reply_of};
ghost use Rattle.container_table.specs.Logs.{container_in};
ghost use Rattle.machine_tables.specs.Held.{replies_in};
ghost use Rattle.machine_tables.specs.Settled.{deaths, settled_at, settled_place, replies_for};

use crate::tables::Tables;
use container_table::Held;
use engine_text::{Asked, Owner, Until};
use machine_events::is_restarting;
use machine_tables::{Death, Ready, code_of, death_of, has_died, ready_if};

impl Tables {
    /// Whether no process of the container lives and no restart is pending.
    pub fn is_at_rest(&self, h: &Held) -> bool
        ensures { result ≡ is_at_rest (container_in h.now) self.now.state }
    {
        if self.stands(Owner::Container(h.container.number)) {
            false
        } else {
            !is_restarting(h.container.life.status)
        }
    }

    // What is ready for a ticket of the container.
    fn ready_for(&self, h: &Held, asked: Asked, death: Option<Death>) -> Option<Ready>
        ensures { (n : ℕ) → replies_in self.now.state.seed n result
            ≡ reply_of asked (find (λ d. d.number == h.now.container.number) (deaths death))
            (container_in h.now) self.now.state }
    {
        let died = death_of(death, h.container.number);
        match asked {
            Asked::Stop => ready_if(has_died(died), Ready::Done),
            Asked::Restart => ready_if(has_died(died), Ready::Done),
            Asked::Remove => None,
            Asked::Wait(Until::NotRunning) => ready_if(
                self.is_at_rest(h),
                Ready::Waited(code_of(died, h.container.life.code)),
            ),
            Asked::Wait(Until::NextExit) => ready_if(
                has_died(died),
                Ready::Waited(code_of(died, h.container.life.code)),
            ),
            Asked::Wait(Until::Removed) => None,
        }
    }

    // What is ready for the ticket at that place.
    fn ready_at(&self, place: usize, death: Option<Death>) -> Option<Ready>
        requires { place < length self.now.state.tickets }
        ensures { settled_at (slice_get self.now.state.tickets place) (deaths death) self.now.state
            ≡ replies_for (slice_get self.now.state.tickets place) self.now.state result }
    {
        let t = self.tickets.at(place);
        match t.ready {
            Some(ready) => Some(ready),
            None => match self.numbered(t.container) {
                None => None,
                Some(h) => self.ready_for(h, t.asked, death),
            },
        }
    }

    // The ticket at that place gets its reply.
    fn settle_at(&mut self, place: usize, death: Option<Death>)
        requires { place < length self.old.state.tickets }
        ensures state { self.new.state ≡ settled_place place (deaths death) self.old.state }
        ensures room { self.new.room ≡ self.old.room }
        ensures spare { self.new.spare ≡ self.old.spare }
    {
        let ready = self.ready_at(place, death);
        self.tickets.put(place, ready);
    }

    fn tickets_len(&self) -> usize
        ensures { result ≡ length self.now.state.tickets }
    {
        self.tickets.len()
    }

    /// Each ticket that isn't ready gets its reply, if it has one now.
    pub fn settle(&mut self, death: Option<Death>)
        ensures state { self.new.state ≡ settle_tickets (deaths death) self.old.state }
        ensures room { self.new.room ≡ self.old.room }
        ensures spare { self.new.spare ≡ self.old.spare }
    {
        for i in 0..self.tickets_len() {
            self.settle_at(i, death);
        }
    }
}
