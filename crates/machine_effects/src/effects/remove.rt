// The forced removal of a container that lives.
ghost use Rattle.std.specs.Prelude.{◌≡◌, ◌<◌, ◌≤◌, length};
ghost use Rattle.engine_text.specs.declared.owner.Owner as owners;
ghost use Rattle.machine_model.specs.Calls.Remove.{if_it_lives, kill_to_remove, to_remove};
ghost use Rattle.machine_model.specs.History.{greatest_moment};
ghost use Rattle.machine_model.specs.State.{is_live};
ghost use Rattle.machine_events.specs.Fit.{AreTimely, CanEndAs, died_of};

use crate::tables::Tables;
use container_table::{LifeChange, Rank};
use engine_text::{Owner, Signal};
use machine_events::EndMemory;
use machine_model::REMOVAL_TIME;

impl Tables {
    // Where the main process still lives, the container is in removing, and has ten seconds to end.
    fn await_end(&mut self, number: u64)
        requires clock { self.old.state.clock ≤ greatest_moment }
        requires timers { length self.old.state.timers < self.old.room.timers }
        ensures state { self.new.state ≡ (if_it_lives
            (is_live (owners.Owner.Container number) self.old.state) number self.old.state).state }
        ensures room { self.new.room ≡ self.old.room }
    {
        if self.stands(Owner::Container(number)) {
            let moment = self.clock() + REMOVAL_TIME;
            self.renew(number, LifeChange::Removing);
            self.set_timer(Rank::RemovalDeadline, number, moment);
        }
    }

    /// The container is to be removed: SIGKILL is met.
    pub fn kill_to_remove(&mut self, number: u64, brought: EndMemory) -> Option<u8>
        requires timely { AreTimely self.old.state }
        requires room { length self.old.state.execs ≤ self.old.room.scratch }
        requires timers { length self.old.state.timers < self.old.room.timers }
        requires end { CanEndAs to_remove (kill_to_remove number) number brought self.old.room
            self.old.state }
        requires spare { 0 < self.old.spare }
        ensures state { self.new.state ≡ (kill_to_remove number self.old.state).state }
        ensures died { died_of number result ≡ (kill_to_remove number self.old.state).died }
        ensures room { self.new.room ≡ self.old.room }
    {
        self.renew(number, LifeChange::ToRemove);
        let code = self.meet_signal(Signal { number: 9 }, number, brought);
        self.await_end(number);
        code
    }
}
