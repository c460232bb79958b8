// The signal and the deadline of a stop or a restart.
ghost use Rattle.std.specs.Prelude.{◌≡◌, ◌<◌, ◌≤◌, length, OnOk};
ghost use Rattle.machine_model.specs.Effects.Halt.{lesser, set_deadline};
ghost use Rattle.machine_model.specs.History.{greatest_moment};
ghost use Rattle.container_table.specs.declared.rank.Rank.TheVariants.{StopDeadline};
ghost use Rattle.machine_model.specs.State.{timer_of};
ghost use Rattle.machine_events.specs.Fit.{died_of};
ghost use Rattle.machine_events.specs.Halts.{CanHalt, HasHaltRoom, halted};

use crate::tables::Tables;
use container_table::Rank;
use engine_text::{NoMemory, Signal};
use machine_events::{EndMemory, Halting};
use machine_model::SECOND;
use std::alloc::Global;

impl Tables {
    // The lesser of the stop deadline that stands and the moment.
    fn lesser_deadline(&self, number: u64, moment: u64) -> u64
        ensures { result ≡ lesser (timer_of StopDeadline number self.now.state) moment }
    {
        match self.table.timer(Rank::StopDeadline, number) {
            None => moment,
            Some(d) => d.moment.min(moment),
        }
    }

    // The stop deadline comes after so many seconds at the latest; with -1 none is set.
    fn set_deadline(&mut self, seconds: i32, number: u64)
        requires room { length self.old.state.timers < self.old.room.timers }
        requires clock { self.old.state.clock ≤ greatest_moment }
        ensures state { self.new.state ≡ set_deadline seconds number self.old.state }
        ensures room { self.new.room ≡ self.old.room }
        ensures spare { self.new.spare ≡ self.old.spare }
    {
        if seconds < 0 {
            return;
        }
        let moment = self.lesser_deadline(number, self.clock() + SECOND * seconds as u64);
        self.set_timer(Rank::StopDeadline, number, moment);
    }

    /// What the call notes, the stop deadline, and the signal; the code of the main process, if
    /// that ended it. With -1 for the seconds no deadline is set.
    pub fn halt(
        &mut self,
        halting: Halting,
        seconds: i32,
        sent: Signal,
        number: u64,
        brought: EndMemory,
    ) -> Option<u8>
        requires signal { sent.number < 32 }
        requires may { CanHalt halting seconds sent.number number brought self.old }
        ensures state { self.new.state
            ≡ (halted halting seconds sent.number number self.old.state).state }
        ensures died { died_of number result
            ≡ (halted halting seconds sent.number number self.old.state).died }
        ensures room { self.new.room ≡ self.old.room }
    {
        self.renew(number, halting.life_change());
        self.set_deadline(seconds, number);
        self.meet_signal(sent, number, brought)
    }

    /// Makes room for a ticket, for a deadline, and for the end of a main process with what may
    /// follow it.
    pub fn make_halt_room(&mut self, alloc: Global) -> Result<(), NoMemory>
        ensures state { self.new.state ≡ self.old.state }
        ensures room { OnOk result (HasHaltRoom self.new) }
        ensures moments { self.new.room.moments ≡ self.old.room.moments }
    {
        if self.scratch.reserve(self.execs.len()).is_err() {
            return Err(NoMemory);
        }
        self.tickets.reserve()?;
        self.table.reserve_timers(2)?;
        self.removals.reserve()?;
        self.processes.reserve(alloc, 1, 0)
    }
}
