// What deadlines and timers do.
ghost use Rattle.std.specs.Prelude.{◌≡◌, ◌<◌, ◌≤◌, length};
ghost use Rattle.machine_model.specs.Due.{stop_deadline, removal_deadline, restart_timer, restarted};
ghost use Rattle.machine_model.specs.Consistency.{is_there};
ghost use Rattle.machine_model.specs.State.{change_life, container_numbered};
ghost use Rattle.machine_events.specs.Deadlines.{HasId, CanRestart, timed_out_at};
ghost use Rattle.machine_events.specs.Fit.{AreTimely, CanLaunch, CanEndBy, died_of};

use crate::tables::Tables;
use container_table::{LifeChange, Rank};
use engine_text::{Script, Signal};
use machine_events::EndMemory;
use machine_tables::RemovalResult;

impl Tables {
    /// The stop deadline has come: SIGKILL is met.
    pub fn stop_deadline(&mut self, number: u64, brought: EndMemory) -> Option<u8>
        requires timely { AreTimely self.old.state }
        requires room { length self.old.state.execs ≤ self.old.room.scratch }
        requires end { CanEndBy (stop_deadline number) number brought self.old.room self.old.state }
        requires spare { 0 < self.old.spare }
        ensures state { self.new.state ≡ (stop_deadline number self.old.state).state }
        ensures died { died_of number result ≡ (stop_deadline number self.old.state).died }
        ensures room { self.new.room ≡ self.old.room }
    {
        self.clear_timer(Rank::StopDeadline, number);
        self.meet_signal(Signal { number: 9 }, number, brought)
    }

    // Whether there is a container with that number.
    fn has(&self, number: u64) -> bool
        ensures { result ≡ is_there (container_numbered number self.now.state) }
    {
        match self.numbered(number) {
            None => false,
            Some(_) => true,
        }
    }

    // The removals' tickets of the container are told that it takes too long.
    fn time_out(&mut self, number: u64)
        requires { HasId number self.old.state }
        ensures state { self.new.state ≡ (timed_out_at number self.old.state).state }
        ensures room { self.new.room ≡ self.old.room }
        ensures spare { self.new.spare ≡ self.old.spare }
    {
        if self.has(number) {
            self.tickets.answer(number, RemovalResult::TimedOut);
        }
    }

    /// The removal deadline has come: the container is dead, and the removal's ticket is told so.
    pub fn removal_deadline(&mut self, number: u64)
        requires { HasId number self.old.state }
        ensures state { self.new.state ≡ (removal_deadline number self.old.state).state }
        ensures room { self.new.room ≡ self.old.room }
        ensures spare { self.new.spare ≡ self.old.spare }
    {
        self.clear_timer(Rank::RemovalDeadline, number);
        self.renew(number, LifeChange::Died);
        self.time_out(number);
    }

    // One restart more.
    fn count_restart(&mut self, number: u64)
        requires { CanRestart number self.old.state }
        ensures state { self.new.state ≡ change_life number restarted self.old.state }
        ensures room { self.new.room ≡ self.old.room }
        ensures spare { self.new.spare ≡ self.old.spare }
    {
        let Some(h) = self.numbered(number) else {
            return;
        };
        let count = h.container.life.restarts + 1;
        self.renew(number, LifeChange::Restarted(count));
    }

    /// The restart timer has come: the restart count rises, and the container is launched.
    pub fn restart_timer(&mut self, number: u64, script: Option<Script>)
        requires launch { CanLaunch number script self.old.state }
        requires restarts { CanRestart number self.old.state }
        requires spare { 0 < self.old.spare }
        ensures state { self.new.state ≡ (restart_timer number self.old.state).state }
        ensures room { self.new.room ≡ self.old.room }
    {
        self.clear_timer(Rank::RestartTimer, number);
        self.count_restart(number);
        self.launch(number, script);
    }
}
