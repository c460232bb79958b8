// The end of an exec, and of a main process.
ghost use Rattle.std.specs.Prelude.{◌≡◌, ◌+◌, ◌<◌, ◌≤◌, length};
ghost use Rattle.machine_model.specs.Effects.EndMain.{end_exec, end_execs, die, clear_deadlines, end_main, wait_again};
ghost use Rattle.machine_model.specs.History.{greatest_moment};
ghost use Rattle.machine_events.specs.Effects.EndMain.{followed, stayed, goal_effect, concluded};
ghost use Rattle.machine_events.specs.Fit.{CanRemove, CanSettle, HasGoal};

use crate::tables::Tables;
use container_table::{LifeChange, Rank};
use engine_text::{Goal, Owner, Status};
use machine_events::{EndMemory, lives};
use restart_policy::Decision;

impl Tables {
    /// The exec's process has ended with that code.
    pub fn end_exec(&mut self, code: u8, number: u64)
        ensures state { self.new.state ≡ (end_exec code number self.old.state).state }
        ensures room { self.new.room ≡ self.old.room }
        ensures spare { self.new.spare ≡ self.old.spare }
        ensures scratch { self.new.scratch ≡ self.old.scratch }
    {
        if self.has_exec(number) {
            self.drop_process(Owner::Exec(number));
            self.end_row(code, number);
        }
    }

    /// Each running exec of the container ends.
    pub fn end_execs(&mut self, number: u64)
        requires { length self.old.state.execs ≤ self.old.room.scratch }
        ensures state { self.new.state ≡ (end_execs number self.old.state).state }
        ensures room { self.new.room ≡ self.old.room }
        ensures spare { self.new.spare ≡ self.old.spare }
    {
        self.note_running(number);
        for i in 0..self.noted() {
            let exec = self.noted_at(i);
            self.end_exec(137, exec);
        }
    }

    /// The main process is gone.
    pub fn die(&mut self, code: u8, number: u64)
        ensures state { self.new.state ≡ (die code number self.old.state).state }
        ensures room { self.new.room ≡ self.old.room }
        ensures spare { self.new.spare ≡ self.old.spare }
    {
        let moment = self.clock();
        self.drop_process(Owner::Container(number));
        self.renew(number, LifeChange::Ended(code, moment));
    }

    /// The stop deadline and the removal deadline are gone.
    pub fn clear_deadlines(&mut self, number: u64)
        ensures state { self.new.state ≡ clear_deadlines number self.old.state }
        ensures room { self.new.room ≡ self.old.room }
        ensures spare { self.new.spare ≡ self.old.spare }
    {
        self.clear_timer(Rank::StopDeadline, number);
        self.clear_timer(Rank::RemovalDeadline, number);
    }

    // It waits for a restart after the delay.
    fn wait(&mut self, number: u64, delay: u64)
        requires clock { self.old.state.clock ≤ greatest_moment }
        requires timers { length self.old.state.timers < self.old.room.timers }
        requires delay { delay ≤ 60000 }
        ensures state { self.new.state ≡ (wait_again delay number self.old.state).state }
        ensures room { self.new.room ≡ self.old.room }
    {
        let moment = self.clock() + delay;
        self.renew(number, LifeChange::Waiting(delay));
        self.set_timer(Rank::RestartTimer, number, moment);
    }

    // It stays exited, and is gone where it is removed by itself.
    fn stay(&mut self, number: u64, brought: EndMemory)
        requires { CanRemove number brought self.old.room self.old.state }
        ensures state { self.new.state ≡ (stayed number self.old.state).state }
        ensures room { self.new.room ≡ self.old.room }
    {
        let Some(h) = self.numbered(number) else {
            return;
        };
        let auto = h.container.life.auto_remove;
        self.renew(number, LifeChange::Exited);
        if !auto {
            return;
        }
        self.destroy(number, brought);
    }

    /// It stays exited, and is gone where it is removed by itself, or waits for a restart.
    pub fn follow(&mut self, number: u64, brought: EndMemory)
        requires clock { self.old.state.clock ≤ greatest_moment }
        requires remove { CanRemove number brought self.old.room self.old.state }
        requires timers { length self.old.state.timers < self.old.room.timers }
        ensures state { self.new.state ≡ (followed number self.old.state).state }
        ensures room { self.new.room ≡ self.old.room }
    {
        let Some(h) = self.numbered(number) else {
            return;
        };
        match lives::decision(h, self.clock()) {
            Decision::Stay => self.stay(number, brought),
            Decision::Again(delay) => self.wait(number, delay),
        }
    }

    // What the goal wants.
    fn by_goal(&mut self, goal: Goal, number: u64, brought: EndMemory)
        requires fit { CanSettle number brought self.old.room self.old.state }
        requires goal { HasGoal goal number self.old.state }
        requires spare { 0 < self.old.spare }
        ensures state { self.new.state ≡ (goal_effect goal number self.old.state).state }
        ensures room { self.new.room ≡ self.old.room }
    {
        match goal {
            Goal::Remove => self.destroy(number, brought),
            Goal::Stop => self.stay(number, brought),
            Goal::Restart => self.launch_by_call(number, brought.script),
            Goal::None => self.follow(number, brought),
        }
    }

    // What its status and its goal want after the end of the main process.
    fn conclude(&mut self, number: u64, brought: EndMemory)
        requires fit { CanSettle number brought self.old.room self.old.state }
        requires spare { 0 < self.old.spare }
        ensures state { self.new.state ≡ (concluded number self.old.state).state }
        ensures room { self.new.room ≡ self.old.room }
    {
        let Some(h) = self.numbered(number) else {
            return;
        };
        let goal = h.container.life.goal;
        match h.container.life.status {
            Status::Dead => {}
            _ => self.by_goal(goal, number, brought),
        }
    }

    /// The main process of the container ends with that code.
    pub fn end_main(&mut self, code: u8, number: u64, brought: EndMemory)
        requires fit { CanSettle number brought self.old.room self.old.state }
        requires spare { 0 < self.old.spare }
        ensures state { self.new.state ≡ (end_main code number self.old.state).state }
        ensures room { self.new.room ≡ self.old.room }
    {
        self.end_execs(number);
        self.die(code, number);
        self.clear_deadlines(number);
        self.conclude(number, brought);
        self.renew(number, LifeChange::NoGoal);
    }
}
