// What signals and thaws do to a container.
ghost use Rattle.std.specs.Prelude.{◌≡◌, ◌<◌, ◌≤◌, length};
ghost use Rattle.engine_text.specs.declared.owner.Owner as owners;
ghost use Rattle.proc_kernel.specs.Processes.{thaw};
ghost use Rattle.machine_model.specs.Chain.{in_order};
ghost use Rattle.machine_model.specs.Effects.Meet.{step_process, by_effect, thaw_execs, send, woken, wake_parts, thaw_container, meet_signal};
ghost use Rattle.machine_events.specs.Fit.{AreTimely, IsQuiet, CanEndBy, died_of};

use crate::tables::Tables;
use container_table::LifeChange;
use engine_text::{Effect, Owner, Signal, Status};
use machine_events::{EndMemory, is_paused};

impl Tables {
    // What a step of an exec's process does beyond the process; it has written nothing.
    fn exec_effect(&mut self, effect: Effect, number: u64)
        requires { IsQuiet effect }
        ensures state { self.new.state
            ≡ (by_effect effect (owners.Owner.Exec number) self.old.state).state }
        ensures room { self.new.room ≡ self.old.room }
        ensures spare { self.new.spare ≡ self.old.spare }
        ensures scratch { self.new.scratch ≡ self.old.scratch }
    {
        match effect {
            Effect::Lives => {}
            Effect::Wrote(_, _) => unreachable!(),
            Effect::Ended(code) => self.end_exec(code, number),
        }
    }

    // The exec's process goes on.
    fn thaw_exec(&mut self, number: u64)
        requires { AreTimely self.old.state }
        ensures state { self.new.state
            ≡ (step_process thaw (owners.Owner.Exec number) self.old.state).state }
        ensures timely { AreTimely self.new.state }
        ensures room { self.new.room ≡ self.old.room }
        ensures spare { self.new.spare ≡ self.old.spare }
        ensures scratch { self.new.scratch ≡ self.old.scratch }
    {
        let effect = self.thaw_process(Owner::Exec(number));
        self.exec_effect(effect, number);
    }

    /// The processes of the container's running execs go on.
    pub fn thaw_execs(&mut self, number: u64)
        requires room { length self.old.state.execs ≤ self.old.room.scratch }
        requires timely { AreTimely self.old.state }
        ensures state { self.new.state ≡ (thaw_execs number self.old.state).state }
        ensures room { self.new.room ≡ self.old.room }
        ensures spare { self.new.spare ≡ self.old.spare }
        ensures timely { AreTimely self.new.state }
    {
        self.note_running(number);
        for i in 0..self.noted() {
            let exec = self.noted_at(i);
            self.thaw_exec(exec);
        }
    }

    // What a step of a main process does beyond the process, which wrote nothing; its code where it ended.
    fn main_effect(&mut self, effect: Effect, number: u64, brought: EndMemory) -> Option<u8>
        requires quiet { IsQuiet effect }
        requires end { CanEndBy (by_effect effect (owners.Owner.Container number)) number brought
            self.old.room self.old.state }
        requires spare { 0 < self.old.spare }
        ensures state { self.new.state
            ≡ (by_effect effect (owners.Owner.Container number) self.old.state).state }
        ensures died { died_of number result
            ≡ (by_effect effect (owners.Owner.Container number) self.old.state).died }
        ensures room { self.new.room ≡ self.old.room }
    {
        match effect {
            Effect::Lives => None,
            Effect::Wrote(_, _) => unreachable!(),
            Effect::Ended(code) => {
                self.end_main(code, number, brought);
                Some(code)
            }
        }
    }

    /// The signal comes to the main process.
    pub fn send(&mut self, sent: Signal, thaws: bool, number: u64, brought: EndMemory) -> Option<u8>
        requires signal { sent.number < 32 }
        requires timely { AreTimely self.old.state }
        requires end { CanEndBy (send thaws sent.number number) number brought self.old.room
            self.old.state }
        requires spare { 0 < self.old.spare }
        ensures state { self.new.state ≡ (send thaws sent.number number self.old.state).state }
        ensures died { died_of number result ≡ (send thaws sent.number number self.old.state).died }
        ensures room { self.new.room ≡ self.old.room }
    {
        let effect = self.signal_process(Owner::Container(number), sent, thaws);
        self.main_effect(effect, number, brought)
    }

    /// The end of a pause, but for the main process.
    pub fn wake(&mut self, number: u64)
        requires room { length self.old.state.execs ≤ self.old.room.scratch }
        requires timely { AreTimely self.old.state }
        ensures state { self.new.state ≡ (in_order (wake_parts number) self.old.state).state }
        ensures timely { AreTimely self.new.state }
        ensures room { self.new.room ≡ self.old.room }
        ensures spare { self.new.spare ≡ self.old.spare }
    {
        self.renew(number, LifeChange::Running);
        self.thaw_execs(number);
    }

    // The same, of a paused container.
    fn wake_paused(&mut self, status: Status, number: u64)
        requires room { length self.old.state.execs ≤ self.old.room.scratch }
        requires timely { AreTimely self.old.state }
        ensures state { self.new.state ≡ (woken status number self.old.state).state }
        ensures timely { AreTimely self.new.state }
        ensures room { self.new.room ≡ self.old.room }
        ensures spare { self.new.spare ≡ self.old.spare }
    {
        if is_paused(status) {
            self.wake(number);
        }
    }

    // The container's main process goes on.
    fn thaw_main(&mut self, number: u64, brought: EndMemory) -> Option<u8>
        requires timely { AreTimely self.old.state }
        requires end { CanEndBy (step_process thaw (owners.Owner.Container number)) number brought
            self.old.room self.old.state }
        requires spare { 0 < self.old.spare }
        ensures state { self.new.state
            ≡ (step_process thaw (owners.Owner.Container number) self.old.state).state }
        ensures died { died_of number result
            ≡ (step_process thaw (owners.Owner.Container number) self.old.state).died }
        ensures room { self.new.room ≡ self.old.room }
    {
        let effect = self.thaw_process(Owner::Container(number));
        self.main_effect(effect, number, brought)
    }

    /// The end of a pause; the code of the main process, if what waited for it ended it.
    pub fn thaw_container(&mut self, number: u64, brought: EndMemory) -> Option<u8>
        requires timely { AreTimely self.old.state }
        requires room { length self.old.state.execs ≤ self.old.room.scratch }
        requires end { CanEndBy (thaw_container number) number brought self.old.room
            self.old.state }
        requires spare { 0 < self.old.spare }
        ensures state { self.new.state ≡ (thaw_container number self.old.state).state }
        ensures died { died_of number result ≡ (thaw_container number self.old.state).died }
        ensures room { self.new.room ≡ self.old.room }
    {
        self.wake(number);
        self.thaw_main(number, brought)
    }

    /// The signal is met, by a frozen process with a thaw.
    pub fn meet_signal(&mut self, sent: Signal, number: u64, brought: EndMemory) -> Option<u8>
        requires signal { sent.number < 32 }
        requires timely { AreTimely self.old.state }
        requires room { length self.old.state.execs ≤ self.old.room.scratch }
        requires end { CanEndBy (meet_signal sent.number number) number brought self.old.room
            self.old.state }
        requires spare { 0 < self.old.spare }
        ensures state { self.new.state ≡ (meet_signal sent.number number self.old.state).state }
        ensures died { died_of number result
            ≡ (meet_signal sent.number number self.old.state).died }
        ensures room { self.new.room ≡ self.old.room }
    {
        let Some(h) = self.numbered(number) else {
            return None;
        };
        let status = h.container.life.status;
        self.wake_paused(status, number);
        self.send(sent, true, number, brought)
    }
}
