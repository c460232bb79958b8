// A pause of a container.
ghost use Rattle.std.specs.Prelude.{◌≡◌, ◌≤◌, length};
ghost use Rattle.machine_model.specs.Calls.Pause.{freeze_execs, pause};

use crate::tables::Tables;
use container_table::LifeChange;
use engine_text::Owner;

impl Tables {
    /// The processes of the container's running execs are frozen.
    pub fn freeze_execs(&mut self, number: u64)
        requires { length self.old.state.execs ≤ self.old.room.scratch }
        ensures state { self.new.state ≡ (freeze_execs number self.old.state).state }
        ensures room { self.new.room ≡ self.old.room }
        ensures spare { self.new.spare ≡ self.old.spare }
    {
        self.note_running(number);
        for i in 0..self.noted() {
            let exec = self.noted_at(i);
            self.freeze_process(Owner::Exec(exec));
        }
    }

    /// The container is paused.
    pub fn pause(&mut self, number: u64)
        requires { length self.old.state.execs ≤ self.old.room.scratch }
        ensures state { self.new.state ≡ (pause number self.old.state).state }
        ensures room { self.new.room ≡ self.old.room }
        ensures spare { self.new.spare ≡ self.old.spare }
    {
        self.freeze_process(Owner::Container(number));
        self.freeze_execs(number);
        self.renew(number, LifeChange::Paused);
    }
}
