// Which execs of a container run, noted in the tables.
ghost use Rattle.std.specs.Prelude.{◌≡◌, ◌<◌, ◌≤◌, length, map, slice_index};
ghost use Rattle.machine_model.specs.Consistency.{is_there};
ghost use Rattle.machine_model.specs.Effects.EndMain.{exec_ended};
ghost use Rattle.machine_model.specs.State.{exec_numbered, running_execs, change_exec};

use crate::tables::Tables;
use machine_events::exec_lists::list_running;

impl Tables {
    pub(super) fn has_exec(&self, number: u64) -> bool
        ensures { result ≡ is_there (exec_numbered number self.now.state) }
    {
        match self.execs.find_number(number) {
            None => false,
            Some(_) => true,
        }
    }

    // The exec has ended with that code.
    pub(super) fn end_row(&mut self, code: u8, number: u64)
        ensures state { self.new.state ≡ change_exec number (exec_ended code) self.old.state }
        ensures room { self.new.room ≡ self.old.room }
        ensures spare { self.new.spare ≡ self.old.spare }
        ensures scratch { self.new.scratch ≡ self.old.scratch }
    {
        self.execs.ended(number, code);
    }

    // Notes which of the container's execs run.
    pub(super) fn note_running(&mut self, number: u64)
        requires { length self.old.state.execs ≤ self.old.room.scratch }
        ensures state { self.new.state ≡ self.old.state }
        ensures room { self.new.room ≡ self.old.room }
        ensures spare { self.new.spare ≡ self.old.spare }
        ensures scratch { self.new.scratch
            ≡ map (λ x. x.number) (running_execs number self.old.state) }
    {
        let kernel = self.processes.kernel();
        list_running(&self.execs, kernel, number, &mut self.scratch);
    }

    pub(super) fn noted(&self) -> usize
        ensures { result ≡ length self.now.scratch }
    {
        self.scratch.len()
    }

    pub(super) fn noted_at(&self, place: usize) -> u64
        requires { place < length self.now.scratch }
        ensures { result ≡ slice_index self.now.scratch place }
    {
        self.scratch[place]
    }
}
