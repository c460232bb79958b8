// A new exec, with its output.
ghost use Rattle.std.specs.Prelude.{◌≡◌, OnOk, find, option_copied};
ghost use Rattle.engine_text.specs.Texts.{same_bytes};
ghost use Rattle.machine_model.specs.Calls.ExecCreate.{with_exec};
ghost use Rattle.machine_events.specs.NewExecs.{CanAddExec, HasExecRoom};

use crate::tables::Tables;
use engine_text::{Exec, NoMemory};
use std::alloc::Global;

impl Tables {
    /// The exec with that full id.
    pub fn exec_with_id(&self, id: &str) -> Option<&Exec>
        ensures { option_copied result ≡ find (λ x. same_bytes x.id id.now) self.now.state.execs }
    {
        self.execs.find(id)
    }

    /// Makes room for an exec more.
    pub fn make_exec_room(&mut self, alloc: Global) -> Result<(), NoMemory>
        ensures state { self.new.state ≡ self.old.state }
        ensures room { OnOk result (HasExecRoom self.new) }
        ensures moments { self.new.room.moments ≡ self.old.room.moments }
    {
        self.execs.reserve(alloc, 1)
    }

    /// The exec stands, with its output.
    pub fn add_exec(&mut self, exec: Exec)
        requires { CanAddExec exec self.old }
        ensures state { self.new.state ≡ with_exec exec self.old.state }
        ensures room { self.new.room ≡ self.old.room }
    {
        self.execs.create(exec);
        self.next_number += 1;
    }
}
