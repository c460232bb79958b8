// The end of a process that goes on, and the events of a process's op, made before it.
ghost use Rattle.std.specs.Prelude.{◌≡◌, ℕ, ◌++◌, OnOk};
ghost use Rattle.engine_text.specs.declared.owner.Owner as owners;
ghost use Rattle.proc_kernel.specs.Foretelling.{code_at};
ghost use Rattle.proc_kernel.specs.Processes.{run_due, thaw};
ghost use Rattle.proc_kernel.specs.Tables.{process_of};
ghost use Rattle.machine_model.specs.State.{container_numbered};
ghost use Rattle.machine_model.specs.Step.{at_moment};
ghost use Rattle.machine_events.specs.ToldCalls.{told_main, told_op};

use crate::tables::Tables;
use engine_text::{Event, NoMemory, Owner, Script};
use machine_events::Ending;
use std::alloc::Global;

impl Tables {
    /// The code with which the container's main process ends once it goes on, if it does.
    pub fn woken_code(&self, number: u64) -> Option<u8>
        ensures { (t : ℕ) → result ≡ code_at (thaw t)
            (process_of (owners.Owner.Container number) self.now.state.processes) }
    {
        self.processes.kernel().thaw_code(Owner::Container(number))
    }

    /// The code with which the next op of the owner's process ends it, if it does.
    pub fn due_code(&self, owner: Owner) -> Option<u8>
        ensures { (t : ℕ) → result ≡ code_at (run_due t)
            (process_of owner self.now.state.processes) }
    {
        self.processes.kernel().due_code(owner)
    }

    // The end of the container's main process with that code, if it ends.
    fn tell_main(
        &self,
        alloc: Global,
        code: Option<u8>,
        number: u64,
        script: &Option<Script>,
        moment: u64,
        out: &mut Vec<Event>,
    ) -> Result<(), NoMemory>
        ensures { OnOk result (out.new.items ≡ out.old.items
            ++ told_main (container_numbered number self.now.state) code script.now
            (at_moment moment self.now.state)) }
    {
        let Some(h) = self.numbered(number) else {
            return Ok(());
        };
        self.tell_code(alloc, code, Ending::of(h), h, script, moment, out)
    }

    /// The next op of the owner's process, which ends it with that code, if it does.
    pub fn tell_op(
        &self,
        alloc: Global,
        owner: Owner,
        code: Option<u8>,
        script: &Option<Script>,
        moment: u64,
        out: &mut Vec<Event>,
    ) -> Result<(), NoMemory>
        ensures { OnOk result (out.new.items ≡ out.old.items
            ++ told_op owner code script.now (at_moment moment self.now.state)) }
    {
        match owner {
            Owner::Container(number) => self.tell_main(alloc, code, number, script, moment, out),
            Owner::Exec(number) => self.tell_thaw(alloc, code, number, moment, out),
        }
    }
}
