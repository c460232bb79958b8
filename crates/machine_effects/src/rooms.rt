// Room for the next op of a process, and for what may follow it.
ghost use Rattle.std.specs.Prelude.{◌≡◌, ℕ, ◌<◌, ◌≤◌, OnOk};
ghost use Rattle.machine_events.specs.Ops.{HasEndRoom, HasEndRoomOf, HasOpRoom, HasRecordRoom};

use crate::tables::Tables;
use engine_text::{NoMemory, Owner};
use std::alloc::Global;

impl Tables {
    // Room for what the end of a main process makes longer.
    fn reserve_end(&mut self) -> Result<(), NoMemory>
        ensures state { self.new.state ≡ self.old.state }
        ensures room { OnOk result (HasEndRoom self.new) }
        ensures moments { self.new.room.moments ≡ self.old.room.moments }
    {
        if self.scratch.reserve(self.execs.len()).is_err() {
            return Err(NoMemory);
        }
        self.table.reserve_timers(1)?;
        self.removals.reserve()
    }

    // Room for what the end of the owner's process makes longer.
    fn reserve_end_of(&mut self, owner: Owner) -> Result<(), NoMemory>
        ensures state { self.new.state ≡ self.old.state }
        ensures room { OnOk result (HasEndRoomOf owner self.new) }
        ensures moments { self.new.room.moments ≡ self.old.room.moments }
    {
        match owner {
            Owner::Container(_) => self.reserve_end(),
            Owner::Exec(_) => Ok(()),
        }
    }

    // Room for one more record of what the owner's process writes.
    fn reserve_record(&mut self, alloc: Global, owner: Owner) -> Result<(), NoMemory>
        ensures state { self.new.state ≡ self.old.state }
        ensures kept { OnOk result (HasRecordRoom owner self.new) }
        ensures room { self.new.room ≡ self.old.room }
    {
        match owner {
            Owner::Container(number) => self.table.reserve_record(number),
            Owner::Exec(number) => self.execs.reserve_record(alloc, number),
        }
    }

    /// Makes room for the next op of the owner's process, and for what may follow it.
    pub fn make_op_room(&mut self, alloc: Global, owner: Owner) -> Result<(), NoMemory>
        ensures state { self.new.state ≡ self.old.state }
        ensures room { OnOk result (HasOpRoom owner self.new) }
        ensures moments { self.new.room.moments ≡ self.old.room.moments }
    {
        self.reserve_end_of(owner)?;
        self.reserve_record(alloc, owner)?;
        let length = self.processes.kernel().record_length(owner);
        self.processes.reserve(alloc, 2, length)
    }
}
