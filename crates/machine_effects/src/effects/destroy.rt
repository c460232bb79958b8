// The removal of a container.
ghost use Rattle.std.specs.Prelude.{◌≡◌, OnOk};
ghost use Rattle.machine_model.specs.Effects.Destroy.{destroy};
ghost use Rattle.machine_events.specs.Fit.{CanRemove};
ghost use Rattle.machine_events.specs.Removing.{HasRemovalRoom};

use crate::tables::Tables;
use engine_text::{KeptLogs, NoMemory, OwnedLog, OwnedLogs, Owner, Removed};
use machine_events::EndMemory;
use machine_tables::RemovalResult;

impl Tables {
    /// Makes room for one removal more, and for what is kept of it.
    pub fn make_removal_room(&mut self) -> Result<(), NoMemory>
        ensures state { self.new.state ≡ self.old.state }
        ensures room { OnOk result (HasRemovalRoom self.new) }
        ensures moments { self.new.room.moments ≡ self.old.room.moments }
    {
        self.removals.reserve()
    }

    /// The container is gone; what is kept of it goes into the lists that are brought.
    pub fn destroy(&mut self, number: u64, brought: EndMemory)
        requires { CanRemove number brought self.old.room self.old.state }
        ensures state { self.new.state ≡ (destroy number self.old.state).state }
        ensures room { self.new.room ≡ self.old.room }
        ensures spare { self.new.spare ≡ self.old.spare }
    {
        let Some(h) = self.table.remove(number) else {
            return;
        };
        let code = h.container.life.code;
        let EndMemory {
            script: _,
            mut logs,
            execs,
        } = brought;
        logs.push_reserved(OwnedLog {
            owner: Owner::Container(number),
            log: h.log.close(),
        });
        self.execs.remove_container(number, &mut logs);
        self.volumes.release(number);
        self.tickets.answer(number, RemovalResult::Gone(code));
        let removed = Removed { number, execs };
        let kept = KeptLogs {
            number,
            logs: OwnedLogs::from_vec(logs),
        };
        self.removals.add(removed, kept);
    }
}
