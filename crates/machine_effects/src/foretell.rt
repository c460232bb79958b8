// The events of the ends of execs, made before them.
ghost use Rattle.std.specs.Prelude.{◌≡◌, ◌++◌, Some, OnOk};
ghost use Rattle.std.specs.List.{flat_map};
ghost use Rattle.machine_model.specs.Step.{at_moment};
ghost use Rattle.machine_events.specs.Foretold.{told_exec, told_number};
ghost use Rattle.machine_model.specs.State.{exec_numbered};

use crate::tables::Tables;
use engine_text::{Event, NoMemory};
use machine_events::{add, exec_die_event};
use std::alloc::Global;

impl Tables {
    // The end of that exec with that code, if it and its container stand.
    pub(super) fn tell_exec(
        &self,
        alloc: Global,
        code: u8,
        number: u64,
        moment: u64,
        out: &mut Vec<Event>,
    ) -> Result<(), NoMemory>
        ensures { OnOk result (out.new.items ≡ out.old.items
            ++ told_exec code (exec_numbered number (at_moment moment self.now.state))
            (at_moment moment self.now.state)) }
    {
        let Some(x) = self.exec(number) else {
            return Ok(());
        };
        let Some(h) = self.numbered(x.container) else {
            return Ok(());
        };
        let event = exec_die_event(alloc, &x.id, code, &h.container, moment)?;
        add(out, event)
    }

    /// The ends of these execs.
    pub(super) fn tell_numbers(
        &self,
        alloc: Global,
        numbers: &[u64],
        moment: u64,
        out: &mut Vec<Event>,
    ) -> Result<(), NoMemory>
        ensures { OnOk result (out.new.items ≡ out.old.items
            ++ flat_map (told_number (at_moment moment self.now.state)) numbers.now) }
    {
        for n in numbers {
            self.tell_exec(alloc, 137, *n, moment, out)?;
        }
        Ok(())
    }
}
