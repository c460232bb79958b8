// The events of the end of a main process, made before it: of its execs, and of the container.
ghost use Rattle.std.specs.Prelude.{◌≡◌, ◌++◌, OnOk};
ghost use Rattle.machine_model.specs.Step.{at_moment};
ghost use Rattle.machine_events.specs.Foretold.{ending_as, running_numbers, told_code, told_end};
ghost use Rattle.container_table.specs.Logs.{container_in};

use crate::tables::Tables;
use container_table::Held;
use engine_text::{Action, Event, NoMemory, Script};
use machine_events::{Ending, add, die_event, tell_mounts, tell_status};
use std::alloc::Global;

impl Tables {
    /// The end of the main process with that code, these execs of it running then.
    pub(super) fn tell_end(
        &self,
        alloc: Global,
        execs: &[u64],
        code: u8,
        ending: Ending,
        h: &Held,
        script: &Option<Script>,
        moment: u64,
        out: &mut Vec<Event>,
    ) -> Result<(), NoMemory>
        ensures { OnOk result (out.new.items ≡ out.old.items
            ++ told_end execs.now code (ending_as ending (container_in h.now)) script.now
            (at_moment moment self.now.state)) }
    {
        self.tell_numbers(alloc, execs, moment, out)?;
        let event = die_event(alloc, code, &h.container, moment)?;
        add(out, event)?;
        tell_mounts(alloc, Action::Unmount, h, moment, out)?;
        tell_status(alloc, ending, code, script, h, moment, out)
    }

    // Its end, those execs running that run now.
    fn tell_end_now(
        &self,
        alloc: Global,
        code: u8,
        ending: Ending,
        h: &Held,
        script: &Option<Script>,
        moment: u64,
        out: &mut Vec<Event>,
    ) -> Result<(), NoMemory>
        ensures { OnOk result (out.new.items ≡ out.old.items
            ++ told_end
            (running_numbers h.now.container.number (at_moment moment self.now.state))
            code (ending_as ending (container_in h.now)) script.now
            (at_moment moment self.now.state)) }
    {
        let running = self.running(alloc, h.container.number)?;
        self.tell_end(
            alloc,
            running.as_slice(),
            code,
            ending,
            h,
            script,
            moment,
            out,
        )
    }

    /// Its end, if it ends.
    pub(super) fn tell_code(
        &self,
        alloc: Global,
        code: Option<u8>,
        ending: Ending,
        h: &Held,
        script: &Option<Script>,
        moment: u64,
        out: &mut Vec<Event>,
    ) -> Result<(), NoMemory>
        ensures { OnOk result (out.new.items ≡ out.old.items
            ++ told_code
            (running_numbers h.now.container.number (at_moment moment self.now.state))
            code (ending_as ending (container_in h.now)) script.now
            (at_moment moment self.now.state)) }
    {
        match code {
            None => Ok(()),
            Some(code) => self.tell_end_now(alloc, code, ending, h, script, moment, out),
        }
    }
}
