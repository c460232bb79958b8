// The events of a signal and its event kill, made before it; the container may have another goal then.
ghost use Rattle.std.specs.Prelude.{◌≡◌, ◌++◌, OnOk};
ghost use Rattle.machine_model.specs.Step.{at_moment};
ghost use Rattle.container_table.specs.Logs.{container_in};
ghost use Rattle.machine_events.specs.ToldKill.{aimed, told_kill};

use crate::tables::Tables;
use container_table::Held;
use engine_text::{Event, Goal, NoMemory, Script};
use machine_events::{Ending, add, kill_event};
use std::alloc::Global;

impl Tables {
    /// Event kill, and a signal with a thaw, which ends the main process with that code, if it does;
    /// the goal is what the container has then: by a stop, a restart or a removal that of the call,
    /// and else its own.
    pub fn tell_kill(
        &self,
        alloc: Global,
        signal: u8,
        code: Option<u8>,
        goal: Goal,
        h: &Held,
        script: &Option<Script>,
        moment: u64,
        out: &mut Vec<Event>,
    ) -> Result<(), NoMemory>
        ensures { OnOk result (out.new.items ≡ out.old.items
            ++ told_kill signal code (aimed goal (container_in h.now)) script.now
            (at_moment moment self.now.state)) }
    {
        let event = kill_event(alloc, signal, &h.container, moment)?;
        add(out, event)?;
        self.tell_met(alloc, code, Ending::aimed(goal, h), h, script, moment, out)
    }

    /// A stop deadline: event kill and SIGKILL, with the goal that the container has.
    pub fn tell_deadline(
        &self,
        alloc: Global,
        code: Option<u8>,
        h: &Held,
        script: &Option<Script>,
        moment: u64,
        out: &mut Vec<Event>,
    ) -> Result<(), NoMemory>
        ensures { OnOk result (out.new.items ≡ out.old.items
            ++ told_kill 9 code (container_in h.now) script.now (at_moment moment self.now.state)) }
    {
        let goal = h.container.life.goal;
        self.tell_kill(alloc, 9, code, goal, h, script, moment, out)
    }
}
