// The events of a restart of a container that doesn't live, made before it.
ghost use Rattle.std.specs.Prelude.{◌≡◌, ◌++◌, OnOk};
ghost use Rattle.container_table.specs.Logs.{container_in};
ghost use Rattle.machine_events.specs.ToldCalls.{told_again};

use crate::events::plain_event;
use crate::foretell::{add, tell_launch};
use container_table::Held;
use engine_text::{Action, Event, NoMemory, Script};
use std::alloc::Global;

/// A launch, and then event restart.
pub fn tell_again(
    alloc: Global,
    script: &Option<Script>,
    h: &Held,
    moment: u64,
    out: &mut Vec<Event>,
) -> Result<(), NoMemory>
    ensures { OnOk result (out.new.items ≡ out.old.items
        ++ told_again script.now (container_in h.now) moment) }
{
    tell_launch(alloc, script, h, moment, out)?;
    let event = plain_event(alloc, Action::Restart, &h.container, moment)?;
    add(out, event)
}
