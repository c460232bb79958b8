// The events of new volumes, made before them.
ghost use Rattle.std.specs.Prelude.{◌≡◌, ◌++◌, OnOk};
ghost use Rattle.machine_events.specs.NewVolumes.{told_volumes};

use crate::events::volume_event;
use crate::foretell::add;
use engine_text::{Action, Event, NoMemory, Volume};
use std::alloc::Global;

/// An event create of each of these.
pub fn tell_volumes(
    alloc: Global,
    volumes: &[Volume],
    moment: u64,
    out: &mut Vec<Event>,
) -> Result<(), NoMemory>
    ensures { OnOk result (out.new.items ≡ out.old.items ++ told_volumes volumes.now moment) }
{
    for v in volumes {
        let event = volume_event(alloc, Action::Create, &v.name, moment)?;
        add(out, event)?;
    }
    Ok(())
}
