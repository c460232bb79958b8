// The events of a launch and of mounts, made before them.
ghost use Rattle.std.specs.Prelude.{◌≡◌, ◌∷◌, [], ◌++◌, Some, OnOk};
ghost use Rattle.engine_text.specs.declared.container.Goal as goals;
ghost use Rattle.container_table.specs.Logs.{container_in};
ghost use Rattle.machine_events.specs.Foretold.{told_mounts, told_launch, told_goal};

use crate::events::{mount_event, plain_event};
use container_table::Held;
use engine_text::{Action, Event, NoMemory, Script};
use std::alloc::Global;

/// One event more.
pub fn add(out: &mut Vec<Event>, event: Event) -> Result<(), NoMemory>
    ensures { OnOk result (out.new.items ≡ out.old.items ++ event ∷ []) }
{
    match out.push(event) {
        Ok(()) => Ok(()),
        Err(_) => Err(NoMemory),
    }
}

/// An event of each mount.
pub fn tell_mounts(
    alloc: Global,
    action: Action,
    h: &Held,
    moment: u64,
    out: &mut Vec<Event>,
) -> Result<(), NoMemory>
    ensures { OnOk result
        (out.new.items ≡ out.old.items ++ told_mounts action (container_in h.now) moment) }
{
    let mounts = h.container.life.mounts.as_slice();
    for m in mounts {
        let event = mount_event(alloc, action, &m.volume, &h.container, moment)?;
        add(out, event)?;
    }
    Ok(())
}

pub fn tell_launch(
    alloc: Global,
    script: &Option<Script>,
    h: &Held,
    moment: u64,
    out: &mut Vec<Event>,
) -> Result<(), NoMemory>
    ensures { OnOk result
        (out.new.items ≡ out.old.items ++ told_launch script.now (container_in h.now) moment) }
{
    match script {
        None => Ok(()),
        Some(_) => {
            tell_mounts(alloc, Action::Mount, h, moment, out)?;
            let event = plain_event(alloc, Action::Start, &h.container, moment)?;
            add(out, event)
        }
    }
}

pub fn tell_restart(
    alloc: Global,
    script: &Option<Script>,
    h: &Held,
    moment: u64,
    out: &mut Vec<Event>,
) -> Result<(), NoMemory>
    ensures { OnOk result (out.new.items
        ≡ out.old.items ++ told_goal goals.Goal.Restart script.now (container_in h.now) moment) }
{
    let event = plain_event(alloc, Action::Stop, &h.container, moment)?;
    add(out, event)?;
    tell_launch(alloc, script, h, moment, out)?;
    let event = plain_event(alloc, Action::Restart, &h.container, moment)?;
    add(out, event)
}
