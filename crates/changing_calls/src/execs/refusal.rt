// What refuses the call of an exec, by its container's status.
ghost use Rattle.std.specs.Prelude.{◌≡◌, IfOk};
ghost use Rattle.changing_calls.specs.Calls.ExecRefusals.{exec_refusal};

use call_plans::refusals::{being_removed, dead, not_running, paused, restarting};
use container_table::Held;
use engine_text::{NoMemory, Status, Text};
use std::alloc::Global;

/// The text, none where the container runs.
pub fn refusal_of(alloc: Global, h: &Held) -> Result<Option<Text>, NoMemory>
    ensures { IfOk result (λ o. o
        ≡ exec_refusal h.now.container.life.status h.now.container.id) }
{
    let id = h.container.id.as_str();
    match h.container.life.status {
        Status::Created => Ok(Some(not_running(alloc, id)?)),
        Status::Running => Ok(None),
        Status::Paused => Ok(Some(paused(alloc, id)?)),
        Status::Restarting => Ok(Some(restarting(alloc, id)?)),
        Status::Removing => Ok(Some(being_removed(alloc, id)?)),
        Status::Exited => Ok(Some(not_running(alloc, id)?)),
        Status::Dead => Ok(Some(dead(alloc, id)?)),
    }
}
