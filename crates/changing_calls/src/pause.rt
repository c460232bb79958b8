// Pause: by the container's status.
ghost use Rattle.std.specs.Prelude.{◌≡◌, ◌≤◌, [], length, Some, IfOk};
ghost use Rattle.machine_model.specs.State.{container_numbered};
ghost use Rattle.machine_model.specs.Outcome.{done};
ghost use Rattle.machine_model.specs.Calls.Pause as spec;
ghost use Rattle.container_table.specs.Logs.{container_in};
ghost use Rattle.call_plans.specs.Making.{Makes};

use call_plans::refusals::{already_paused, being_removed, dead, not_running, restarting};
use call_plans::{Plan, Prepared, refuse};
use container_table::Held;
use engine_text::{Action, NoMemory, Reply, Status, Text};
use machine_effects::Tables;
use machine_events::{add, plain_event};
use std::alloc::Global;

/// The container is paused.
pub fn perform(tables: &mut Tables, number: u64)
    requires { length tables.old.state.execs ≤ tables.old.room.scratch }
    ensures state { tables.new.state ≡ (spec.pause number tables.old.state).state }
    ensures died { [] ≡ (spec.pause number tables.old.state).died }
    ensures room { tables.new.room ≡ tables.old.room }
{
    tables.pause(number);
}

// Of a container that runs.
fn prepare_running(
    tables: &Tables,
    alloc: Global,
    moment: u64,
    h: &Held,
) -> Result<Prepared, NoMemory>
    requires { container_numbered h.now.container.number tables.now.state
        ≡ Some (container_in h.now) }
    ensures { IfOk result
        (λ p. Makes p moment tables.now.state (done (spec.pause h.now.container.number))) }
{
    let mut events = Vec::new(alloc);
    let event = plain_event(alloc, Action::Pause, &h.container, moment)?;
    add(&mut events, event)?;
    let number = h.container.number;
    let body = Text::new(alloc);
    Ok(Prepared {
        moment,
        reply: Reply::Answer { status: 204, body },
        events,
        plan: Plan::Pause { number },
    })
}

/// Makes a pause ready.
pub fn prepare(tables: &Tables, alloc: Global, moment: u64, h: &Held) -> Result<Prepared, NoMemory>
    requires { container_numbered h.now.container.number tables.now.state
        ≡ Some (container_in h.now) }
    ensures { IfOk result (λ p. Makes p moment tables.now.state
        (spec.by_status h.now.container.life.status (container_in h.now))) }
{
    let id = h.container.id.as_str();
    match h.container.life.status {
        Status::Created => {
            let text = not_running(alloc, id)?;
            refuse(alloc, moment, 409, &text)
        }
        Status::Running => prepare_running(tables, alloc, moment, h),
        Status::Paused => {
            let text = already_paused(alloc, id)?;
            refuse(alloc, moment, 409, &text)
        }
        Status::Restarting => {
            let text = restarting(alloc, id)?;
            refuse(alloc, moment, 409, &text)
        }
        Status::Removing => {
            let text = being_removed(alloc, id)?;
            refuse(alloc, moment, 409, &text)
        }
        Status::Exited => {
            let text = not_running(alloc, id)?;
            refuse(alloc, moment, 409, &text)
        }
        Status::Dead => {
            let text = dead(alloc, id)?;
            refuse(alloc, moment, 409, &text)
        }
    }
}
