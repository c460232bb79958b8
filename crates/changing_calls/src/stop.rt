// Stop: by the container's status.
ghost use Rattle.std.specs.Prelude.{◌≡◌, ◌<◌, ◌^◌, [], Some, IfOk, IfSome};
ghost use Rattle.machine_model.specs.Consistency.{IsConsistent};
ghost use Rattle.machine_model.specs.Outcome.{done};
ghost use Rattle.machine_model.specs.State.{container_numbered};
ghost use Rattle.machine_model.specs.Calls.Stop as spec;
ghost use Rattle.container_table.specs.Logs.{container_in};
ghost use Rattle.call_plans.specs.Calls.Stop.{stop_restarting_effect};
ghost use Rattle.call_plans.specs.Making.{Makes};

use crate::halts;
use call_plans::refusals::being_removed;
use call_plans::{Plan, Prepared, answer, refuse};
use container_table::Held;
use engine_text::{Action, NoMemory, Reply, Signal, Status, Text};
use machine_effects::Tables;
use machine_events::{Halting, add, plain_event};
use std::alloc::Global;

/// The pending restart is given up.
pub fn perform_restarting(tables: &mut Tables, number: u64)
    ensures state { tables.new.state ≡ (stop_restarting_effect number tables.old.state).state }
    ensures died { [] ≡ (stop_restarting_effect number tables.old.state).died }
    ensures room { tables.new.room ≡ tables.old.room }
{
    tables.cancel_restart(number);
}

// Of a container that waits for its restart.
fn prepare_restarting(
    tables: &Tables,
    alloc: Global,
    moment: u64,
    h: &Held,
) -> Result<Prepared, NoMemory>
    requires { container_numbered h.now.container.number tables.now.state
        ≡ Some (container_in h.now) }
    ensures { IfOk result (λ p. Makes p moment tables.now.state
        (done (stop_restarting_effect h.now.container.number))) }
{
    let mut events = Vec::new(alloc);
    let event = plain_event(alloc, Action::Stop, &h.container, moment)?;
    add(&mut events, event)?;
    let number = h.container.number;
    let body = Text::new(alloc);
    Ok(Prepared {
        moment,
        reply: Reply::Answer { status: 204, body },
        events,
        plan: Plan::StopRestarting { number },
    })
}

/// Makes a stop ready.
pub fn prepare(
    tables: &Tables,
    alloc: Global,
    conn: u32,
    moment: u64,
    h: &Held,
    wait: Option<i32>,
    signal: Option<Signal>,
) -> Result<Prepared, NoMemory>
    requires signal { IfSome signal (λ s. s.number < 32) }
    requires stands { container_numbered h.now.container.number tables.now.state
        ≡ Some (container_in h.now) }
    requires starts { h.now.container.life.starts < 2 ^ 63 }
    requires kept { IsConsistent tables.now.state }
    ensures { IfOk result (λ p. Makes p moment tables.now.state
        (spec.by_status h.now.container.life.status conn wait signal (container_in h.now))) }
{
    let stop = Halting::Stop;
    match h.container.life.status {
        Status::Created => Ok(answer(alloc, moment, 304, Text::new(alloc))),
        Status::Running => halts::prepare(tables, alloc, conn, moment, h, stop, wait, signal),
        Status::Paused => halts::prepare(tables, alloc, conn, moment, h, stop, wait, signal),
        Status::Restarting => prepare_restarting(tables, alloc, moment, h),
        Status::Removing => {
            let text = being_removed(alloc, h.container.id.as_str())?;
            refuse(alloc, moment, 409, &text)
        }
        Status::Exited => Ok(answer(alloc, moment, 304, Text::new(alloc))),
        Status::Dead => Ok(answer(alloc, moment, 304, Text::new(alloc))),
    }
}
