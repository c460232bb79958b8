// Kill: by the container's status.
ghost use Rattle.std.specs.Prelude.{◌≡◌, ◌<◌, ◌^◌, Some, IfOk};
ghost use Rattle.machine_model.specs.State.{container_numbered};
ghost use Rattle.machine_model.specs.Calls.Kill as spec;
ghost use Rattle.container_table.specs.Logs.{container_in};
ghost use Rattle.machine_model.specs.Consistency.{IsConsistent};
ghost use Rattle.call_plans.specs.Making.{Makes};
ghost use Rattle.call_plans.specs.Calls.Kill.{kill_effect, kill_restarting_effect};
ghost use Rattle.call_plans.specs.Needs.{CanEndRun};
ghost use Rattle.machine_tables.specs.Settled.{deaths};

use call_plans::refusals::{being_removed, dead, not_running, restarting};
use call_plans::{Plan, Prepared, end_memory, refuse};
use container_table::Held;
use engine_text::{NoMemory, Reply, Signal, Status, Text};
use machine_effects::{Tables, death_with};
use machine_events::{EndMemory, add, kill_event};
use machine_tables::Death;
use std::alloc::Global;

/// The signal is delivered to a container that runs or is paused.
pub fn perform(
    tables: &mut Tables,
    number: u64,
    sent: Signal,
    last: bool,
    brought: EndMemory,
) -> Option<Death>
    requires { CanEndRun number (Some sent.number) (spec.deliver last sent.number number) brought
        tables.old }
    ensures state { tables.new.state ≡ (kill_effect number sent last tables.old.state).state }
    ensures died { deaths result ≡ (kill_effect number sent last tables.old.state).died }
    ensures room { tables.new.room ≡ tables.old.room }
{
    death_with(number, tables.deliver(last, sent, number, brought))
}

/// The pending restart is given up.
pub fn perform_restarting(tables: &mut Tables, number: u64, sent: Signal)
    ensures state { tables.new.state ≡ (kill_restarting_effect number sent tables.old.state).state }
    ensures room { tables.new.room ≡ tables.old.room }
{
    tables.cancel_restart(number);
}

fn is_final(sent: Signal, h: &Held) -> bool
    ensures { result ≡ spec.is_final sent (container_in h.now) }
{
    sent.number == 9 || sent.number == h.container.life.stop_signal.number
}

// Of a container that runs or is paused.
fn prepare_running(
    tables: &Tables,
    alloc: Global,
    moment: u64,
    h: &Held,
    sent: Signal,
) -> Result<Prepared, NoMemory>
    requires signal { sent.number < 32 }
    requires stands { container_numbered h.now.container.number tables.now.state
        ≡ Some (container_in h.now) }
    requires starts { h.now.container.life.starts < 2 ^ 63 }
    requires kept { IsConsistent tables.now.state }
    ensures { IfOk result
        (λ p. Makes p moment tables.now.state (spec.kill_running sent (container_in h.now))) }
{
    let number = h.container.number;
    let last = is_final(sent, h);
    let code = tables.signal_code(number, sent, last);
    let brought = end_memory(tables, alloc, code, h.container.life.goal, number, h)?;
    let mut events = Vec::new(alloc);
    let event = kill_event(alloc, sent.number, &h.container, moment)?;
    add(&mut events, event)?;
    tables.tell_delivered(alloc, last, code, h, &brought.script, moment, &mut events)?;
    let body = Text::new(alloc);
    Ok(Prepared {
        moment,
        reply: Reply::Answer { status: 204, body },
        events,
        plan: Plan::Kill {
            number,
            sent,
            last,
            brought,
        },
    })
}

// Of a container that waits for its restart.
fn prepare_restarting(
    tables: &Tables,
    alloc: Global,
    moment: u64,
    h: &Held,
    sent: Signal,
) -> Result<Prepared, NoMemory>
    requires { container_numbered h.now.container.number tables.now.state
        ≡ Some (container_in h.now) }
    ensures { IfOk result (λ p. Makes p moment tables.now.state
        (spec.kill_restarting (spec.is_final sent (container_in h.now)) sent
        (container_in h.now))) }
{
    if !is_final(sent, h) {
        let text = restarting(alloc, h.container.id.as_str())?;
        return refuse(alloc, moment, 409, &text);
    }
    let number = h.container.number;
    let mut events = Vec::new(alloc);
    let event = kill_event(alloc, sent.number, &h.container, moment)?;
    add(&mut events, event)?;
    let body = Text::new(alloc);
    Ok(Prepared {
        moment,
        reply: Reply::Answer { status: 204, body },
        events,
        plan: Plan::KillRestarting { number, sent },
    })
}

/// Makes a kill ready.
pub fn prepare(
    tables: &Tables,
    alloc: Global,
    moment: u64,
    h: &Held,
    sent: Signal,
) -> Result<Prepared, NoMemory>
    requires signal { sent.number < 32 }
    requires stands { container_numbered h.now.container.number tables.now.state
        ≡ Some (container_in h.now) }
    requires starts { h.now.container.life.starts < 2 ^ 63 }
    requires kept { IsConsistent tables.now.state }
    ensures { IfOk result (λ p. Makes p moment tables.now.state
        (spec.by_status h.now.container.life.status sent (container_in h.now))) }
{
    let id = h.container.id.as_str();
    match h.container.life.status {
        Status::Created => {
            let text = not_running(alloc, id)?;
            refuse(alloc, moment, 409, &text)
        }
        Status::Running => prepare_running(tables, alloc, moment, h, sent),
        Status::Paused => prepare_running(tables, alloc, moment, h, sent),
        Status::Restarting => prepare_restarting(tables, alloc, moment, h, sent),
        Status::Removing => {
            let text = being_removed(alloc, id)?;
            refuse(alloc, moment, 409, &text)
        }
        Status::Exited => {
            let text = not_running(alloc, id)?;
            refuse(alloc, moment, 409, &text)
        }
        Status::Dead => {
            let text = dead(alloc, id)?;
            refuse(alloc, moment, 409, &text)
        }
    }
}
