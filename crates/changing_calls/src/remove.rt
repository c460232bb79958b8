// Remove: by the container's status.
ghost use Rattle.std.specs.Prelude.{◌≡◌, ◌<◌, ◌^◌, [], Some, None, IfOk};
ghost use Rattle.engine_text.specs.declared.owner.Owner as owners;
ghost use Rattle.engine_text.specs.declared.ticket.Asked as asks;
ghost use Rattle.machine_model.specs.Consistency.{IsConsistent};
ghost use Rattle.machine_model.specs.Effects.Destroy.{destroy};
ghost use Rattle.machine_model.specs.Outcome.{done, message_text};
ghost use Rattle.machine_model.specs.Refusals.{being_removed, running_removal};
ghost use Rattle.machine_model.specs.State.{container_numbered, is_live};
ghost use Rattle.machine_model.specs.Tickets.{begins};
ghost use Rattle.machine_model.specs.Calls.Remove as spec;
ghost use Rattle.machine_events.specs.Fit.{CanRemove};
ghost use Rattle.container_table.specs.Logs.{container_in};
ghost use Rattle.machine_tables.specs.Settled.{deaths};
ghost use Rattle.call_plans.specs.Calls.Remove.{force_effect, give_up_effect};
ghost use Rattle.call_plans.specs.Making.{IsAnswer, Makes};
ghost use Rattle.call_plans.specs.Needs.{CanEndFor};
ghost use Rattle.container_table.specs.declared.life_change.LifeChange as changes;

use call_plans::refusals::{being_removed, running_removal};
use call_plans::{Plan, Prepared, end_memory, refuse};
use container_table::Held;
use engine_text::{Action, Asked, Goal, NoMemory, Owner, Reply, Signal, Status, Text};
use machine_effects::{Tables, death_with};
use machine_events::{EndMemory, add, plain_event};
use machine_tables::Death;
use std::alloc::Global;

/// The container is gone.
pub fn perform(tables: &mut Tables, number: u64, brought: EndMemory)
    requires { CanRemove number brought tables.old.room tables.old.state }
    ensures state { tables.new.state ≡ (destroy number tables.old.state).state }
    ensures died { [] ≡ (destroy number tables.old.state).died }
    ensures room { tables.new.room ≡ tables.old.room }
{
    tables.destroy(number, brought);
}

/// The pending restart is given up, and the container is gone.
pub fn perform_given_up(tables: &mut Tables, number: u64, brought: EndMemory)
    requires { CanRemove number brought tables.old.room tables.old.state }
    ensures state { tables.new.state ≡ (give_up_effect number tables.old.state).state }
    ensures died { [] ≡ (give_up_effect number tables.old.state).died }
    ensures room { tables.new.room ≡ tables.old.room }
{
    tables.cancel_restart(number);
    tables.destroy(number, brought);
}

/// A ticket is given, and the container is to be removed.
pub fn perform_forced(
    tables: &mut Tables,
    conn: u32,
    number: u64,
    brought: EndMemory,
) -> Option<Death>
    requires { CanEndFor conn number asks.Asked.Remove changes.LifeChange.ToRemove None
        (spec.kill_to_remove number) brought tables.old }
    ensures state { tables.new.state ≡ (force_effect conn number tables.old.state).state }
    ensures died { deaths result ≡ (force_effect conn number tables.old.state).died }
    ensures room { tables.new.room ≡ tables.old.room }
{
    tables.begin_ticket(conn, number, Asked::Remove);
    death_with(number, tables.kill_to_remove(number, brought))
}

// Of a container without a process.
fn prepare_gone(tables: &Tables, alloc: Global, moment: u64, h: &Held) -> Result<Prepared, NoMemory>
    requires { container_numbered h.now.container.number tables.now.state
        ≡ Some (container_in h.now) }
    ensures { IfOk result (λ p. Makes p moment tables.now.state
        (done (destroy h.now.container.number))) }
{
    let number = h.container.number;
    let mut events = Vec::new(alloc);
    let event = plain_event(alloc, Action::Destroy, &h.container, moment)?;
    add(&mut events, event)?;
    let body = Text::new(alloc);
    let brought = tables.end_memory(alloc, number, None)?;
    Ok(Prepared {
        moment,
        reply: Reply::Answer { status: 204, body },
        events,
        plan: Plan::Remove { number, brought },
    })
}

// Of one that waits for its restart.
fn prepare_given_up(
    tables: &Tables,
    alloc: Global,
    moment: u64,
    h: &Held,
) -> Result<Prepared, NoMemory>
    requires { container_numbered h.now.container.number tables.now.state
        ≡ Some (container_in h.now) }
    ensures { IfOk result (λ p. Makes p moment tables.now.state
        (done (give_up_effect h.now.container.number))) }
{
    let number = h.container.number;
    let mut events = Vec::new(alloc);
    let event = plain_event(alloc, Action::Destroy, &h.container, moment)?;
    add(&mut events, event)?;
    let body = Text::new(alloc);
    let brought = tables.end_memory(alloc, number, None)?;
    Ok(Prepared {
        moment,
        reply: Reply::Answer { status: 204, body },
        events,
        plan: Plan::RemoveRestarting { number, brought },
    })
}

fn refuse_running(alloc: Global, moment: u64, h: &Held) -> Result<Prepared, NoMemory>
    ensures { IfOk result (λ p.
        IsAnswer moment 409 (message_text (running_removal h.now.container.id)) p) }
{
    let text = running_removal(alloc, h.container.id.as_str())?;
    refuse(alloc, moment, 409, &text)
}

fn refuse_begun(alloc: Global, moment: u64, h: &Held) -> Result<Prepared, NoMemory>
    ensures { IfOk result (λ p.
        IsAnswer moment 409 (message_text (being_removed h.now.container.id)) p) }
{
    let text = being_removed(alloc, h.container.id.as_str())?;
    refuse(alloc, moment, 409, &text)
}

// Its ticket, of a container that runs or is paused.
fn prepare_forced(
    tables: &Tables,
    alloc: Global,
    conn: u32,
    moment: u64,
    h: &Held,
) -> Result<Prepared, NoMemory>
    requires stands { container_numbered h.now.container.number tables.now.state
        ≡ Some (container_in h.now) }
    requires starts { h.now.container.life.starts < 2 ^ 63 }
    requires kept { IsConsistent tables.now.state }
    ensures { IfOk result (λ p. Makes p moment tables.now.state
        (begins conn (container_in h.now) asks.Asked.Remove
        (spec.kill_to_remove h.now.container.number))) }
{
    let number = h.container.number;
    let code = tables.signal_code(number, Signal { number: 9 }, true);
    let brought = end_memory(tables, alloc, code, Goal::Remove, number, h)?;
    let mut events = Vec::new(alloc);
    tables.tell_kill(
        alloc,
        9,
        code,
        Goal::Remove,
        h,
        &brought.script,
        moment,
        &mut events,
    )?;
    let ticket = tables.next_ticket();
    Ok(Prepared {
        moment,
        reply: Reply::Begun { ticket },
        events,
        plan: Plan::RemoveForced {
            conn,
            number,
            brought,
        },
    })
}

// With force a ticket.
fn prepare_running(
    tables: &Tables,
    alloc: Global,
    conn: u32,
    moment: u64,
    h: &Held,
    force: bool,
) -> Result<Prepared, NoMemory>
    requires stands { container_numbered h.now.container.number tables.now.state
        ≡ Some (container_in h.now) }
    requires starts { h.now.container.life.starts < 2 ^ 63 }
    requires kept { IsConsistent tables.now.state }
    ensures { IfOk result (λ p. Makes p moment tables.now.state
        (spec.remove_running force conn (container_in h.now))) }
{
    if force {
        prepare_forced(tables, alloc, conn, moment, h)
    } else {
        refuse_running(alloc, moment, h)
    }
}

// With force the restart is given up.
fn prepare_restarting(
    tables: &Tables,
    alloc: Global,
    moment: u64,
    h: &Held,
    force: bool,
) -> Result<Prepared, NoMemory>
    requires { container_numbered h.now.container.number tables.now.state
        ≡ Some (container_in h.now) }
    ensures { IfOk result (λ p. Makes p moment tables.now.state
        (spec.remove_restarting force (container_in h.now))) }
{
    if force {
        prepare_given_up(tables, alloc, moment, h)
    } else {
        refuse_running(alloc, moment, h)
    }
}

// Only where no process is left.
fn prepare_dead(tables: &Tables, alloc: Global, moment: u64, h: &Held) -> Result<Prepared, NoMemory>
    requires { container_numbered h.now.container.number tables.now.state
        ≡ Some (container_in h.now) }
    ensures { IfOk result (λ p. Makes p moment tables.now.state
        (λ s. spec.remove_dead (is_live (owners.Owner.Container h.now.container.number) s)
        (container_in h.now) s)) }
{
    if tables.stands(Owner::Container(h.container.number)) {
        refuse_begun(alloc, moment, h)
    } else {
        prepare_gone(tables, alloc, moment, h)
    }
}

/// Makes a removal ready.
pub fn prepare(
    tables: &Tables,
    alloc: Global,
    conn: u32,
    moment: u64,
    h: &Held,
    force: bool,
) -> Result<Prepared, NoMemory>
    requires stands { container_numbered h.now.container.number tables.now.state
        ≡ Some (container_in h.now) }
    requires starts { h.now.container.life.starts < 2 ^ 63 }
    requires kept { IsConsistent tables.now.state }
    ensures { IfOk result (λ p. Makes p moment tables.now.state
        (spec.by_status h.now.container.life.status force conn (container_in h.now))) }
{
    match h.container.life.status {
        Status::Created => prepare_gone(tables, alloc, moment, h),
        Status::Running => prepare_running(tables, alloc, conn, moment, h, force),
        Status::Paused => prepare_running(tables, alloc, conn, moment, h, force),
        Status::Restarting => prepare_restarting(tables, alloc, moment, h, force),
        Status::Removing => refuse_begun(alloc, moment, h),
        Status::Exited => prepare_gone(tables, alloc, moment, h),
        Status::Dead => prepare_dead(tables, alloc, moment, h),
    }
}
