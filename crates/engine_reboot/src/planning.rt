// The calls by which a daemon goes on with a written history.
ghost use Rattle.std.specs.Prelude.{◌≡◌, ◌++◌, ◌∷◌, [], IfOk, OnOk};
ghost use Rattle.container_table.specs.Logs.{container_in};
ghost use Rattle.engine_reboot.specs.Planning as spec;

use container_machine::Machine;
use container_table::Held;
use engine_text::{NoMemory, Policy, Status, Text};
use std::alloc::Global;

/// A planned call.
#[derive(Drop)]
pub enum Planned {
    /// A ticket is dropped by its connection.
    Drop { ticket: u64, connection: u32 },
    /// The container with that id is killed.
    Kill(Text),
    /// It is started.
    Start(Text),
}

// Whether a policy brings a container back that may have been stopped by hand.
fn brings_back(policy: Policy, manual: bool) -> bool
    ensures { result ≡ spec.brings_back policy manual }
{
    match policy {
        Policy::Always => true,
        Policy::UnlessStopped => !manual,
        Policy::No => false,
        Policy::OnFailure(_) => false,
    }
}

// Whether a container starts again with its daemon.
fn starts_again(held: &Held) -> bool
    ensures { result ≡ spec.starts_again (container_in held.now) }
{
    let life = &held.container.life;
    life.starts > 0 && brings_back(life.policy, life.manual)
}

// Whether a container of that status runs or is paused.
fn is_up(status: Status) -> bool
    ensures { result ≡ spec.is_up status }
{
    match status {
        Status::Running => true,
        Status::Paused => true,
        Status::Created => false,
        Status::Restarting => false,
        Status::Removing => false,
        Status::Exited => false,
        Status::Dead => false,
    }
}

// A planned call more.
fn add(plan: &mut Vec<Planned>, planned: Planned) -> Result<(), NoMemory>
    ensures { OnOk result (plan.new.items ≡ plan.old.items ++ planned ∷ []) }
{
    match plan.push(planned) {
        Ok(()) => Ok(()),
        Err(_) => Err(NoMemory),
    }
}

// The kill of a container, if it is up.
fn add_kill(alloc: Global, held: &Held, plan: &mut Vec<Planned>) -> Result<(), NoMemory>
    ensures { OnOk result
        (plan.new.items ≡ plan.old.items ++ spec.kills (container_in held.now ∷ [])) }
{
    if !is_up(held.container.life.status) {
        return Ok(());
    }
    let id = held.container.id.copy(alloc)?;
    add(plan, Planned::Kill(id))
}

// The start of a container, if it starts again.
fn add_start(alloc: Global, held: &Held, plan: &mut Vec<Planned>) -> Result<(), NoMemory>
    ensures { OnOk result
        (plan.new.items ≡ plan.old.items ++ spec.starts (container_in held.now ∷ [])) }
{
    if !starts_again(held) {
        return Ok(());
    }
    let id = held.container.id.copy(alloc)?;
    add(plan, Planned::Start(id))
}

// The drops of the tickets that stand.
fn add_drops(machine: &Machine, plan: &mut Vec<Planned>) -> Result<(), NoMemory>
    ensures { OnOk result
        (plan.new.items ≡ plan.old.items ++ spec.drops machine.now.memory.state.tickets) }
{
    'tickets: for (ticket, connection) in machine.tickets() {
        add(plan, Planned::Drop { ticket, connection })?;
    }
    Ok(())
}

// The kills of what is up.
fn add_kills(alloc: Global, machine: &Machine, plan: &mut Vec<Planned>) -> Result<(), NoMemory>
    ensures { OnOk result
        (plan.new.items ≡ plan.old.items ++ spec.kills machine.now.memory.state.containers) }
{
    'containers: for held in machine.containers() {
        add_kill(alloc, held, plan)?;
    }
    Ok(())
}

// The starts of what starts again.
fn add_starts(alloc: Global, machine: &Machine, plan: &mut Vec<Planned>) -> Result<(), NoMemory>
    ensures { OnOk result
        (plan.new.items ≡ plan.old.items ++ spec.starts machine.now.memory.state.containers) }
{
    'containers: for held in machine.containers() {
        add_start(alloc, held, plan)?;
    }
    Ok(())
}

/// The plan, read off the machine behind the written history.
pub fn plan(alloc: Global, machine: &Machine) -> Result<Vec<Planned>, NoMemory>
    ensures { IfOk result (λ plan. plan.items ≡ spec.reboot_plan machine.now.memory.state) }
{
    let mut plan = Vec::new(alloc);
    add_drops(machine, &mut plan)?;
    add_kills(alloc, machine, &mut plan)?;
    add_starts(alloc, machine, &mut plan)?;
    Ok(plan)
}
