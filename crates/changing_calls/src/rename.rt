// Rename: by the container's status, and then by who has the name.
ghost use Rattle.std.specs.Prelude.{◌≡◌, [], Some, None, IfOk};
ghost use Rattle.engine_text.specs.Texts.{same_bytes};
ghost use Rattle.machine_model.specs.Names.{holder};
ghost use Rattle.machine_model.specs.Outcome.{done};
ghost use Rattle.machine_model.specs.State.{container_numbered};
ghost use Rattle.machine_model.specs.Calls.Rename as spec;
ghost use Rattle.container_table.specs.Logs.{container_in};
ghost use Rattle.call_plans.specs.Calls.Rename.{rename_effect};
ghost use Rattle.call_plans.specs.Making.{Makes};

use call_plans::refusals::{being_removed, dead, name_conflict, same_name};
use call_plans::{Plan, Prepared, refuse};
use container_table::Held;
use engine_text::{NoMemory, Reply, Status, Text, without_slash};
use machine_effects::Tables;
use machine_events::{add, rename_event};
use std::alloc::Global;

/// The container has that name.
pub fn perform(tables: &mut Tables, number: u64, name: Text)
    requires { holder name tables.old.state.containers ≡ None }
    ensures state { tables.new.state ≡ (rename_effect number name tables.old.state).state }
    ensures died { [] ≡ (rename_effect number name tables.old.state).died }
    ensures room { tables.new.room ≡ tables.old.room }
{
    tables.rename(number, name);
}

// With a name that nobody has.
fn prepare_free(
    tables: &Tables,
    alloc: Global,
    moment: u64,
    h: &Held,
    name: Text,
) -> Result<Prepared, NoMemory>
    requires stands { container_numbered h.now.container.number tables.now.state
        ≡ Some (container_in h.now) }
    requires free { holder name tables.now.state.containers ≡ None }
    ensures { IfOk result (λ p. Makes p moment tables.now.state
        (done (spec.rename name (container_in h.now)))) }
{
    let number = h.container.number;
    let mut events = Vec::new(alloc);
    let event = rename_event(alloc, &h.container, name.as_str(), moment)?;
    add(&mut events, event)?;
    let body = Text::new(alloc);
    Ok(Prepared {
        moment,
        reply: Reply::Answer { status: 204, body },
        events,
        plan: Plan::Rename { number, name },
    })
}

// With a name that may be taken.
fn prepare_named(
    tables: &Tables,
    alloc: Global,
    moment: u64,
    h: &Held,
    name: Text,
) -> Result<Prepared, NoMemory>
    requires { container_numbered h.now.container.number tables.now.state
        ≡ Some (container_in h.now) }
    ensures { IfOk result (λ p. Makes p moment tables.now.state
        (λ s. spec.by_holder (holder name s.containers) name (container_in h.now) s)) }
{
    match tables.holder(name.as_str()) {
        Some(other) => {
            let text = name_conflict(alloc, name.as_str(), other.container.id.as_str())?;
            refuse(alloc, moment, 409, &text)
        }
        None => prepare_free(tables, alloc, moment, h, name),
    }
}

fn is_own(name: &str, h: &Held) -> bool
    ensures { result ≡ same_bytes name.now h.now.container.name }
{
    name == h.container.name.as_str()
}

// Of a container that isn't on its way out.
fn prepare_standing(
    tables: &Tables,
    alloc: Global,
    moment: u64,
    h: &Held,
    name: &str,
) -> Result<Prepared, NoMemory>
    requires { container_numbered h.now.container.number tables.now.state
        ≡ Some (container_in h.now) }
    ensures { IfOk result (λ p. Makes p moment tables.now.state
        (spec.rename_standing name.now (container_in h.now))) }
{
    if is_own(name, h) {
        let text = same_name(alloc)?;
        return refuse(alloc, moment, 400, &text);
    }
    let name = Text::of(alloc, name)?;
    prepare_named(tables, alloc, moment, h, name)
}

fn prepare_by_status(
    tables: &Tables,
    alloc: Global,
    moment: u64,
    h: &Held,
    name: &str,
) -> Result<Prepared, NoMemory>
    requires { container_numbered h.now.container.number tables.now.state
        ≡ Some (container_in h.now) }
    ensures { IfOk result (λ p. Makes p moment tables.now.state
        (spec.by_status h.now.container.life.status name.now (container_in h.now))) }
{
    match h.container.life.status {
        Status::Created | Status::Running | Status::Paused | Status::Restarting | Status::Exited =>
            prepare_standing(tables, alloc, moment, h, name),
        Status::Removing => {
            let text = being_removed(alloc, h.container.id.as_str())?;
            refuse(alloc, moment, 409, &text)
        }
        Status::Dead => {
            let text = dead(alloc, h.container.id.as_str())?;
            refuse(alloc, moment, 409, &text)
        }
    }
}

/// Makes a rename ready; the new name may have a slash before it.
pub fn prepare(
    tables: &Tables,
    alloc: Global,
    moment: u64,
    h: &Held,
    name: &str,
) -> Result<Prepared, NoMemory>
    requires { container_numbered h.now.container.number tables.now.state
        ≡ Some (container_in h.now) }
    ensures { IfOk result (λ p. Makes p moment tables.now.state
        (spec.rename_outcome name.now (container_in h.now))) }
{
    prepare_by_status(tables, alloc, moment, h, without_slash(name))
}
