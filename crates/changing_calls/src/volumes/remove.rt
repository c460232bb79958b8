// Volume remove: by whether the volume stands, and is used.
ghost use Rattle.std.specs.Prelude.{◌≡◌, [], false, IsSome, IfOk};
ghost use Rattle.machine_model.specs.Calls.Create.{volume_named};
ghost use Rattle.machine_model.specs.Calls.Volumes as spec;
ghost use Rattle.machine_model.specs.Outcome.{done, message_text};
ghost use Rattle.machine_model.specs.Refusals.{volume_in_use};
ghost use Rattle.call_plans.specs.Calls.Volumes.{CanRemoveVolume};
ghost use Rattle.call_plans.specs.Making.{IsAnswer, Makes};

use call_plans::refusals::volume_in_use;
use call_plans::volume_answers::refuse_missing;
use call_plans::{Plan, Prepared, refuse};
use engine_text::{Action, NoMemory, Reply, Text};
use machine_effects::Tables;
use machine_events::{add, volume_event};
use std::alloc::Global;

/// The volume is gone.
pub fn perform(tables: &mut Tables, name: Text)
    requires { CanRemoveVolume name tables.old.state }
    ensures state { tables.new.state ≡ (spec.remove_volume name tables.old.state).state }
    ensures died { [] ≡ (spec.remove_volume name tables.old.state).died }
    ensures room { tables.new.room ≡ tables.old.room }
{
    tables.remove_volume(name.as_str());
}

fn refuse_used(alloc: Global, moment: u64, name: &str) -> Result<Prepared, NoMemory>
    ensures { IfOk result (λ p. IsAnswer moment 409 (message_text (volume_in_use name.now)) p) }
{
    let text = volume_in_use(alloc, name)?;
    refuse(alloc, moment, 409, &text)
}

// Of a volume to which no container refers.
fn prepare_unused(
    tables: &Tables,
    alloc: Global,
    moment: u64,
    name: &str,
) -> Result<Prepared, NoMemory>
    requires stands { IsSome (volume_named name.now tables.now.state) }
    requires unused { spec.is_in_use name.now tables.now.state ≡ false }
    ensures { IfOk result
        (λ p. Makes p moment tables.now.state (done (spec.remove_volume name.now))) }
{
    let own = Text::of(alloc, name)?;
    let mut events = Vec::new(alloc);
    let event = volume_event(alloc, Action::Destroy, &own, moment)?;
    add(&mut events, event)?;
    let body = Text::new(alloc);
    Ok(Prepared {
        moment,
        reply: Reply::Answer { status: 204, body },
        events,
        plan: Plan::VolumeRemove { name: own },
    })
}

// Of a volume that stands.
fn prepare_standing(
    tables: &Tables,
    alloc: Global,
    moment: u64,
    name: &str,
) -> Result<Prepared, NoMemory>
    requires { IsSome (volume_named name.now tables.now.state) }
    ensures { IfOk result (λ p. Makes p moment tables.now.state
        (λ s. spec.unless_in_use (spec.is_in_use name.now s) name.now s)) }
{
    if tables.is_used(name) {
        return refuse_used(alloc, moment, name);
    }
    prepare_unused(tables, alloc, moment, name)
}

/// Makes a removal of a volume ready.
pub fn prepare(
    tables: &Tables,
    alloc: Global,
    moment: u64,
    name: &str,
) -> Result<Prepared, NoMemory>
    ensures { IfOk result
        (λ p. Makes p moment tables.now.state (spec.volume_remove_outcome name.now)) }
{
    match tables.volume(name) {
        Some(_) => prepare_standing(tables, alloc, moment, name),
        None => refuse_missing(alloc, moment, name),
    }
}
