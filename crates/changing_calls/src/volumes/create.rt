// Volume create: a name that stands keeps its volume.
ghost use Rattle.std.specs.Prelude.{◌≡◌, ◌<◌, ◌≤◌, [], length, None, IfOk};
ghost use Rattle.machine_model.specs.Calls.Create.{make_volume, new_volume, volume_named};
ghost use Rattle.machine_model.specs.Calls.Volumes as spec;
ghost use Rattle.machine_model.specs.Consistency.{IsConsistent};
ghost use Rattle.machine_model.specs.Views.{volume_body};
ghost use Rattle.call_plans.specs.Calls.Volumes.{CanMakeVolume};
ghost use Rattle.call_plans.specs.Making.{Makes};

use api_json::{VolumeView, volume_body};
use call_plans::volume_answers::show;
use call_plans::{Plan, Prepared};
use engine_text::{Action, NoMemory, Pairs, Reply, Text};
use machine_effects::Tables;
use machine_events::{add, volume_event};
use machine_model::GREATEST_MOMENT;
use std::alloc::Global;

/// The volume stands.
pub fn perform(tables: &mut Tables, name: Text, labels: Pairs)
    requires { CanMakeVolume name tables.old }
    ensures state { tables.new.state ≡ (make_volume name labels tables.old.state).state }
    ensures died { [] ≡ (make_volume name labels tables.old.state).died }
    ensures room { tables.new.room ≡ tables.old.room }
{
    tables.make_volume(name, labels);
}

// What the volume will be.
fn new_text(alloc: Global, moment: u64, name: &str, labels: &Pairs) -> Result<Text, NoMemory>
    requires { moment ≤ GREATEST_MOMENT }
    ensures { IfOk result (λ t. t ≡ volume_body (new_volume name.now labels.now moment)) }
{
    let view = VolumeView {
        name,
        labels,
        created: moment,
    };
    volume_body(alloc, &view)
}

// Of a name that is free.
fn prepare_new(
    tables: &Tables,
    alloc: Global,
    moment: u64,
    name: &str,
    labels: &Pairs,
) -> Result<Prepared, NoMemory>
    requires until { moment ≤ GREATEST_MOMENT }
    requires free { volume_named name.now tables.now.state ≡ None }
    ensures { IfOk result
        (λ p. Makes p moment tables.now.state (spec.by_standing None name.now labels.now)) }
{
    let body = new_text(alloc, moment, name, labels)?;
    let own = Text::of(alloc, name)?;
    let mut events = Vec::new(alloc);
    let event = volume_event(alloc, Action::Create, &own, moment)?;
    add(&mut events, event)?;
    let pairs = labels.copy(alloc)?;
    Ok(Prepared {
        moment,
        reply: Reply::Answer { status: 201, body },
        events,
        plan: Plan::VolumeCreate {
            name: own,
            labels: pairs,
        },
    })
}

/// Makes a create of a volume ready.
pub fn prepare(
    tables: &Tables,
    alloc: Global,
    moment: u64,
    name: &str,
    labels: &Pairs,
) -> Result<Prepared, NoMemory>
    requires until { moment ≤ GREATEST_MOMENT }
    requires kept { IsConsistent tables.now.state }
    ensures { IfOk result (λ p. Makes p moment tables.now.state
        (spec.volume_create_outcome name.now labels.now)) }
{
    match tables.volume(name) {
        Some(volume) => show(alloc, moment, 201, volume),
        None => prepare_new(tables, alloc, moment, name, labels),
    }
}
