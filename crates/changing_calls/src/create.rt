// Create: the image first, then the name.
ghost use Rattle.std.specs.Prelude.{◌≡◌, ◌≤◌, ◌++◌, [], codes, length, None, IfOk};
ghost use Rattle.machine_model.specs.Calls.Create as spec;
ghost use Rattle.machine_model.specs.Consistency.{IsConsistent};
ghost use Rattle.machine_model.specs.Names.{holder};
ghost use Rattle.container_table.specs.Logs.{container_in};
ghost use Rattle.machine_events.specs.NewVolumes.{CanAdd};
ghost use Rattle.call_plans.specs.Making.{Makes};

use call_plans::refusals::{name_conflict, no_such_image};
use call_plans::{Plan, Prepared, is_image, join, refuse};
use container_table::Held;
use engine_text::{
    Action, Container, CreateSpec, Event, Goal, HealthSpec, Life, Log, NoMemory, OpenLog, Reply,
    Status, Text, Volume, Words,
};
use machine_effects::Tables;
use machine_events::{add, plain_event, tell_volumes};
use std::alloc::Global;

/// The container stands, and the volumes of its mounts.
pub fn perform(tables: &mut Tables, held: Held, volumes: Vec<Volume>)
    requires { CanAdd (container_in held) volumes.items tables.old }
    ensures state { tables.new.state ≡ (spec.add (container_in held) tables.old.state).state }
    ensures died { [] ≡ (spec.add (container_in held) tables.old.state).died }
    ensures room { tables.new.room ≡ tables.old.room }
{
    tables.add(held, volumes);
}

// Empty words stand for `hello`.
fn words_or_hello(alloc: Global, words: &Words) -> Result<Words, NoMemory>
    ensures { IfOk result (λ w. w ≡ spec.words_or_hello words.now) }
{
    if words.as_slice().is_empty() {
        let mut hello = Words::new(alloc);
        hello.push(alloc, Text::of(alloc, "hello")?)?;
        return Ok(hello);
    }
    words.copy(alloc)
}

// The health check again, if there is one.
fn copy_health(alloc: Global, health: &Option<HealthSpec>) -> Result<Option<HealthSpec>, NoMemory>
    ensures { IfOk result (λ h. h ≡ health.now) }
{
    match health {
        None => Ok(None),
        Some(health) => Ok(Some(health.copy(alloc)?)),
    }
}

fn new_life(alloc: Global, asked: &CreateSpec, moment: u64) -> Result<Life, NoMemory>
    ensures { IfOk result (λ l. l ≡ spec.new_life asked.now moment) }
{
    Ok(Life {
        words: words_or_hello(alloc, &asked.words)?,
        labels: asked.labels.copy(alloc)?,
        policy: asked.policy,
        stop_signal: asked.stop_signal,
        stop_after: asked.stop_after,
        open_stdin: asked.open_stdin,
        stdin_once: asked.stdin_once,
        mounts: asked.mounts.copy(alloc)?,
        created: moment,
        started: None,
        finished: None,
        restarts: 0,
        status: Status::Created,
        pid: 0,
        code: 0,
        starts: 0,
        goal: Goal::None,
        delay: 0,
        manual: false,
        log: Log::new(alloc),
        auto_remove: asked.auto_remove,
        health: copy_health(alloc, &asked.health)?,
    })
}

// The answer to a create that was done.
fn created_text(alloc: Global, id: &Text) -> Result<Text, NoMemory>
    ensures { IfOk result (λ t. t ≡ codes "{\"Id\":\"" ++ id.now ++ codes "\",\"Warnings\":[]}") }
{
    join(alloc, "{\"Id\":\"", id.as_str(), "\",\"Warnings\":[]}")
}

// With a name that is free.
fn prepare_new(
    tables: &Tables,
    alloc: Global,
    moment: u64,
    name: Text,
    asked: &CreateSpec,
) -> Result<Prepared, NoMemory>
    requires { holder name tables.now.state.containers ≡ None }
    ensures { IfOk result (λ p. Makes p moment tables.now.state
        (λ s. spec.created (spec.new_container name asked.now s) s)) }
{
    let container = Container {
        number: tables.next_number(),
        id: tables.next_id(alloc)?,
        name,
        life: new_life(alloc, asked, moment)?,
    };
    let volumes = tables.missing_volumes(alloc, &container.life.mounts, moment)?;
    let mut events = Vec::new(alloc);
    tell_volumes(alloc, volumes.as_slice(), moment, &mut events)?;
    let event = plain_event(alloc, Action::Create, &container, moment)?;
    add(&mut events, event)?;
    let body = created_text(alloc, &container.id)?;
    let held = Held {
        container,
        log: OpenLog::new(alloc),
    };
    Ok(Prepared {
        moment,
        reply: Reply::Answer { status: 201, body },
        events,
        plan: Plan::Create { held, volumes },
    })
}

// With a name that may be taken.
fn prepare_named(
    tables: &Tables,
    alloc: Global,
    moment: u64,
    name: Text,
    asked: &CreateSpec,
) -> Result<Prepared, NoMemory>
    ensures { IfOk result (λ p. Makes p moment tables.now.state (spec.by_name name asked.now)) }
{
    match tables.holder(name.as_str()) {
        Some(other) => {
            let text = name_conflict(alloc, name.as_str(), other.container.id.as_str())?;
            refuse(alloc, moment, 409, &text)
        }
        None => prepare_new(tables, alloc, moment, name, asked),
    }
}

/// Makes a create ready.
pub fn prepare(
    tables: &Tables,
    alloc: Global,
    moment: u64,
    asked: &CreateSpec,
) -> Result<Prepared, NoMemory>
    requires { IsConsistent tables.now.state }
    ensures { IfOk result (λ p. Makes p moment tables.now.state (spec.create_outcome asked.now)) }
{
    if !is_image(&asked.image) {
        let text = no_such_image(alloc, asked.image.as_str())?;
        return refuse(alloc, moment, 404, &text);
    }
    let name = tables.chosen_name(alloc, &asked.name)?;
    prepare_named(tables, alloc, moment, name, asked)
}
