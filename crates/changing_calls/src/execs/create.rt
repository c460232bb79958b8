// Exec create: by the container's status.
ghost use Rattle.std.specs.Prelude.{◌≡◌, ◌++◌, [], codes, Some, IfOk};
ghost use Rattle.machine_model.specs.Calls.ExecCreate as spec;
ghost use Rattle.machine_model.specs.State.{container_numbered};
ghost use Rattle.container_table.specs.Logs.{container_in};
ghost use Rattle.machine_events.specs.NewExecs.{CanAddExec};
ghost use Rattle.call_plans.specs.Calls.Execs.{add_exec};
ghost use Rattle.call_plans.specs.Making.{Makes};

use crate::execs::refusal::refusal_of;
use call_plans::{Plan, Prepared, join, refuse};
use container_table::Held;
use engine_text::{Action, Exec, NoMemory, Reply, Text, Words};
use machine_effects::Tables;
use machine_events::{add, exec_event};
use std::alloc::Global;

/// What is asked of an exec.
#[derive(Clone, Copy, Drop)]
pub struct ExecAsk<'a> {
    pub words: &'a Words,
    pub stdin: bool,
    pub out: bool,
    pub err: bool,
}

/// The exec stands, with its output.
pub fn perform(tables: &mut Tables, exec: Exec)
    requires { CanAddExec exec tables.old }
    ensures state { tables.new.state ≡ (add_exec exec tables.old.state).state }
    ensures died { [] ≡ (add_exec exec tables.old.state).died }
    ensures room { tables.new.room ≡ tables.old.room }
{
    tables.add_exec(exec);
}

// The answer to an exec create that was done.
fn created_text(alloc: Global, id: &Text) -> Result<Text, NoMemory>
    ensures { IfOk result (λ t. t ≡ codes "{\"Id\":\"" ++ id.now ++ codes "\"}") }
{
    join(alloc, "{\"Id\":\"", id.as_str(), "\"}")
}

fn new_exec(tables: &Tables, alloc: Global, h: &Held, asked: &ExecAsk<'_>) -> Result<Exec, NoMemory>
    ensures { IfOk result (λ x. x ≡ spec.new_exec (container_in h.now)
        asked.now.words.now asked.now.stdin asked.now.out asked.now.err tables.now.state) }
{
    Ok(Exec {
        number: tables.next_number(),
        id: tables.next_id(alloc)?,
        container: h.container.number,
        words: asked.words.copy(alloc)?,
        stdin: asked.stdin,
        out: asked.out,
        err: asked.err,
        started: false,
        pid: 0,
        code: None,
    })
}

// In a container that runs.
fn prepare_new(
    tables: &Tables,
    alloc: Global,
    moment: u64,
    h: &Held,
    asked: &ExecAsk<'_>,
) -> Result<Prepared, NoMemory>
    requires { container_numbered h.now.container.number tables.now.state
        ≡ Some (container_in h.now) }
    ensures { IfOk result (λ p. Makes p moment tables.now.state (λ s. spec.created
        (spec.new_exec (container_in h.now) asked.now.words.now asked.now.stdin asked.now.out
        asked.now.err s)
        (container_in h.now) s)) }
{
    let exec = new_exec(tables, alloc, h, asked)?;
    let mut events = Vec::new(alloc);
    let event = exec_event(alloc, Action::ExecCreate, &exec.id, &h.container, moment)?;
    add(&mut events, event)?;
    let body = created_text(alloc, &exec.id)?;
    Ok(Prepared {
        moment,
        reply: Reply::Answer { status: 201, body },
        events,
        plan: Plan::ExecCreate { exec },
    })
}

/// Makes the create of an exec ready.
pub fn prepare(
    tables: &Tables,
    alloc: Global,
    moment: u64,
    h: &Held,
    asked: &ExecAsk<'_>,
) -> Result<Prepared, NoMemory>
    requires { container_numbered h.now.container.number tables.now.state
        ≡ Some (container_in h.now) }
    ensures { IfOk result (λ p. Makes p moment tables.now.state
        (spec.if_running h.now.container.life.status (container_in h.now) (λ s. spec.created
        (spec.new_exec (container_in h.now) asked.now.words.now asked.now.stdin asked.now.out
        asked.now.err s)
        (container_in h.now) s))) }
{
    match refusal_of(alloc, h)? {
        None => prepare_new(tables, alloc, moment, h, asked),
        Some(text) => refuse(alloc, moment, 409, &text),
    }
}
