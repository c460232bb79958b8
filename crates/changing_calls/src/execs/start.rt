// Exec start: the exec, then its container's status, then the program that its words name.
ghost use Rattle.std.specs.Prelude.{◌≡◌, [], Some, IfOk};
ghost use Rattle.engine_text.specs.declared.exec.Exec as execs;
ghost use Rattle.engine_text.specs.declared.container.Container as containers;
ghost use Rattle.proc_kernel.specs.Catalogue.{program_of};
ghost use Rattle.machine_model.specs.Calls.ExecCreate.{if_running};
ghost use Rattle.machine_model.specs.Calls.ExecStart as spec;
ghost use Rattle.machine_model.specs.Consistency.{IsConsistent};
ghost use Rattle.machine_model.specs.State.{State, container_numbered, exec_numbered};
ghost use Rattle.machine_events.specs.ExecStarts.{CanSpawn, start_effect};
ghost use Rattle.container_table.specs.Logs.{container_in};
ghost use Rattle.call_plans.specs.Making.{Makes};

use crate::execs::refusal::refusal_of;
use crate::start::first_word;
use call_plans::exec_answers::refuse_missing;
use call_plans::refusals::{exec_already_started, unknown_command};
use call_plans::{Plan, Prepared, refuse, run_if};
use container_table::Held;
use engine_text::{Action, Exec, LogSpec, NoMemory, Owner, Reply, Script, StopRule, Text};
use machine_effects::Tables;
use machine_events::{add, exec_event};
use machine_model::FAR;
use proc_kernel::program;
use std::alloc::Global;

/// The exec starts.
pub fn perform(tables: &mut Tables, number: u64, script: Script, detach: bool)
    requires { CanSpawn tables.old }
    ensures state { tables.new.state ≡ (start_effect number script detach tables.old.state).state }
    ensures died { [] ≡ (start_effect number script detach tables.old.state).died }
    ensures room { tables.new.room ≡ tables.old.room }
{
    tables.start_exec(number, script, detach);
}

// Its output on the asked streams, to its end.
fn exec_spec(exec: &Exec) -> LogSpec
    ensures { result ≡ spec.exec_spec exec.now }
{
    LogSpec {
        owner: Owner::Exec(exec.number),
        out: exec.out,
        err: exec.err,
        stamps: false,
        first: 0,
        stop: StopRule::RunEnd(1),
        least: 0,
        greatest: FAR,
        feed: run_if(exec.stdin, 1),
    }
}

// Detached an empty answer, else the stream.
fn start_reply(alloc: Global, detach: bool, exec: &Exec) -> Reply
    ensures { result ≡ spec.start_reply detach exec.now }
{
    if detach {
        Reply::Answer {
            status: 200,
            body: Text::new(alloc),
        }
    } else {
        Reply::LogStream {
            spec: exec_spec(exec),
        }
    }
}

// Of an exec whose words name that program, in a container that runs.
fn prepare_spawn(
    tables: &Tables,
    alloc: Global,
    moment: u64,
    h: &Held,
    exec: &Exec,
    script: Script,
    detach: bool,
) -> Result<Prepared, NoMemory>
    requires stands { container_numbered exec.now.container tables.now.state
        ≡ Some (container_in h.now) }
    requires own { exec_numbered exec.now.number tables.now.state ≡ Some exec.now }
    requires named { program_of exec.now.words 1 ≡ Some script }
    ensures { IfOk result (λ p. Makes p moment tables.now.state (spec.run detach exec.now)) }
{
    let mut events = Vec::new(alloc);
    let event = exec_event(alloc, Action::ExecStart, &exec.id, &h.container, moment)?;
    add(&mut events, event)?;
    let reply = start_reply(alloc, detach, exec);
    let number = exec.number;
    Ok(Prepared {
        moment,
        reply,
        events,
        plan: Plan::ExecStart {
            number,
            script,
            detach,
        },
    })
}

// Of an exec in a container that runs.
fn prepare_run(
    tables: &Tables,
    alloc: Global,
    moment: u64,
    h: &Held,
    exec: &Exec,
    detach: bool,
) -> Result<Prepared, NoMemory>
    requires stands { container_numbered exec.now.container tables.now.state
        ≡ Some (container_in h.now) }
    requires own { exec_numbered exec.now.number tables.now.state ≡ Some exec.now }
    ensures { IfOk result (λ p. Makes p moment tables.now.state (spec.run detach exec.now)) }
{
    match program(alloc, &exec.words, 1)? {
        Some(script) => prepare_spawn(tables, alloc, moment, h, exec, script, detach),
        None => {
            let text = unknown_command(alloc, first_word(&exec.words))?;
            refuse(alloc, moment, 400, &text)
        }
    }
}

// Of an exec that hasn't started.
fn prepare_unstarted(
    tables: &Tables,
    alloc: Global,
    moment: u64,
    h: &Held,
    exec: &Exec,
    detach: bool,
) -> Result<Prepared, NoMemory>
    requires stands { container_numbered exec.now.container tables.now.state
        ≡ Some (container_in h.now) }
    requires own { exec_numbered exec.now.number tables.now.state ≡ Some exec.now }
    ensures { IfOk result (λ p. Makes p moment tables.now.state
        (if_running h.now.container.life.status (container_in h.now) (spec.run detach exec.now))) }
{
    match refusal_of(alloc, h)? {
        None => prepare_run(tables, alloc, moment, h, exec, detach),
        Some(text) => refuse(alloc, moment, 409, &text),
    }
}

// Of an exec whose container stands.
fn prepare_found(
    tables: &Tables,
    alloc: Global,
    moment: u64,
    id: &str,
    h: &Held,
    exec: &Exec,
    detach: bool,
) -> Result<Prepared, NoMemory>
    requires stands { container_numbered exec.now.container tables.now.state
        ≡ Some (container_in h.now) }
    requires own { exec_numbered exec.now.number tables.now.state ≡ Some exec.now }
    ensures { IfOk result (λ p. Makes p moment tables.now.state
        (spec.unless_started exec.now.started id.now
        (if_running h.now.container.life.status (container_in h.now) (spec.run detach exec.now)))) }
{
    if exec.started {
        let text = exec_already_started(alloc, id)?;
        refuse(alloc, moment, 409, &text)
    } else {
        prepare_unstarted(tables, alloc, moment, h, exec, detach)
    }
}

// Of an exec that stands.
fn prepare_standing(
    tables: &Tables,
    alloc: Global,
    moment: u64,
    id: &str,
    exec: &Exec,
    detach: bool,
) -> Result<Prepared, NoMemory>
    requires { exec_numbered exec.now.number tables.now.state ≡ Some exec.now }
    ensures { IfOk result (λ p. Makes p moment tables.now.state
        (spec.with_exec (Some exec.now) id.now (λ x c. spec.unless_started x.started id.now
        (if_running c.life.status c (spec.run detach x))))) }
{
    match tables.numbered(exec.container) {
        Some(h) => prepare_found(tables, alloc, moment, id, h, exec, detach),
        None => refuse_missing(alloc, moment, id),
    }
}

/// Makes the start of an exec ready.
pub fn prepare(
    tables: &Tables,
    alloc: Global,
    moment: u64,
    id: &str,
    detach: bool,
) -> Result<Prepared, NoMemory>
    requires { IsConsistent tables.now.state }
    ensures { IfOk result
        (λ p. Makes p moment tables.now.state (spec.exec_start_outcome id.now detach)) }
{
    match tables.exec_with_id(id) {
        Some(exec) => prepare_standing(tables, alloc, moment, id, exec, detach),
        None => refuse_missing(alloc, moment, id),
    }
}
