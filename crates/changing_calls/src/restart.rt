// Restart: by the container's status.
ghost use Rattle.std.specs.Prelude.{◌≡◌, ◌+◌, ◌<◌, ◌^◌, [], Some, IfOk, IfSome};
ghost use Rattle.proc_kernel.specs.Catalogue.{program_of};
ghost use Rattle.machine_model.specs.Consistency.{IsConsistent};
ghost use Rattle.machine_model.specs.Outcome.{done};
ghost use Rattle.machine_model.specs.State.{container_numbered};
ghost use Rattle.machine_model.specs.Calls.Restart as spec;
ghost use Rattle.container_table.specs.Logs.{container_in};
ghost use Rattle.call_plans.specs.Calls.Restart.{restart_restarting_effect};
ghost use Rattle.call_plans.specs.Making.{Makes};
ghost use Rattle.call_plans.specs.Needs.{CanStart};

use crate::halts;
use crate::start::first_word;
use call_plans::refusals::{being_removed, dead, unknown_command};
use call_plans::{Plan, Prepared, refuse};
use container_table::Held;
use engine_text::{NoMemory, Reply, Script, Signal, Status, Text};
use machine_effects::Tables;
use machine_events::{Halting, tell_again};
use proc_kernel::program;
use std::alloc::Global;

/// A container that doesn't live is launched.
pub fn perform(tables: &mut Tables, number: u64, script: Option<Script>)
    requires { CanStart number script tables.old }
    ensures state { tables.new.state ≡ (spec.launch_again number tables.old.state).state }
    ensures died { [] ≡ (spec.launch_again number tables.old.state).died }
    ensures room { tables.new.room ≡ tables.old.room }
{
    tables.launch_by_call(number, script);
}

/// The pending restart is given up, and the container is launched.
pub fn perform_restarting(tables: &mut Tables, number: u64, script: Option<Script>)
    requires { CanStart number script tables.old }
    ensures state { tables.new.state ≡ (restart_restarting_effect number tables.old.state).state }
    ensures died { [] ≡ (restart_restarting_effect number tables.old.state).died }
    ensures room { tables.new.room ≡ tables.old.room }
{
    tables.cancel_restart(number);
    tables.launch_by_call(number, script);
}

// Its words name that program.
fn prepare_launch(
    alloc: Global,
    moment: u64,
    tables: &Tables,
    h: &Held,
    script: Script,
) -> Result<Prepared, NoMemory>
    requires stands { container_numbered h.now.container.number tables.now.state
        ≡ Some (container_in h.now) }
    requires named { program_of h.now.container.life.words (h.now.container.life.starts + 1)
        ≡ Some script }
    ensures { IfOk result (λ p. Makes p moment tables.now.state (spec.run (container_in h.now))) }
{
    let number = h.container.number;
    let script = Some(script);
    let mut events = Vec::new(alloc);
    tell_again(alloc, &script, h, moment, &mut events)?;
    let body = Text::new(alloc);
    Ok(Prepared {
        moment,
        reply: Reply::Answer { status: 204, body },
        events,
        plan: Plan::Restart { number, script },
    })
}

// Of a container that has no process.
fn prepare_run(alloc: Global, moment: u64, tables: &Tables, h: &Held) -> Result<Prepared, NoMemory>
    requires stands { container_numbered h.now.container.number tables.now.state
        ≡ Some (container_in h.now) }
    requires starts { h.now.container.life.starts < 2 ^ 63 }
    ensures { IfOk result (λ p. Makes p moment tables.now.state (spec.run (container_in h.now))) }
{
    let life = &h.container.life;
    match program(alloc, &life.words, life.starts + 1)? {
        Some(script) => prepare_launch(alloc, moment, tables, h, script),
        None => {
            let text = unknown_command(alloc, first_word(&life.words))?;
            refuse(alloc, moment, 400, &text)
        }
    }
}

// Of a container that waits for its restart.
fn prepare_restarting(
    alloc: Global,
    moment: u64,
    tables: &Tables,
    h: &Held,
) -> Result<Prepared, NoMemory>
    requires stands { container_numbered h.now.container.number tables.now.state
        ≡ Some (container_in h.now) }
    requires starts { h.now.container.life.starts < 2 ^ 63 }
    ensures { IfOk result (λ p. Makes p moment tables.now.state
        (done (restart_restarting_effect h.now.container.number))) }
{
    let number = h.container.number;
    let life = &h.container.life;
    let script = program(alloc, &life.words, life.starts + 1)?;
    let mut events = Vec::new(alloc);
    tell_again(alloc, &script, h, moment, &mut events)?;
    let body = Text::new(alloc);
    Ok(Prepared {
        moment,
        reply: Reply::Answer { status: 204, body },
        events,
        plan: Plan::RestartRestarting { number, script },
    })
}

/// Makes a restart ready.
pub fn prepare(
    tables: &Tables,
    alloc: Global,
    conn: u32,
    moment: u64,
    h: &Held,
    wait: Option<i32>,
    signal: Option<Signal>,
) -> Result<Prepared, NoMemory>
    requires signal { IfSome signal (λ s. s.number < 32) }
    requires stands { container_numbered h.now.container.number tables.now.state
        ≡ Some (container_in h.now) }
    requires starts { h.now.container.life.starts < 2 ^ 63 }
    requires kept { IsConsistent tables.now.state }
    ensures { IfOk result (λ p. Makes p moment tables.now.state
        (spec.by_status h.now.container.life.status conn wait signal (container_in h.now))) }
{
    let again = Halting::Restart;
    let id = h.container.id.as_str();
    match h.container.life.status {
        Status::Created => prepare_run(alloc, moment, tables, h),
        Status::Running => halts::prepare(tables, alloc, conn, moment, h, again, wait, signal),
        Status::Paused => halts::prepare(tables, alloc, conn, moment, h, again, wait, signal),
        Status::Restarting => prepare_restarting(alloc, moment, tables, h),
        Status::Removing => {
            let text = being_removed(alloc, id)?;
            refuse(alloc, moment, 409, &text)
        }
        Status::Exited => prepare_run(alloc, moment, tables, h),
        Status::Dead => {
            let text = dead(alloc, id)?;
            refuse(alloc, moment, 409, &text)
        }
    }
}
