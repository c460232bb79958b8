// Start: by the container's status.
ghost use Rattle.std.specs.Prelude.{◌≡◌, ◌+◌, ◌<◌, ◌^◌, [], Some, IfOk};
ghost use Rattle.api_json.specs.Values.{first_word};
ghost use Rattle.proc_kernel.specs.Catalogue.{program_of};
ghost use Rattle.machine_model.specs.State.{container_numbered};
ghost use Rattle.machine_model.specs.Effects.Launch.{launch_by_call};
ghost use Rattle.machine_model.specs.Calls.Start as spec;
ghost use Rattle.container_table.specs.Logs.{container_in};
ghost use Rattle.call_plans.specs.Making.{Makes};
ghost use Rattle.call_plans.specs.Needs.{CanStart};

use call_plans::refusals::{being_removed, dead, start_of_paused, unknown_command};
use call_plans::{Plan, Prepared, answer, refuse};
use container_table::Held;
use engine_text::{NoMemory, Reply, Script, Status, Text, Words};
use machine_effects::Tables;
use machine_events::tell_launch;
use proc_kernel::program;
use std::alloc::Global;

/// The container is launched.
pub fn perform(tables: &mut Tables, number: u64, script: Option<Script>)
    requires { CanStart number script tables.old }
    ensures state { tables.new.state ≡ (launch_by_call number tables.old.state).state }
    ensures died { [] ≡ (launch_by_call number tables.old.state).died }
    ensures room { tables.new.room ≡ tables.old.room }
{
    tables.launch_by_call(number, script);
}

/// The first of the words, or none.
pub(super) fn first_word(words: &Words) -> &str
    ensures { result.now ≡ first_word words.now }
{
    match words.as_slice().first() {
        None => "",
        Some(word) => word.as_str(),
    }
}

// Its words name that program.
fn prepare_launch(
    alloc: Global,
    moment: u64,
    tables: &Tables,
    h: &Held,
    script: Script,
) -> Result<Prepared, NoMemory>
    requires stands { container_numbered h.now.container.number tables.now.state
        ≡ Some (container_in h.now) }
    requires named { program_of h.now.container.life.words (h.now.container.life.starts + 1)
        ≡ Some script }
    ensures { IfOk result (λ p. Makes p moment tables.now.state (spec.run (container_in h.now))) }
{
    let number = h.container.number;
    let script = Some(script);
    let mut events = Vec::new(alloc);
    tell_launch(alloc, &script, h, moment, &mut events)?;
    let body = Text::new(alloc);
    Ok(Prepared {
        moment,
        reply: Reply::Answer { status: 204, body },
        events,
        plan: Plan::Start { number, script },
    })
}

// Of a container that has no process.
fn prepare_run(alloc: Global, moment: u64, tables: &Tables, h: &Held) -> Result<Prepared, NoMemory>
    requires stands { container_numbered h.now.container.number tables.now.state
        ≡ Some (container_in h.now) }
    requires starts { h.now.container.life.starts < 2 ^ 63 }
    ensures { IfOk result (λ p. Makes p moment tables.now.state (spec.run (container_in h.now))) }
{
    let life = &h.container.life;
    match program(alloc, &life.words, life.starts + 1)? {
        Some(script) => prepare_launch(alloc, moment, tables, h, script),
        None => {
            let text = unknown_command(alloc, first_word(&life.words))?;
            refuse(alloc, moment, 400, &text)
        }
    }
}

/// Makes a start ready.
pub fn prepare(tables: &Tables, alloc: Global, moment: u64, h: &Held) -> Result<Prepared, NoMemory>
    requires stands { container_numbered h.now.container.number tables.now.state
        ≡ Some (container_in h.now) }
    requires starts { h.now.container.life.starts < 2 ^ 63 }
    ensures { IfOk result (λ p. Makes p moment tables.now.state
        (spec.by_status h.now.container.life.status (container_in h.now))) }
{
    let id = h.container.id.as_str();
    match h.container.life.status {
        Status::Created => prepare_run(alloc, moment, tables, h),
        Status::Exited => prepare_run(alloc, moment, tables, h),
        Status::Running => Ok(answer(alloc, moment, 304, Text::new(alloc))),
        Status::Restarting => Ok(answer(alloc, moment, 304, Text::new(alloc))),
        Status::Paused => {
            let text = start_of_paused(alloc)?;
            refuse(alloc, moment, 409, &text)
        }
        Status::Removing => {
            let text = being_removed(alloc, id)?;
            refuse(alloc, moment, 409, &text)
        }
        Status::Dead => {
            let text = dead(alloc, id)?;
            refuse(alloc, moment, 409, &text)
        }
    }
}
