// Unpause: by the container's status.
ghost use Rattle.std.specs.Prelude.{◌≡◌, ◌<◌, ◌^◌, true, Some, None, IfOk};
ghost use Rattle.api_json.specs.Status.{is_paused};
ghost use Rattle.machine_model.specs.Consistency.{IsConsistent};
ghost use Rattle.machine_model.specs.Effects.Meet.{thaw_container};
ghost use Rattle.machine_model.specs.Outcome.{done};
ghost use Rattle.machine_model.specs.State.{container_numbered};
ghost use Rattle.machine_model.specs.Calls.Unpause as spec;
ghost use Rattle.container_table.specs.Logs.{container_in};
ghost use Rattle.machine_tables.specs.Settled.{deaths};
ghost use Rattle.call_plans.specs.Making.{Makes};
ghost use Rattle.call_plans.specs.Needs.{CanEndRun};

use call_plans::refusals::not_paused;
use call_plans::{Plan, Prepared, end_memory, refuse};
use container_table::Held;
use engine_text::{NoMemory, Reply, Text};
use machine_effects::{Tables, death_with};
use machine_events::{EndMemory, Ending, is_paused};
use machine_tables::Death;
use std::alloc::Global;

/// The container goes on.
pub fn perform(tables: &mut Tables, number: u64, brought: EndMemory) -> Option<Death>
    requires { CanEndRun number None (thaw_container number) brought tables.old }
    ensures state { tables.new.state ≡ (thaw_container number tables.old.state).state }
    ensures died { deaths result ≡ (thaw_container number tables.old.state).died }
    ensures room { tables.new.room ≡ tables.old.room }
{
    death_with(number, tables.thaw_container(number, brought))
}

// Of a container that is paused.
fn prepare_paused(
    tables: &Tables,
    alloc: Global,
    moment: u64,
    h: &Held,
) -> Result<Prepared, NoMemory>
    requires stands { container_numbered h.now.container.number tables.now.state
        ≡ Some (container_in h.now) }
    requires paused { is_paused h.now.container.life.status ≡ true }
    requires starts { h.now.container.life.starts < 2 ^ 63 }
    requires kept { IsConsistent tables.now.state }
    ensures { IfOk result
        (λ p. Makes p moment tables.now.state (done (thaw_container h.now.container.number))) }
{
    let number = h.container.number;
    let code = tables.woken_code(number);
    let brought = end_memory(tables, alloc, code, h.container.life.goal, number, h)?;
    let mut events = Vec::new(alloc);
    let ending = Ending::of(h);
    tables.tell_woken(alloc, code, ending, h, &brought.script, moment, &mut events)?;
    let body = Text::new(alloc);
    Ok(Prepared {
        moment,
        reply: Reply::Answer { status: 204, body },
        events,
        plan: Plan::Unpause { number, brought },
    })
}

/// Makes an unpause ready.
pub fn prepare(tables: &Tables, alloc: Global, moment: u64, h: &Held) -> Result<Prepared, NoMemory>
    requires stands { container_numbered h.now.container.number tables.now.state
        ≡ Some (container_in h.now) }
    requires starts { h.now.container.life.starts < 2 ^ 63 }
    requires kept { IsConsistent tables.now.state }
    ensures { IfOk result (λ p. Makes p moment tables.now.state
        (spec.if_paused (is_paused h.now.container.life.status) (container_in h.now))) }
{
    if is_paused(h.container.life.status) {
        return prepare_paused(tables, alloc, moment, h);
    }
    let text = not_paused(alloc, h.container.id.as_str())?;
    refuse(alloc, moment, 409, &text)
}
