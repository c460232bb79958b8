// What is made ready for the end of a main process, where a step ends it.
ghost use Rattle.std.specs.Prelude.{◌≡◌, ◌<◌, ◌^◌, None, IfOk};
ghost use Rattle.machine_events.specs.Fit as spec;
ghost use Rattle.container_table.specs.Logs.{container_in};
ghost use Rattle.call_plans.specs.RunEnds.{IsEndMemory};

use container_table::Held;
use engine_text::{Goal, NoMemory, Numbers, Script};
use machine_effects::Tables;
use machine_events::EndMemory;
use proc_kernel::program;
use std::alloc::Global;

/// Nothing at all. It takes no memory.
pub fn empty_memory(alloc: Global) -> EndMemory
    ensures { result.script ≡ None }
{
    EndMemory {
        script: None,
        logs: Vec::new(alloc),
        execs: Numbers::new(alloc),
    }
}

// The script of the container's next launch, where the end of its run with that goal launches it.
fn next_script(alloc: Global, goal: Goal, h: &Held) -> Result<Option<Script>, NoMemory>
    requires { h.now.container.life.starts < 2 ^ 63 }
    ensures { IfOk result (λ o. o ≡ spec.next_script goal (container_in h.now)) }
{
    let life = &h.container.life;
    match goal {
        Goal::Restart => program(alloc, &life.words, life.starts + 1),
        Goal::Remove | Goal::Stop | Goal::None => Ok(None),
    }
}

/// What the end of the container's main process with that code wants, its goal being that then;
/// without a code nothing.
pub fn end_memory(
    tables: &Tables,
    alloc: Global,
    code: Option<u8>,
    goal: Goal,
    number: u64,
    h: &Held,
) -> Result<EndMemory, NoMemory>
    requires { h.now.container.life.starts < 2 ^ 63 }
    ensures { IfOk result
        (λ k. IsEndMemory code goal number (container_in h.now) tables.now.state k) }
{
    match code {
        None => Ok(empty_memory(alloc)),
        Some(_) => {
            let script = next_script(alloc, goal, h)?;
            tables.end_memory(alloc, number, script)
        }
    }
}
