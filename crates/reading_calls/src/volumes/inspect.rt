// Volume inspect: what a volume is.
ghost use Rattle.std.specs.Prelude.{IfOk};
ghost use Rattle.machine_model.specs.Calls.Volumes as spec;
ghost use Rattle.machine_model.specs.Consistency.{IsConsistent};
ghost use Rattle.call_plans.specs.Making.{Makes};

use call_plans::Prepared;
use call_plans::volume_answers::{refuse_missing, show};
use engine_text::NoMemory;
use machine_effects::Tables;
use std::alloc::Global;

/// Makes an inspect of a volume ready.
pub fn prepare(
    tables: &Tables,
    alloc: Global,
    moment: u64,
    name: &str,
) -> Result<Prepared, NoMemory>
    requires { IsConsistent tables.now.state }
    ensures { IfOk result
        (λ p. Makes p moment tables.now.state (spec.volume_inspect_outcome name.now)) }
{
    match tables.volume(name) {
        Some(volume) => show(alloc, moment, 200, volume),
        None => refuse_missing(alloc, moment, name),
    }
}
