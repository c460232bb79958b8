// The answer that there is no exec.
ghost use Rattle.std.specs.Prelude.{IfOk};
ghost use Rattle.machine_model.specs.Outcome.{message_text};
ghost use Rattle.machine_model.specs.Refusals.{no_such_exec};
ghost use Rattle.call_plans.specs.Making.{IsAnswer};

use crate::answers::refuse;
use crate::prepared::Prepared;
use crate::refusals::no_such_exec;
use engine_text::NoMemory;
use std::alloc::Global;

/// No exec has that id.
pub fn refuse_missing(alloc: Global, moment: u64, id: &str) -> Result<Prepared, NoMemory>
    ensures { IfOk result (λ p. IsAnswer moment 404 (message_text (no_such_exec id.now)) p) }
{
    let text = no_such_exec(alloc, id)?;
    refuse(alloc, moment, 404, &text)
}
