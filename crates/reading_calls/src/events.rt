// Events: the stream of a history's events, from a number on.
ghost use Rattle.std.specs.Prelude.{IfOk};
ghost use Rattle.machine_model.specs.Calls.Events as spec;
ghost use Rattle.call_plans.specs.Making.{Makes};

use call_plans::{Prepared, stream};
use engine_text::{Filter, NoMemory, Reply};
use machine_effects::Tables;
use std::alloc::Global;

/// Makes the stream ready.
pub fn prepare(
    tables: &Tables,
    alloc: Global,
    moment: u64,
    since: Option<u64>,
    until: Option<u64>,
    filter: &Filter,
) -> Result<Prepared, NoMemory>
    ensures { IfOk result
        (λ p. Makes p moment tables.now.state (spec.events_outcome since until filter.now)) }
{
    let filter = filter.copy(alloc)?;
    let reply = Reply::EventStream {
        first: tables.first_event(since),
        until,
        filter,
    };
    Ok(stream(alloc, moment, reply))
}

/// Makes the stream of the journal's entries so far ready.
pub fn prepare_journal(tables: &Tables, alloc: Global, moment: u64) -> Result<Prepared, NoMemory>
    ensures { IfOk result (λ p. Makes p moment tables.now.state spec.journal_outcome) }
{
    let reply = Reply::JournalStream {
        count: tables.calls(),
    };
    Ok(stream(alloc, moment, reply))
}
