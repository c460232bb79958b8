// Standard input of a run: a piece of it, and its end.
ghost use Rattle.std.specs.Prelude.{◌≡◌, IfOk};
ghost use Rattle.machine_model.specs.Calls.Feed as spec;
ghost use Rattle.changing_calls.specs.Calls.Feed.{IsFed, end_plan, ends_input};
ghost use Rattle.call_plans.specs.Making.{Makes};

use call_plans::{Plan, Prepared, Run, run_of};
use engine_text::{Bytes, NoMemory, Owner, Reply};
use machine_effects::Tables;
use std::alloc::Global;

// The answer whether it was taken, with what that does.
fn fed(alloc: Global, moment: u64, taken: bool, plan: Plan) -> Prepared
    ensures { IsFed moment taken plan result }
{
    Prepared {
        moment,
        reply: Reply::Fed { taken },
        events: Vec::new(alloc),
        plan,
    }
}

/// Makes a piece of input ready.
pub fn prepare(
    tables: &Tables,
    alloc: Global,
    moment: u64,
    owner: Owner,
    run: u64,
    bytes: &Bytes,
) -> Result<Prepared, NoMemory>
    ensures { IfOk result
        (λ p. Makes p moment tables.now.state (spec.feed_outcome owner run bytes.now)) }
{
    match run_of(tables, owner, run) {
        Run::Live => {
            let piece = bytes.copy(alloc)?;
            Ok(fed(alloc, moment, true, Plan::Feed { owner, piece }))
        }
        Run::Over => Ok(fed(alloc, moment, false, Plan::Nothing)),
        Run::Coming => Ok(fed(alloc, moment, false, Plan::Nothing)),
    }
}

// Whether the end of what is sent is the end of the owner's input.
fn ends_input(tables: &Tables, owner: Owner) -> bool
    ensures { result ≡ ends_input owner tables.now.state }
{
    match owner {
        Owner::Exec(_) => true,
        Owner::Container(number) => match tables.numbered(number) {
            None => false,
            Some(h) => h.container.life.stdin_once,
        },
    }
}

// What the end does to a run that is live.
fn end_plan(tables: &Tables, owner: Owner) -> Plan
    ensures { result ≡ end_plan (ends_input owner tables.now.state) owner }
{
    if ends_input(tables, owner) {
        Plan::FeedEnd { owner }
    } else {
        Plan::Nothing
    }
}

/// Makes the end of the input ready. It takes no memory.
pub fn prepare_end(tables: &Tables, alloc: Global, moment: u64, owner: Owner, run: u64) -> Prepared
    ensures { Makes result moment tables.now.state (spec.feed_end_outcome owner run) }
{
    match run_of(tables, owner, run) {
        Run::Live => fed(alloc, moment, true, end_plan(tables, owner)),
        Run::Over => fed(alloc, moment, false, Plan::Nothing),
        Run::Coming => fed(alloc, moment, false, Plan::Nothing),
    }
}
