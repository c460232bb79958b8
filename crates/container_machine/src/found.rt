// The calls that name a container, once it is found.
ghost use Rattle.std.specs.Prelude.{◌≡◌, ◌<◌, ◌^◌, Some, IfOk, IsSome};
ghost use Rattle.engine_text.specs.Soundness.{IsSound};
ghost use Rattle.machine_model.specs.Call.{outcome_of};
ghost use Rattle.machine_model.specs.Consistency.{IsConsistent};
ghost use Rattle.machine_model.specs.State.{container_numbered};
ghost use Rattle.container_table.specs.Logs.{container_in};
ghost use Rattle.call_plans.specs.Making.{Makes};
ghost use Rattle.container_machine.specs.Found.{found_outcome, target_of};

use call_plans::{Looked, Prepared, look};
use changing_calls::execs::create::ExecAsk;
use container_table::Held;
use engine_text::{Call, NoMemory};
use machine_effects::Tables;
use std::alloc::Global;

// What the call does with its container.
#[tactic(auto, using(crate::proofs::SoundLemmas::low_signal))]
fn prepare_found(
    tables: &Tables,
    alloc: Global,
    conn: u32,
    moment: u64,
    h: &Held,
    call: &Call,
) -> Result<Prepared, NoMemory>
    requires sound { IsSound call.now }
    requires named { IsSome (target_of call.now) }
    requires stands { container_numbered h.now.container.number tables.now.state
        ≡ Some (container_in h.now) }
    requires starts { h.now.container.life.starts < 2 ^ 63 }
    requires kept { IsConsistent tables.now.state }
    ensures { IfOk result (λ p. Makes p moment tables.now.state
        (found_outcome call.now conn (container_in h.now))) }
{
    match call {
        Call::Attach { ask, .. } => reading_calls::attach::prepare(tables, alloc, moment, h, ask),
        Call::ExecCreate {
            words,
            stdin,
            out,
            err,
            ..
        } => {
            let asked = ExecAsk {
                words,
                stdin: *stdin,
                out: *out,
                err: *err,
            };
            changing_calls::execs::create::prepare(tables, alloc, moment, h, &asked)
        }
        Call::Kill { signal, .. } => {
            changing_calls::kill::prepare(tables, alloc, moment, h, *signal)
        }
        Call::Inspect { .. } => reading_calls::inspect::prepare(tables, alloc, moment, h),
        Call::Logs { ask, .. } => Ok(reading_calls::logs::prepare(tables, alloc, moment, h, ask)),
        Call::Pause { .. } => changing_calls::pause::prepare(tables, alloc, moment, h),
        Call::Remove { force, .. } => {
            changing_calls::remove::prepare(tables, alloc, conn, moment, h, *force)
        }
        Call::Rename { name, .. } => {
            changing_calls::rename::prepare(tables, alloc, moment, h, name.as_str())
        }
        Call::Restart { wait, signal, .. } => {
            changing_calls::restart::prepare(tables, alloc, conn, moment, h, *wait, *signal)
        }
        Call::Start { .. } => changing_calls::start::prepare(tables, alloc, moment, h),
        Call::Stop { wait, signal, .. } => {
            changing_calls::stop::prepare(tables, alloc, conn, moment, h, *wait, *signal)
        }
        Call::Unpause { .. } => changing_calls::unpause::prepare(tables, alloc, moment, h),
        Call::Update { policy, .. } => {
            changing_calls::update::prepare(tables, alloc, moment, h, *policy)
        }
        Call::Wait { until, .. } => Ok(reading_calls::wait::prepare(
            tables, alloc, conn, moment, h, *until,
        )),
        Call::Create(_)
        | Call::Drop { .. }
        | Call::Events { .. }
        | Call::ExecInspect { .. }
        | Call::ExecStart { .. }
        | Call::Feed { .. }
        | Call::FeedEnd { .. }
        | Call::JournalRead
        | Call::List { .. }
        | Call::Take { .. }
        | Call::VolumeCreate { .. }
        | Call::VolumeInspect { .. }
        | Call::VolumeList { .. }
        | Call::VolumeRemove { .. } => unreachable!(),
    }
}

/// Makes a call ready that names a container by that reference.
pub fn prepare_at(
    tables: &Tables,
    alloc: Global,
    conn: u32,
    moment: u64,
    target: &str,
    call: &Call,
) -> Result<Prepared, NoMemory>
    requires sound { IsSound call.now }
    requires named { target_of call.now ≡ Some target.now }
    requires kept { IsConsistent tables.now.state }
    ensures { IfOk result (λ p. Makes p moment tables.now.state (outcome_of call.now conn)) }
{
    match look(tables, alloc, moment, target)? {
        Looked::Stands(h) => prepare_found(tables, alloc, conn, moment, h, call),
        Looked::Refused(prepared) => Ok(prepared),
    }
}
