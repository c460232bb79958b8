// Logs: the stream of a container's records, in every state.
ghost use Rattle.std.specs.Prelude.{◌≡◌};
ghost use Rattle.machine_model.specs.Calls.Logs as spec;
ghost use Rattle.container_table.specs.Logs.{container_in};
ghost use Rattle.call_plans.specs.Making.{Makes};

use crate::selection::first_place;
use call_plans::{Prepared, stream};
use container_table::Held;
use engine_text::{LogAsk, LogSpec, Owner, Reply, StopRule};
use machine_effects::Tables;
use std::alloc::Global;

// Where the stream ends: without follow at the log's length.
fn stop_rule(follow: bool, size: u64) -> StopRule
    ensures { result ≡ spec.stop_rule follow size }
{
    if follow {
        StopRule::NotRunning
    } else {
        StopRule::At(size)
    }
}

// The stream of the container's log.
fn log_spec(ask: &LogAsk, h: &Held) -> LogSpec
    ensures { result ≡ spec.log_spec ask.now (container_in h.now) }
{
    let log = h.log.as_slice();
    LogSpec {
        owner: Owner::Container(h.container.number),
        out: ask.out,
        err: ask.err,
        stamps: ask.stamps,
        first: first_place(ask, log),
        stop: stop_rule(ask.follow, log.len() as u64),
        least: ask.least,
        greatest: ask.greatest,
        feed: None,
    }
}

/// Makes the stream ready.
pub fn prepare(tables: &Tables, alloc: Global, moment: u64, h: &Held, ask: &LogAsk) -> Prepared
    ensures { Makes result moment tables.now.state
        (spec.logs_outcome ask.now (container_in h.now)) }
{
    let spec = log_spec(ask, h);
    stream(alloc, moment, Reply::LogStream { spec })
}
