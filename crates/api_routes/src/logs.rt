// What logs, attach and events ask for.
ghost use Rattle.std.specs.Prelude.{◌≡◌, IfOk};
ghost use Rattle.api_routes.specs.Calls as spec;
ghost use Rattle.api_routes.specs.Reading.{Reads};

use crate::Fault;
use crate::body::filters_in;
use crate::keys::{flag, tail_in};
use crate::refused::Refused;
use crate::time::time_in;
use engine_text::{AttachAsk, Call, FilterKey, LogAsk, NoMemory, Text};
use std::alloc::Global;

/// The greatest moment that logs may ask for, in milliseconds.
const LATEST: u64 = 9_999_999_999_999;

// An absent or zero end means none.
fn end_of(until: Option<u64>) -> u64
    ensures { result ≡ spec.end_of until }
{
    match until {
        None | Some(0) => LATEST,
        Some(moment) => moment,
    }
}

// What logs ask for; at least one stream is asked for.
fn log_ask(alloc: Global, query: &str) -> Result<LogAsk, Refused>
    ensures { Reads result (spec.log_ask query.now) }
{
    let out = flag(alloc, query, "stdout")?;
    let err = flag(alloc, query, "stderr")?;
    if !out && !err {
        return Err(Refused::Fault(Fault::NoStream));
    }
    let least = time_in(alloc, query, "since")?.unwrap_or(0);
    let greatest = end_of(time_in(alloc, query, "until")?);
    let tail = tail_in(alloc, query)?;
    Ok(LogAsk {
        follow: flag(alloc, query, "follow")?,
        out,
        err,
        stamps: flag(alloc, query, "timestamps")?,
        tail,
        least,
        greatest,
    })
}

/// The logs that a request asks for.
pub(crate) fn logs_call(alloc: Global, target: Text, query: &str) -> Result<Call, Refused>
    ensures { Reads result (spec.logs_call target query.now) }
{
    let ask = log_ask(alloc, query)?;
    Ok(Call::Logs { target, ask })
}

/// What an attach asks for.
pub(crate) fn attach_ask(alloc: Global, query: &str) -> Result<AttachAsk, NoMemory>
    ensures { IfOk result (λ ask. ask ≡ spec.attach_ask query.now) }
{
    Ok(AttachAsk {
        logs: flag(alloc, query, "logs")?,
        stream: flag(alloc, query, "stream")?,
        stdin: flag(alloc, query, "stdin")?,
        out: flag(alloc, query, "stdout")?,
        err: flag(alloc, query, "stderr")?,
    })
}

/// The events that a request asks for.
pub(crate) fn events_call(alloc: Global, query: &str) -> Result<Call, Refused>
    ensures { Reads result (spec.events_call query.now) }
{
    let since = time_in(alloc, query, "since")?;
    let until = time_in(alloc, query, "until")?;
    let keys = [
        FilterKey::Kind,
        FilterKey::Action,
        FilterKey::Container,
        FilterKey::Image,
        FilterKey::Volume,
    ];
    let filter = filters_in(alloc, query, &keys)?;
    Ok(Call::Events {
        since,
        until,
        filter,
    })
}
