// The calls of containers, by their queries and bodies.
ghost use Rattle.api_routes.specs.Calls as spec;
ghost use Rattle.api_routes.specs.Reading.{Reads};

use crate::Fault;
use crate::body::{create_body, filters_in, update_body};
use crate::keys::{condition_in, flag, limit_in, seconds_in};
use crate::names::{create_name, new_name, signal_in};
use crate::refused::Refused;
use engine_text::{Call, FilterKey, Signal, Text};
use std::alloc::Global;

/// SIGKILL.
const KILL: Signal = Signal { number: 9 };

/// The create that a request asks for.
pub(crate) fn create_call(alloc: Global, query: &str, body: &[u8]) -> Result<Call, Refused>
    ensures { Reads result (spec.create_call query.now body.now) }
{
    let mut spec = create_body(alloc, body)?;
    spec.name = create_name(alloc, query)?;
    Ok(Call::Create(spec))
}

/// The list that a request asks for.
pub(crate) fn list_call(alloc: Global, query: &str) -> Result<Call, Refused>
    ensures { Reads result (spec.list_call query.now) }
{
    let all = flag(alloc, query, "all")?;
    let limit = limit_in(alloc, query)?;
    let filter = filters_in(
        alloc,
        query,
        &[
            FilterKey::Id,
            FilterKey::Name,
            FilterKey::State,
            FilterKey::Exited,
            FilterKey::Ancestor,
            FilterKey::Label,
            FilterKey::Volume,
        ],
    )?;
    Ok(Call::List { all, limit, filter })
}

/// The stop that a request asks for.
pub(crate) fn stop_call(alloc: Global, target: Text, query: &str) -> Result<Call, Refused>
    ensures { Reads result (spec.stop_call target query.now) }
{
    let wait = seconds_in(alloc, query)?;
    let signal = signal_in(alloc, query)?;
    Ok(Call::Stop {
        target,
        wait,
        signal,
    })
}

/// The restart that a request asks for.
pub(crate) fn restart_call(alloc: Global, target: Text, query: &str) -> Result<Call, Refused>
    ensures { Reads result (spec.restart_call target query.now) }
{
    let wait = seconds_in(alloc, query)?;
    let signal = signal_in(alloc, query)?;
    Ok(Call::Restart {
        target,
        wait,
        signal,
    })
}

/// The kill that a request asks for.
pub(crate) fn kill_call(alloc: Global, target: Text, query: &str) -> Result<Call, Refused>
    ensures { Reads result (spec.kill_call target query.now) }
{
    let signal = signal_in(alloc, query)?.unwrap_or(KILL);
    Ok(Call::Kill { target, signal })
}

/// The rename that a request asks for.
pub(crate) fn rename_call(alloc: Global, target: Text, query: &str) -> Result<Call, Refused>
    ensures { Reads result (spec.rename_call target query.now) }
{
    let name = new_name(alloc, query)?;
    Ok(Call::Rename { target, name })
}

/// The update that a request asks for.
pub(crate) fn update_call(alloc: Global, target: Text, body: &[u8]) -> Result<Call, Refused>
    ensures { Reads result (spec.update_call target body.now) }
{
    let policy = update_body(alloc, body)?;
    Ok(Call::Update { target, policy })
}

/// The wait that a request asks for.
pub(crate) fn wait_call(alloc: Global, target: Text, query: &str) -> Result<Call, Refused>
    ensures { Reads result (spec.wait_call target query.now) }
{
    let until = condition_in(alloc, query)?;
    Ok(Call::Wait { target, until })
}

/// The removal that a request asks for.
pub(crate) fn remove_call(alloc: Global, target: Text, query: &str) -> Result<Call, Refused>
    ensures { Reads result (spec.remove_call target query.now) }
{
    if flag(alloc, query, "link")? {
        return Err(Refused::Fault(Fault::LinksLeftOut));
    }
    let force = flag(alloc, query, "force")?;
    Ok(Call::Remove { target, force })
}
