// The names and signals of queries.
ghost use Rattle.std.specs.Prelude.{◌≡◌};
ghost use Rattle.api_routes.specs.Keys as spec;
ghost use Rattle.api_routes.specs.Reading.{Reads};

use crate::Fault;
use crate::query::value_or_empty;
use crate::refused::Refused;
use engine_text::{Signal, Text, is_name, read_signal};
use std::alloc::Global;

/// The name that a create asks for.
pub(crate) fn create_name(alloc: Global, query: &str) -> Result<Option<Text>, Refused>
    ensures { Reads result (spec.create_name query.now) }
{
    let name = value_or_empty(alloc, query, "name")?;
    if name.len() == 0 {
        return Ok(None);
    }
    if is_name(name.as_str()) {
        Ok(Some(name))
    } else {
        Err(Refused::Fault(Fault::InvalidName(name)))
    }
}

/// The new name that a rename asks for.
pub(crate) fn new_name(alloc: Global, query: &str) -> Result<Text, Refused>
    ensures { Reads result (spec.new_name query.now) }
{
    let name = value_or_empty(alloc, query, "name")?;
    if is_name(name.as_str()) {
        Ok(name)
    } else {
        Err(Refused::Fault(Fault::InvalidName(name)))
    }
}

/// The signal that is asked for.
pub(crate) fn signal_in(alloc: Global, query: &str) -> Result<Option<Signal>, Refused>
    ensures { Reads result (spec.signal_in query.now) }
{
    let text = value_or_empty(alloc, query, "signal")?;
    if text.len() == 0 {
        return Ok(None);
    }
    match read_signal(text.as_str()) {
        Some(signal) => Ok(Some(signal)),
        None => Err(Refused::Fault(Fault::InvalidSignal(text))),
    }
}
