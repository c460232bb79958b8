// The bodies and filters of requests, with their faults.
ghost use Rattle.std.specs.Prelude.{None};
ghost use Rattle.api_json.specs.Create.{create_of};
ghost use Rattle.api_json.specs.ExecCreate.{exec_of, exec_start_of};
ghost use Rattle.api_json.specs.Update.{update_of};
ghost use Rattle.api_json.specs.VolumeCreate.{volume_of};
ghost use Rattle.api_routes.specs.Calls.{of_body, filters_in};
ghost use Rattle.api_routes.specs.Reading.{Reads};

use crate::Fault;
use crate::query::value_or_empty;
use crate::refused::Refused;
use api_json::{
    BodyFault, ExecSpec, Refused as BodyRefused, VolumeSpec, read_create, read_exec,
    read_exec_start, read_filter, read_update, read_volume,
};
use engine_text::{CreateSpec, Filter, FilterKey, Policy};
use std::alloc::Global;

/// What the body of a create asks for, without a name.
pub(crate) fn create_body(alloc: Global, body: &[u8]) -> Result<CreateSpec, Refused>
    ensures { Reads result (of_body (create_of None body.now)) }
{
    match read_create(alloc, None, body) {
        Ok(spec) => Ok(spec),
        Err(BodyRefused::BadBody(fault)) => Err(Refused::Fault(Fault::Body(fault))),
        Err(BodyRefused::NoMemory) => Err(Refused::NoMemory),
    }
}

/// The policy that the body of an update gives, if it gives one.
pub(crate) fn update_body(alloc: Global, body: &[u8]) -> Result<Option<Policy>, Refused>
    ensures { Reads result (of_body (update_of body.now)) }
{
    match read_update(alloc, body) {
        Ok(policy) => Ok(policy),
        Err(BodyRefused::BadBody(fault)) => Err(Refused::Fault(Fault::Body(fault))),
        Err(BodyRefused::NoMemory) => Err(Refused::NoMemory),
    }
}

/// What the body of an exec create asks for.
pub(crate) fn exec_body(alloc: Global, body: &[u8]) -> Result<ExecSpec, Refused>
    ensures { Reads result (of_body (exec_of body.now)) }
{
    match read_exec(alloc, body) {
        Ok(spec) => Ok(spec),
        Err(BodyRefused::BadBody(fault)) => Err(Refused::Fault(Fault::Body(fault))),
        Err(BodyRefused::NoMemory) => Err(Refused::NoMemory),
    }
}

/// Whether the body of an exec start asks to detach.
pub(crate) fn exec_start_body(alloc: Global, body: &[u8]) -> Result<bool, Refused>
    ensures { Reads result (of_body (exec_start_of body.now)) }
{
    match read_exec_start(alloc, body) {
        Ok(detach) => Ok(detach),
        Err(BodyRefused::BadBody(fault)) => Err(Refused::Fault(Fault::Body(fault))),
        Err(BodyRefused::NoMemory) => Err(Refused::NoMemory),
    }
}

/// What the body of a volume create asks for.
pub(crate) fn volume_body(alloc: Global, body: &[u8]) -> Result<VolumeSpec, Refused>
    ensures { Reads result (of_body (volume_of body.now)) }
{
    match read_volume(alloc, body) {
        Ok(spec) => Ok(spec),
        Err(BodyRefused::BadBody(fault)) => Err(Refused::Fault(Fault::Body(fault))),
        Err(BodyRefused::NoMemory) => Err(Refused::NoMemory),
    }
}

/// The filter of a query, with the keys of its call.
pub(crate) fn filters_in(alloc: Global, query: &str, keys: &[FilterKey]) -> Result<Filter, Refused>
    ensures { Reads result (filters_in keys.now query.now) }
{
    let text = value_or_empty(alloc, query, "filters")?;
    match read_filter(alloc, text.as_str(), keys) {
        Ok(filter) => Ok(filter),
        Err(BodyRefused::BadBody(fault)) => Err(Refused::Fault(Fault::Body(fault))),
        Err(BodyRefused::NoMemory) => Err(Refused::NoMemory),
    }
}
