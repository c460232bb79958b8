// The calls of execs and volumes, by their bodies and queries.
ghost use Rattle.api_routes.specs.Calls as spec;
ghost use Rattle.api_routes.specs.Reading.{Reads};

use crate::body::{exec_body, filters_in, volume_body};
use crate::refused::Refused;
use engine_text::{Call, FilterKey, Text};
use std::alloc::Global;

/// The exec create that a request asks for.
pub(crate) fn exec_create_call(alloc: Global, target: Text, body: &[u8]) -> Result<Call, Refused>
    ensures { Reads result (spec.exec_create_call target body.now) }
{
    let exec = exec_body(alloc, body)?;
    Ok(Call::ExecCreate {
        target,
        words: exec.words,
        stdin: exec.stdin,
        out: exec.out,
        err: exec.err,
    })
}

/// The volume create that a request asks for.
pub(crate) fn volume_create_call(alloc: Global, body: &[u8]) -> Result<Call, Refused>
    ensures { Reads result (spec.volume_create_call body.now) }
{
    let volume = volume_body(alloc, body)?;
    Ok(Call::VolumeCreate {
        name: volume.name,
        labels: volume.labels,
    })
}

/// The list of volumes that a request asks for.
pub(crate) fn volume_list_call(alloc: Global, query: &str) -> Result<Call, Refused>
    ensures { Reads result (spec.volume_list_call query.now) }
{
    let filter = filters_in(alloc, query, &[FilterKey::Name])?;
    Ok(Call::VolumeList { filter })
}
