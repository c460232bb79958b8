// Calls of execs and volumes of a line's value, or those by another op.
ghost use Rattle.std.specs.Prelude.{◌≡◌};
ghost use Rattle.serde_json.specs.View.{view};
ghost use Rattle.engine_text.specs.declared.call.Call.TheVariants as call;
ghost use Rattle.journal_lines.specs.Reading.Parts.{Reads};
ghost use Rattle.journal_lines.specs.Reading.Calls as spec;

use super::feeds::own_call;
use super::filter::filter_at;
use super::lists::{pairs_at, words_at};
use super::parts::{flag_at, text_at};
use crate::fault::LineFault;
use engine_text::Call;
use serde_json::Value;
use std::alloc::Global;

// The create of an exec.
fn exec_create_in(alloc: Global, value: &Value) -> Result<Call, LineFault>
    ensures { Reads (spec.exec_create_in (view value.now)) result }
{
    let target = text_at(alloc, value, "ref")?;
    let words = words_at(alloc, value, "words")?;
    let stdin = flag_at(value, "stdin")?;
    let out = flag_at(value, "out")?;
    let err = flag_at(value, "err")?;
    Ok(Call::ExecCreate {
        target,
        words,
        stdin,
        out,
        err,
    })
}

// The start of an exec.
fn exec_start_in(alloc: Global, value: &Value) -> Result<Call, LineFault>
    ensures { Reads (spec.exec_start_in (view value.now)) result }
{
    let id = text_at(alloc, value, "id")?;
    let detach = flag_at(value, "detach")?;
    Ok(Call::ExecStart { id, detach })
}

// The inspect of an exec.
fn exec_inspect_in(alloc: Global, value: &Value) -> Result<Call, LineFault>
    ensures { Reads (spec.exec_inspect_in (view value.now)) result }
{
    let id = text_at(alloc, value, "id")?;
    Ok(Call::ExecInspect { id })
}

// The create of a volume.
fn volume_create_in(alloc: Global, value: &Value) -> Result<Call, LineFault>
    ensures { Reads (spec.volume_create_in (view value.now)) result }
{
    let name = text_at(alloc, value, "name")?;
    let labels = pairs_at(alloc, value, "labels")?;
    Ok(Call::VolumeCreate { name, labels })
}

// The inspect of a volume.
fn volume_inspect_in(alloc: Global, value: &Value) -> Result<Call, LineFault>
    ensures { Reads (spec.volume_in call.VolumeInspect (view value.now)) result }
{
    let name = text_at(alloc, value, "name")?;
    Ok(Call::VolumeInspect { name })
}

// The removal of a volume.
fn volume_remove_in(alloc: Global, value: &Value) -> Result<Call, LineFault>
    ensures { Reads (spec.volume_in call.VolumeRemove (view value.now)) result }
{
    let name = text_at(alloc, value, "name")?;
    Ok(Call::VolumeRemove { name })
}

// A list of volumes.
fn volume_list_in(alloc: Global, value: &Value) -> Result<Call, LineFault>
    ensures { Reads (spec.volume_list_in (view value.now)) result }
{
    let filter = filter_at(alloc, value, "filters")?;
    Ok(Call::VolumeList { filter })
}

/// A call of an exec or a volume, or one that isn't of a container.
#[tactic(auto, unfolding(crate::specs::Reading::Calls::other_call))]
pub fn other_call(alloc: Global, op: &str, value: &Value) -> Result<Call, LineFault>
    ensures { Reads (spec.other_call op.now (view value.now)) result }
{
    match op {
        "exec_create" => exec_create_in(alloc, value),
        "exec_start" => exec_start_in(alloc, value),
        "exec_inspect" => exec_inspect_in(alloc, value),
        "volume_create" => volume_create_in(alloc, value),
        "volume_inspect" => volume_inspect_in(alloc, value),
        "volume_remove" => volume_remove_in(alloc, value),
        "volume_list" => volume_list_in(alloc, value),
        _ => own_call(alloc, op, value),
    }
}
