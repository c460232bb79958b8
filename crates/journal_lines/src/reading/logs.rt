// What is asked of logs and of an attach, of a line's value.
ghost use Rattle.std.specs.Prelude.{◌≡◌};
ghost use Rattle.serde_json.specs.View.{view};
ghost use Rattle.journal_lines.specs.Reading.Parts.{Reads};
ghost use Rattle.journal_lines.specs.Reading.Calls as spec;

use super::options::count_or_null;
use super::parts::{flag_at, natural_at, text_at};
use crate::fault::LineFault;
use engine_text::{AttachAsk, Call, LogAsk};
use serde_json::Value;
use std::alloc::Global;

// Which records are asked for.
fn log_ask_in(value: &Value) -> Result<LogAsk, LineFault>
    ensures { Reads (spec.log_ask_in (view value.now)) result }
{
    let follow = flag_at(value, "follow")?;
    let out = flag_at(value, "out")?;
    let err = flag_at(value, "err")?;
    let stamps = flag_at(value, "stamps")?;
    let tail = count_or_null(value, "tail")?;
    let least = natural_at(value, "least")?;
    let greatest = natural_at(value, "greatest")?;
    Ok(LogAsk {
        follow,
        out,
        err,
        stamps,
        tail,
        least,
        greatest,
    })
}

/// Logs of a container.
pub fn logs_in(alloc: Global, value: &Value) -> Result<Call, LineFault>
    ensures { Reads (spec.logs_in (view value.now)) result }
{
    let target = text_at(alloc, value, "ref")?;
    let ask = log_ask_in(value)?;
    Ok(Call::Logs { target, ask })
}

// What an attach asks for.
fn attach_ask_in(value: &Value) -> Result<AttachAsk, LineFault>
    ensures { Reads (spec.attach_ask_in (view value.now)) result }
{
    let logs = flag_at(value, "logs")?;
    let stream = flag_at(value, "stream")?;
    let stdin = flag_at(value, "stdin")?;
    let out = flag_at(value, "out")?;
    let err = flag_at(value, "err")?;
    Ok(AttachAsk {
        logs,
        stream,
        stdin,
        out,
        err,
    })
}

/// An attach to a container.
pub fn attach_in(alloc: Global, value: &Value) -> Result<Call, LineFault>
    ensures { Reads (spec.attach_in (view value.now)) result }
{
    let target = text_at(alloc, value, "ref")?;
    let ask = attach_ask_in(value)?;
    Ok(Call::Attach { target, ask })
}
