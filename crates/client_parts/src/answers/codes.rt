// Exit codes of a body.
ghost use Rattle.serde_json.specs.View.{view};
ghost use Rattle.client_model.specs.Bodies as spec;
ghost use Rattle.client_model.specs.Commands.Exec as exec;
ghost use Rattle.client_parts.specs.Reading.{Reads};

use super::fields::data_in;
use crate::Unread;
use serde_json::Value;
use std::alloc::Global;

/// An exit code is below 256.
fn code_of(number: u64) -> Result<u8, Unread>
    ensures { Reads result (spec.code_of number) }
{
    if number < 256 {
        Ok(number as u8)
    } else {
        Err(Unread::NoForm)
    }
}

/// The exit code that data is.
fn code_by(value: &Value) -> Result<u8, Unread>
    ensures { Reads result (spec.code_by (view value.now)) }
{
    let number = value.as_u64().ok_or(Unread::NoForm)?;
    code_of(number)
}

/// `StatusCode`: the exit code of a container.
pub fn status_code_in(alloc: Global, body: &[u8]) -> Result<u8, Unread>
    ensures { Reads result (spec.status_code_in body.now) }
{
    let value = data_in(alloc, body)?;
    let code = value.get("StatusCode").ok_or(Unread::NoForm)?;
    code_by(code)
}

/// The exit code that data is, or none yet where it is null.
#[tactic(auto, using(crate::proofs::CodeLemmas::code_not_null, crate::proofs::CodeLemmas::code_when_null))]
fn code_or_null(value: &Value) -> Result<Option<u8>, Unread>
    ensures { Reads result (exec.code_or_null (view value.now)) }
{
    if value.is_null() {
        return Ok(None);
    }
    Ok(Some(code_by(value)?))
}

/// `ExitCode`: the exit code of an exec, or none yet.
pub fn exit_code_in(alloc: Global, body: &[u8]) -> Result<Option<u8>, Unread>
    ensures { Reads result (exec.exit_code_in body.now) }
{
    let value = data_in(alloc, body)?;
    let code = value.get("ExitCode").ok_or(Unread::NoForm)?;
    code_or_null(code)
}
