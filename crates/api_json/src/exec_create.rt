// The bodies of exec create and exec start (Docker Engine API v1.43, ContainerExec and ExecStart).
ghost use Rattle.std.specs.Prelude.{MatchResult, ◌≡◌, Ok, Err};
ghost use Rattle.serde_json.specs.View.{view};
ghost use Rattle.api_json.specs.Fault.{Answers, IsRefusal, and_then};
ghost use Rattle.api_json.specs.ExecCreate as spec;
ghost use Rattle.api_json.specs.Lists.{words_field};

use super::fault::{BodyFault, BodyKey, Refused};
use super::fields::{flag, read_body, unset_flag};
use super::lists::words_field;
use engine_text::Words;
use serde_json::{Map, Value};
use std::alloc::Global;

/// What is asked of an exec create.
#[derive(Drop)]
pub struct ExecSpec {
    pub words: Words,
    pub stdin: bool,
    pub out: bool,
    pub err: bool,
}

// The words of an exec, of which there is at least one.
fn read_command(alloc: Global, body: &Value) -> Result<Words, Refused>
    ensures { Answers (and_then (words_field BodyKey.Cmd (view body.now)) spec.not_empty) result }
{
    let words = words_field(alloc, body, BodyKey::Cmd)?;
    if words.len() == 0 {
        return Err(Refused::BadBody(BodyFault::BadField(BodyKey::Cmd)));
    }
    Ok(words)
}

// What the object of an exec create asks.
fn exec_in(alloc: Global, body: &Value) -> Result<ExecSpec, Refused>
    ensures { Answers (spec.exec_in (view body.now)) result }
{
    let words = read_command(alloc, body)?;
    let stdin = flag(body, BodyKey::AttachStdin)?;
    let out = flag(body, BodyKey::AttachStdout)?;
    let err = flag(body, BodyKey::AttachStderr)?;
    unset_flag(body, BodyKey::Tty, BodyFault::TtyLeftOut)?;
    Ok(ExecSpec {
        words,
        stdin,
        out,
        err,
    })
}

/// Reads the body of an exec create: `Cmd` with a word at least, `AttachStdin`, `AttachStdout` and
/// `AttachStderr`, false where they are absent, and no `Tty`.
#[tactic(auto, unfolding(crate::specs::ExecCreate::exec_of))]
pub fn read_exec(alloc: Global, body: &[u8]) -> Result<ExecSpec, Refused>
    ensures { Answers (spec.exec_of body.now) result }
{
    let body = read_body(alloc, body)?;
    exec_in(alloc, &body)
}

// Whether the object of an exec start asks to detach.
fn exec_start_in(body: &Value) -> Result<bool, BodyFault>
    ensures { result ≡ spec.exec_start_in (view body.now) }
{
    let detach = flag(body, BodyKey::Detach)?;
    unset_flag(body, BodyKey::Tty, BodyFault::TtyLeftOut)?;
    Ok(detach)
}

// The object of a body, without members where the body is empty.
fn body_or_empty(alloc: Global, body: &[u8]) -> Result<Value, Refused>
    ensures { MatchResult result
        (λ v. spec.body_or_empty body.now ≡ Ok (view v))
        (λ e. IsRefusal (spec.body_or_empty body.now) e) }
{
    if body.is_empty() {
        return Ok(Value::Object(Map::new(alloc)));
    }
    read_body(alloc, body)
}

/// Reads the body of an exec start, which may be empty: whether it asks to detach (`Detach`, false
/// where it is absent); no `Tty`.
#[tactic(auto, unfolding(crate::specs::ExecCreate::exec_start_of))]
pub fn read_exec_start(alloc: Global, body: &[u8]) -> Result<bool, Refused>
    ensures { Answers (spec.exec_start_of body.now) result }
{
    let body = body_or_empty(alloc, body)?;
    Ok(exec_start_in(&body)?)
}
