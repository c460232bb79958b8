// Calls of containers of a line's value, by their ops.
ghost use Rattle.std.specs.Prelude.{◌≡◌};
ghost use Rattle.serde_json.specs.View.{view};
ghost use Rattle.engine_text.specs.declared.call.Call.TheVariants as call;
ghost use Rattle.journal_lines.specs.Reading.Parts.{Reads};
ghost use Rattle.journal_lines.specs.Reading.Calls as spec;

use super::create::{create_in, policy_if_given};
use super::execs::other_call;
use super::filter::filter_at;
use super::logs::{attach_in, logs_in};
use super::options::{count_or_null, seconds_or_null, signal_or_null};
use super::parts::{flag_at, signal_at, text_at, word_at};
use crate::fault::LineFault;
use engine_text::{Call, Until};
use serde_json::Value;
use std::alloc::Global;

// A start.
fn start_in(alloc: Global, value: &Value) -> Result<Call, LineFault>
    ensures { Reads (spec.named_in call.Start (view value.now)) result }
{
    let target = text_at(alloc, value, "ref")?;
    Ok(Call::Start { target })
}

// A pause.
fn pause_in(alloc: Global, value: &Value) -> Result<Call, LineFault>
    ensures { Reads (spec.named_in call.Pause (view value.now)) result }
{
    let target = text_at(alloc, value, "ref")?;
    Ok(Call::Pause { target })
}

// An unpause.
fn unpause_in(alloc: Global, value: &Value) -> Result<Call, LineFault>
    ensures { Reads (spec.named_in call.Unpause (view value.now)) result }
{
    let target = text_at(alloc, value, "ref")?;
    Ok(Call::Unpause { target })
}

// An inspect.
fn inspect_in(alloc: Global, value: &Value) -> Result<Call, LineFault>
    ensures { Reads (spec.named_in call.Inspect (view value.now)) result }
{
    let target = text_at(alloc, value, "ref")?;
    Ok(Call::Inspect { target })
}

// A stop.
fn stop_in(alloc: Global, value: &Value) -> Result<Call, LineFault>
    ensures { Reads (spec.stop_in call.Stop (view value.now)) result }
{
    let target = text_at(alloc, value, "ref")?;
    let wait = seconds_or_null(value, "t")?;
    let signal = signal_or_null(value, "signal")?;
    Ok(Call::Stop {
        target,
        wait,
        signal,
    })
}

// A restart.
fn restart_in(alloc: Global, value: &Value) -> Result<Call, LineFault>
    ensures { Reads (spec.stop_in call.Restart (view value.now)) result }
{
    let target = text_at(alloc, value, "ref")?;
    let wait = seconds_or_null(value, "t")?;
    let signal = signal_or_null(value, "signal")?;
    Ok(Call::Restart {
        target,
        wait,
        signal,
    })
}

// A kill.
fn kill_in(alloc: Global, value: &Value) -> Result<Call, LineFault>
    ensures { Reads (spec.kill_in (view value.now)) result }
{
    let target = text_at(alloc, value, "ref")?;
    let signal = signal_at(value, "signal")?;
    Ok(Call::Kill { target, signal })
}

// A rename.
fn rename_in(alloc: Global, value: &Value) -> Result<Call, LineFault>
    ensures { Reads (spec.rename_in (view value.now)) result }
{
    let target = text_at(alloc, value, "ref")?;
    let name = text_at(alloc, value, "name")?;
    Ok(Call::Rename { target, name })
}

// An update.
fn update_in(alloc: Global, value: &Value) -> Result<Call, LineFault>
    ensures { Reads (spec.update_in (view value.now)) result }
{
    let target = text_at(alloc, value, "ref")?;
    let policy = policy_if_given(value)?;
    Ok(Call::Update { target, policy })
}

// A removal.
fn remove_in(alloc: Global, value: &Value) -> Result<Call, LineFault>
    ensures { Reads (spec.remove_in (view value.now)) result }
{
    let target = text_at(alloc, value, "ref")?;
    let force = flag_at(value, "force")?;
    Ok(Call::Remove { target, force })
}

// What a wait waits for.
fn until_of(word: &str) -> Result<Until, LineFault>
    ensures { Reads (spec.until_of word.now) result }
{
    match word {
        "not-running" => Ok(Until::NotRunning),
        "next-exit" => Ok(Until::NextExit),
        "removed" => Ok(Until::Removed),
        _ => Err(LineFault::BadLine),
    }
}

// A wait.
fn wait_in(alloc: Global, value: &Value) -> Result<Call, LineFault>
    ensures { Reads (spec.wait_in (view value.now)) result }
{
    let target = text_at(alloc, value, "ref")?;
    let word = word_at(value, "condition")?;
    let until = until_of(word)?;
    Ok(Call::Wait { target, until })
}

// A list of containers.
fn list_in(alloc: Global, value: &Value) -> Result<Call, LineFault>
    ensures { Reads (spec.list_in (view value.now)) result }
{
    let all = flag_at(value, "all")?;
    let limit = count_or_null(value, "limit")?;
    let filter = filter_at(alloc, value, "filters")?;
    Ok(Call::List { all, limit, filter })
}

// A call that looks at containers, or one that isn't of a container.
#[tactic(auto, unfolding(crate::specs::Reading::Calls::looking_call))]
fn looking_call(alloc: Global, op: &str, value: &Value) -> Result<Call, LineFault>
    ensures { Reads (spec.looking_call op.now (view value.now)) result }
{
    match op {
        "wait" => wait_in(alloc, value),
        "inspect" => inspect_in(alloc, value),
        "list" => list_in(alloc, value),
        "logs" => logs_in(alloc, value),
        "attach" => attach_in(alloc, value),
        _ => other_call(alloc, op, value),
    }
}

// A call by its op.
#[tactic(auto, unfolding(crate::specs::Reading::Calls::named_call))]
fn named_call(alloc: Global, op: &str, value: &Value) -> Result<Call, LineFault>
    ensures { Reads (spec.named_call op.now (view value.now)) result }
{
    match op {
        "create" => create_in(alloc, value),
        "start" => start_in(alloc, value),
        "stop" => stop_in(alloc, value),
        "restart" => restart_in(alloc, value),
        "kill" => kill_in(alloc, value),
        "pause" => pause_in(alloc, value),
        "unpause" => unpause_in(alloc, value),
        "rename" => rename_in(alloc, value),
        "update" => update_in(alloc, value),
        "remove" => remove_in(alloc, value),
        _ => looking_call(alloc, op, value),
    }
}

/// A call.
pub fn call_in(alloc: Global, value: &Value) -> Result<Call, LineFault>
    ensures { Reads (spec.call_in (view value.now)) result }
{
    let op = word_at(value, "op")?;
    named_call(alloc, op, value)
}
