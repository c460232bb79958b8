// Attach: the event, and the stream of a container's records, in every state.
ghost use Rattle.std.specs.Prelude.{◌≡◌, ◌<◌, ◌^◌, ◌&&◌, if◌then◌else◌, Some, IfOk};
ghost use Rattle.machine_model.specs.Calls.Attach as spec;
ghost use Rattle.machine_model.specs.State.{container_numbered};
ghost use Rattle.container_table.specs.Logs.{container_in};
ghost use Rattle.call_plans.specs.Making.{Makes};

use call_plans::{Plan, Prepared, run_if};
use container_table::Held;
use engine_text::{Action, AttachAsk, LogSpec, NoMemory, Owner, Reply, Status, StopRule};
use machine_effects::Tables;
use machine_events::{add, plain_event};
use machine_model::FAR;
use std::alloc::Global;

// The current run, the next one or the last one.
fn followed_run(status: Status, starts: u64) -> u64
    requires { starts < 2 ^ 63 }
    ensures { result ≡ spec.followed_run status starts }
{
    match status {
        Status::Created | Status::Restarting => starts + 1,
        Status::Running | Status::Paused | Status::Removing | Status::Exited | Status::Dead =>
            starts,
    }
}

// The run that an attach to the container follows.
fn run_of(h: &Held) -> u64
    requires { h.now.container.life.starts < 2 ^ 63 }
    ensures { result ≡ spec.run_of (container_in h.now) }
{
    followed_run(h.container.life.status, h.container.life.starts)
}

// The log's begin, or its length.
fn first_place(logs: bool, size: u64) -> u64
    ensures { result ≡ (if logs then 0 else size) }
{
    if logs { 0 } else { size }
}

// Where the stream ends: with the run, or at the log's length.
fn stop_rule(follow: bool, h: &Held) -> StopRule
    requires { h.now.container.life.starts < 2 ^ 63 }
    ensures { result ≡ spec.stop_rule follow (container_in h.now) }
{
    if follow {
        StopRule::RunEnd(run_of(h))
    } else {
        StopRule::At(h.log.as_slice().len() as u64)
    }
}

// Whether standard input is asked for, and open.
fn has_input(ask: &AttachAsk, h: &Held) -> bool
    ensures { result ≡ (ask.now.stdin && (container_in h.now).life.open_stdin) }
{
    ask.stdin && h.container.life.open_stdin
}

// The stream.
fn attach_spec(ask: &AttachAsk, h: &Held) -> LogSpec
    requires { h.now.container.life.starts < 2 ^ 63 }
    ensures { result ≡ spec.attach_spec ask.now (container_in h.now) }
{
    let size = h.log.as_slice().len() as u64;
    LogSpec {
        owner: Owner::Container(h.container.number),
        out: ask.out,
        err: ask.err,
        stamps: false,
        first: first_place(ask.logs, size),
        stop: stop_rule(ask.stream, h),
        least: 0,
        greatest: FAR,
        feed: run_if(has_input(ask, h), run_of(h)),
    }
}

/// Makes an attach ready.
pub fn prepare(
    tables: &Tables,
    alloc: Global,
    moment: u64,
    h: &Held,
    ask: &AttachAsk,
) -> Result<Prepared, NoMemory>
    requires stands { container_numbered h.now.container.number tables.now.state
        ≡ Some (container_in h.now) }
    requires starts { h.now.container.life.starts < 2 ^ 63 }
    ensures { IfOk result (λ p. Makes p moment tables.now.state
        (spec.attach_outcome ask.now (container_in h.now))) }
{
    let mut events = Vec::new(alloc);
    let event = plain_event(alloc, Action::Attach, &h.container, moment)?;
    add(&mut events, event)?;
    let spec = attach_spec(ask, h);
    let number = h.container.number;
    Ok(Prepared {
        moment,
        reply: Reply::LogStream { spec },
        events,
        plan: Plan::Attach { number },
    })
}
