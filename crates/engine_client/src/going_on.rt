// What a command does behind an answer that doesn't refuse.
ghost use Rattle.std.specs.Prelude.{◌≡◌, ℕ, List, Some, true, false};
ghost use Rattle.client_model.specs.Plans.{fails, named};
ghost use Rattle.client_model.specs.Commands.Health.{told_health};
ghost use Rattle.client_model.specs.Commands.Watch.{watched};
ghost use Rattle.client_model.specs.declared.checked.Checked.{Checked};
ghost use Rattle.engine_client.specs.Places.{GoesOn, feeds_at, plan_at};

use crate::checking::{asks_events_by, prints_health};
use crate::onward::Then;
use crate::places::{
    attaches, ends, ends_exec, ends_run, executes, inspects, prints_containers, prints_exit,
    prints_id, prints_volumes, prints_watched, starts, waits,
};
use crate::printing::{prints, prints_body};
use crate::step::Step;
use client_exchange::{Body, cut_fault, fault_to};
use client_model::Fault;
use std::alloc::Global;

/// What `watch` and `health` fail by, where not all of a body came.
fn short_events(first: Option<u64>, body: &Vec<u8>) -> Fault
    ensures watch { watched first body.now.items false ≡ fails result }
    ensures health { (until : List ℕ) (c : Checked)
        → told_health until c first body.now.items false ≡ fails result }
{
    match first {
        None => Fault::Answer,
        Some(0) => cut_fault(body),
        Some(_) => Fault::EventsGone,
    }
}

/// What it fails by, where not all of a body came.
fn short(place: &Then, first: Option<u64>, body: &Vec<u8>) -> Fault
    ensures { plan_at place.now first body.now.items false ≡ fails result }
{
    match place {
        Then::PrintsRows => short_events(first, body),
        Then::PrintsHealth { .. } => short_events(first, body),
        _ => cut_fault(body),
    }
}

/// What it does by a body that came whole, which may be taken.
fn whole(alloc: Global, place: &Then, first: Option<u64>, body: &mut Vec<u8>) -> Result<Step, Fault>
    ensures { GoesOn result (feeds_at place.now) (plan_at place.now first body.old.items true) }
{
    match place {
        Then::Ends { status } => ends(alloc, *status),
        Then::Prints { line } => prints(alloc, line.as_slice()),
        Then::PrintsBody => prints_body(alloc, body),
        Then::PrintsId => prints_id(alloc, body),
        Then::PrintsContainers => prints_containers(alloc, body),
        Then::PrintsVolumes => prints_volumes(alloc, body),
        Then::PrintsCode => prints_exit(alloc, body),
        Then::PrintsRows => prints_watched(alloc, first, body),
        Then::Starts { input, remove } => starts(alloc, *input, *remove, body),
        Then::Attaches { id, input, remove } => attaches(alloc, id, *input, *remove),
        Then::Waits { id, remove } => waits(alloc, id, *remove),
        Then::Removes { id, remove } => ends_run(alloc, id, *remove, body),
        Then::Executes { input } => executes(alloc, *input, body),
        Then::Inspects { id } => inspects(alloc, id),
        Then::EndsExec => ends_exec(alloc, body),
        Then::AsksEvents { until } => asks_events_by(alloc, until, body),
        Then::PrintsHealth { until, checked } => prints_health(alloc, until, checked, first, body),
    }
}

/// What a command does from this place on, by what came of a body, which may be taken.
fn onward(
    alloc: Global,
    place: &Then,
    first: Option<u64>,
    body: &mut Vec<u8>,
    is_whole: bool,
) -> Result<Step, Fault>
    ensures { GoesOn result (feeds_at place.now) (plan_at place.now first body.old.items is_whole) }
{
    if is_whole {
        whole(alloc, place, first, body)
    } else {
        Err(short(place, first, body))
    }
}

/// What a command does from this place on, by an answer that doesn't refuse; a fault of the answer names its request.
pub fn next(alloc: Global, place: &Then, body: Body) -> Result<Step, Fault>
    ensures { GoesOn result (feeds_at place.now) (named body.line (Some body.status)
        (plan_at place.now body.first body.bytes.items body.whole)) }
{
    let Body {
        line,
        status,
        first,
        bytes,
        whole: is_whole,
    } = body;
    let mut bytes = bytes;
    match onward(alloc, place, first, &mut bytes, is_whole) {
        Ok(step) => Ok(step),
        Err(fault) => Err(fault_to(line, Some(status), fault)),
    }
}
