// `health`, step by step.
ghost use Rattle.std.specs.Prelude.{false, true, Some};
ghost use Rattle.client_model.specs.Plans.{goes_on, prints_all, done};
ghost use Rattle.client_model.specs.Commands.Health as spec;
ghost use Rattle.engine_client.specs.Places.{GoesOn};
ghost use Rattle.engine_client.specs.Steps.{by_check};

use crate::asking::asks;
use crate::onward::Then;
use crate::printing::prints_all;
use crate::reading::read_checked;
use crate::step::Step;
use crate::telling::health_lines;
use client_model::{Checked, Fault, Showing};
use client_parts::requests::containers::inspect_request;
use client_parts::requests::views::container_events_request;
use engine_text::Text;
use std::alloc::Global;

/// It asks for the container's check.
pub(crate) fn asks_check(alloc: Global, until: &Text, target: &Text) -> Result<Step, Fault>
    ensures { GoesOn result false (spec.health_plan until.now target.now) }
{
    let request = inspect_request(alloc, target.as_str());
    let Ok(until) = until.copy(alloc) else {
        return Err(Fault::NoMemory);
    };
    asks(request, false, Showing::Kept, Then::AsksEvents { until })
}

/// It asks for the events of the container.
fn asks_events(alloc: Global, until: &Text, checked: Checked) -> Result<Step, Fault>
    ensures { GoesOn result false (spec.asks_events until.now checked) }
{
    let request = container_events_request(alloc, until.as_str(), checked.id.as_str());
    let Ok(until) = until.copy(alloc) else {
        return Err(Fault::NoMemory);
    };
    asks(
        request,
        false,
        Showing::Kept,
        Then::PrintsHealth { until, checked },
    )
}

/// It asks for the events of the container that was shown, where it has a check.
pub(crate) fn asks_events_by(alloc: Global, until: &Text, body: &Vec<u8>) -> Result<Step, Fault>
    ensures { GoesOn result false
        (goes_on (λ checked. by_check until.now checked) (spec.checked_in body.now.items)) }
{
    match read_checked(alloc, body) {
        Ok(Some(checked)) => asks_events(alloc, until, checked),
        Ok(None) => Err(Fault::NoCheck),
        Err(fault) => Err(fault),
    }
}

/// It prints the changes of health that the events of a body tell, and the health.
fn prints_lines(
    alloc: Global,
    until: &Text,
    checked: &Checked,
    body: &Vec<u8>,
) -> Result<Step, Fault>
    ensures { GoesOn result false (goes_on (λ lines. prints_all lines done)
        (spec.lines_in until.now checked.now body.now.items)) }
{
    match health_lines(alloc, until, checked, body) {
        Ok(lines) => prints_all(alloc, lines.as_slice()),
        Err(fault) => Err(fault),
    }
}

/// The same where these begin with the first.
fn prints_from(
    alloc: Global,
    until: &Text,
    checked: &Checked,
    first: u64,
    body: &Vec<u8>,
) -> Result<Step, Fault>
    ensures { GoesOn result false
        (spec.told_health until.now checked.now (Some first) body.now.items true) }
{
    if first == 0 {
        prints_lines(alloc, until, checked, body)
    } else {
        Err(Fault::EventsGone)
    }
}

/// The same by the number of their first.
pub(crate) fn prints_health(
    alloc: Global,
    until: &Text,
    checked: &Checked,
    first: Option<u64>,
    body: &Vec<u8>,
) -> Result<Step, Fault>
    ensures { GoesOn result false
        (spec.told_health until.now checked.now first body.now.items true) }
{
    match first {
        None => Err(Fault::Answer),
        Some(first) => prints_from(alloc, until, checked, first, body),
    }
}
