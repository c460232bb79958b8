// The lines of a container's health, by its check and its events.
ghost use Rattle.std.specs.Prelude.{◌≡◌, ◌≤◌, ◌&&◌, nat_le, true, Some, OnOk, IfOk};
ghost use Rattle.api_json.specs.Event.{if_there};
ghost use Rattle.client_model.specs.Commands.Health as spec;
ghost use Rattle.client_model.specs.Streams.{events_in};
ghost use Rattle.engine_client.specs.Reading.{ReadsList, ReadsOrFails};
ghost use Rattle.health_watch.specs.Watching.{health_told};
ghost use Rattle.engine_client.specs.Telling.{latest, MayFollow, Sees, Tells, TellsBefore};

use crate::watching::{cut_line, read_event};
use client_model::{Checked, Fault};
use client_parts::{change_line, standing_line, time_of};
use engine_text::{Event, EventKind, HealthSpec, NoMemory, Pair, Text, Words};
use health_watch::Watch;
use std::alloc::Global;

/// The greatest timeout of a check: an hour of milliseconds.
const LONGEST: u64 = 3_600_000;

// ---- events

/// The events of a text of lines.
fn read_events(alloc: Global, body: &[u8]) -> Result<Vec<Event>, Fault>
    ensures { ReadsList result (events_in body.now) }
{
    let mut events = Vec::new(alloc);
    let mut rest = body;
    'lines: while !rest.is_empty() {
        if events.reserve(1).is_err() {
            return Err(Fault::NoMemory);
        }
        let Some((line, behind)) = cut_line(rest) else {
            return Err(Fault::Answer);
        };
        match read_event(alloc, line) {
            Ok(event) => events.push_reserved(event),
            Err(fault) => return Err(fault),
        }
        rest = behind;
    }
    Ok(events)
}

/// Whether a moment lies from one to another.
fn is_between(from: u64, end: u64, moment: u64) -> bool
    ensures { result ≡ (nat_le from moment && nat_le moment end) }
{
    from <= moment && moment <= end
}

/// Whether no event's moment is below the one before it, nor above the end.
fn do_rise(end: u64, events: &[Event]) -> bool
    ensures { result ≡ spec.do_rise end 0 events.now }
{
    let mut from = 0;
    'events: for event in events {
        if !is_between(from, end, event.moment) {
            return false;
        }
        from = event.moment;
    }
    true
}

// ---- changes

/// Tells the changes up to a moment, with the image and the name of these attributes.
fn tell(
    alloc: Global,
    watch: &mut Watch,
    id: &str,
    attributes: &[Pair],
    until: u64,
    lines: &mut Words,
) -> Result<(), NoMemory>
    requires { until ≤ 9999999999999 }
    ensures { OnOk result
        (Tells id.now attributes.now until watch.old watch.new lines.old lines.new) }
{
    'changes: while let Some(change) = watch.next(alloc, until)? {
        lines.push(alloc, change_line(alloc, id, attributes, &change)?)?;
    }
    Ok(())
}

/// Tells the changes before a moment.
fn tell_before(
    alloc: Global,
    watch: &mut Watch,
    id: &str,
    attributes: &[Pair],
    moment: u64,
    lines: &mut Words,
) -> Result<(), NoMemory>
    requires { moment ≤ 9999999999999 }
    ensures { OnOk result
        (TellsBefore id.now attributes.now moment watch.old watch.new lines.old lines.new) }
{
    if moment == 0 {
        return Ok(());
    }
    tell(alloc, watch, id, attributes, moment - 1, lines)
}

/// Tells the changes before an event, and sees it.
fn see(
    alloc: Global,
    watch: &mut Watch,
    id: &str,
    attributes: &[Pair],
    event: &Event,
    lines: &mut Words,
) -> Result<(), NoMemory>
    requires bound { event.now.moment ≤ 9999999999999 }
    requires follows { MayFollow watch.old event.now.moment }
    ensures { OnOk result
        (Sees id.now attributes.now event.now watch.old watch.new lines.old lines.new) }
{
    tell_before(alloc, watch, id, attributes, event.moment, lines)?;
    watch.event(alloc, event)
}

/// The attributes of the container's last event, behind one more.
fn latest<'a>(id: &str, found: &'a [Pair], event: &'a Event) -> &'a [Pair]
    ensures { result.now ≡ latest id.now found.now event.now }
{
    match event.kind {
        EventKind::Volume => found,
        EventKind::Container => {
            if event.id.is(id) {
                event.attributes.as_slice()
            } else {
                found
            }
        }
    }
}

// ---- lines

/// The line of the health that a watch has come to.
fn last_line(alloc: Global, watch: &Watch, id: &str) -> Result<Text, NoMemory>
    ensures { IfOk result (λ t. t ≡ spec.standing_line id.now (health_told watch.now)) }
{
    let (health, streak) = watch.state();
    standing_line(alloc, id, health, streak)
}

/// A line of each change up to the end, and of the health then, by events whose moments rise up to there.
fn lines_of(alloc: Global, checked: &Checked, end: u64, events: &[Event]) -> Result<Words, NoMemory>
    requires bound { end ≤ 9999999999999 }
    requires timed { spec.is_timed checked.now.spec ≡ true }
    requires rising { spec.do_rise end 0 events.now ≡ true }
    ensures { IfOk result (λ lines. lines ≡ spec.health_lines checked.now end events.now) }
{
    let id = checked.id.as_str();
    let mut watch = Watch::new(alloc, checked.id.copy(alloc)?, checked.spec.copy(alloc)?)?;
    let mut lines = Words::new(alloc);
    let mut attributes: &[Pair] = &[];
    'events: for event in events {
        see(alloc, &mut watch, id, attributes, event, &mut lines)?;
        attributes = latest(id, attributes, event);
    }
    tell(alloc, &mut watch, id, attributes, end, &mut lines)?;
    lines.push(alloc, last_line(alloc, &watch, id)?)?;
    Ok(lines)
}

/// The same by any events.
fn lines_if_rising(
    alloc: Global,
    checked: &Checked,
    end: u64,
    events: &[Event],
) -> Result<Words, Fault>
    requires bound { end ≤ 9999999999999 }
    requires timed { spec.is_timed checked.now.spec ≡ true }
    ensures { ReadsOrFails result (if_there (spec.if_rising end events.now)
        (λ es. Some (spec.health_lines checked.now end es))) }
{
    if !do_rise(end, events) {
        return Err(Fault::Answer);
    }
    match lines_of(alloc, checked, end, events) {
        Ok(lines) => Ok(lines),
        Err(_) => Err(Fault::NoMemory),
    }
}

/// The same by a body of events.
fn lines_up_to(alloc: Global, checked: &Checked, end: u64, body: &[u8]) -> Result<Words, Fault>
    requires bound { end ≤ 9999999999999 }
    requires timed { spec.is_timed checked.now.spec ≡ true }
    ensures { ReadsOrFails result
        (if_there (if_there (events_in body.now) (spec.if_rising end))
        (λ es. Some (spec.health_lines checked.now end es))) }
{
    match read_events(alloc, body) {
        Ok(events) => lines_if_rising(alloc, checked, end, &events),
        Err(fault) => Err(fault),
    }
}

/// Whether a check's interval is a millisecond at least, and its timeout an hour at most.
fn is_timed(check: &HealthSpec) -> bool
    ensures { result ≡ spec.is_timed check.now }
{
    1 <= check.interval && check.timeout <= LONGEST
}

/// The lines that a body of events up to UNTIL gives.
pub(crate) fn health_lines(
    alloc: Global,
    until: &Text,
    checked: &Checked,
    body: &[u8],
) -> Result<Words, Fault>
    ensures { ReadsOrFails result (spec.lines_in until.now checked.now body.now) }
{
    let Some(end) = time_of(until.as_str()) else {
        return Err(Fault::Answer);
    };
    if !is_timed(&checked.spec) {
        return Err(Fault::Answer);
    }
    lines_up_to(alloc, checked, end, body)
}
