// The last events, and what events tell of containers.
ghost use Rattle.std.specs.Prelude.{◌≡◌, ◌≤◌, IfOk};

use crate::line::{cut, number, owned, spelled};
use crate::short::Short;
use api_json::read_event_line;
use engine_text::{Action, Event, EventKind, NoMemory, Pairs, Text};
use event_ring::{Fold, FromRing, PreparedEvent, Ring};
use std::alloc::Global;

/// The most events that are pushed.
const MOST: u64 = 1_000_000;

// An event at that moment.
fn event_at(alloc: Global, moment: u64) -> Event
    ensures { result.moment ≡ moment }
{
    Event {
        kind: EventKind::Container,
        action: Action::Start,
        id: Text::new(alloc),
        attributes: Pairs::new(alloc),
        moment,
    }
}

// A ring after so many events, each at the moment of its number.
fn ring_after(alloc: Global, count: u64) -> Result<Ring, NoMemory>
    requires { count ≤ 9_000_000_000_000 }
    ensures { IfOk result (λ r. r.count ≡ count) }
{
    let mut ring = Ring::new(alloc)?;
    'events: for moment in 0..count {
        let prepared = PreparedEvent::of(alloc, event_at(alloc, moment))?;
        ring.push(prepared);
    }
    Ok(ring)
}

// What the ring has from a number on.
fn from(alloc: Global, ring: &Ring, place: u64) -> Result<String, Short> {
    if ring.count() < place {
        return owned(alloc, "no such number");
    }
    match ring.from(place) {
        FromRing::Slice(_) => owned(alloc, "some"),
        FromRing::UpToDate => owned(alloc, "up to date"),
        FromRing::Lagged { next, first } => {
            Ok(format!(in alloc; "{next} is gone, {first} is there")?)
        }
    }
}

// What `from NUMBER` or `at MOMENT` asks.
fn asked(alloc: Global, ring: &Ring, field: &str) -> Result<String, Short> {
    match field.strip_prefix("from ") {
        Some(place) => from(alloc, ring, number(place)),
        None => {
            let moment = field.strip_prefix("at ").unwrap_or("");
            Ok(format!(in alloc; "{}", ring.first_at(number(moment)))?)
        }
    }
}

// The answers behind so many events, with a bar between each two.
fn pushed(alloc: Global, rest: &str) -> Result<String, Short> {
    let (count, rest) = cut(rest);
    let ring = ring_after(alloc, number(count).min(MOST))?;
    let mut told = String::new(alloc);
    for field in rest.split('|') {
        let said = asked(alloc, &ring, field)?;
        write!(told, "{said} | ")?;
    }
    Ok(told)
}

// Adds the event of a line, unless it is none or there is no memory.
fn add(fold: &mut Fold, alloc: Global, line: &[u8]) -> Option<()> {
    let event = read_event_line(alloc, line).ok()?;
    fold.fold_step(alloc, &event).ok()
}

// How many rows these lines tell, and the code of the last one.
fn rows(alloc: Global, lines: &str) -> Result<String, Short> {
    let mut fold = Fold::new(alloc)?;
    for field in lines.split('|') {
        let line = spelled(alloc, field)?;
        if add(&mut fold, alloc, line.as_bytes()).is_none() {
            return owned(alloc, "no event");
        }
    }
    match fold.rows().last() {
        Some(row) => Ok(format!(in alloc; "{} rows, code {}", fold.rows().len(), row.code)?),
        None => owned(alloc, "no rows"),
    }
}

/// What is said of events.
pub fn told(alloc: Global, kind: &str, rest: &str) -> Result<String, Short> {
    match kind {
        "pushed" => pushed(alloc, rest),
        "rows" => rows(alloc, rest),
        _ => owned(alloc, "no such kind"),
    }
}
