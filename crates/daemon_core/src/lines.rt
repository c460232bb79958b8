// The lines of events (Docker Engine API v1.43, SystemEvents, definition EventMessage).
ghost use Rattle.std.specs.Prelude.{◌≡◌, ◌∷◌, ◌++◌, [], IfOk, OnErr, OnOk, nat_le, true};
ghost use Rattle.std.specs.Option.{option_map_or};
ghost use Rattle.machine_model.specs.EventLines.{is_told, lines_of};
ghost use Rattle.daemon_core.specs.Framing.{Longer};
ghost use Rattle.daemon_core.specs.Telling.{PassesEvents};

use crate::append::append;
use engine_text::{Event, Filter, NoMemory};
use event_ring::{PreparedEvent, RingPart, matches};

/// The bytes that a part has at least before it ends with its line.
const PART: usize = 32_768;

/// The events over which a part passes at most.
const EVENTS: usize = 4096;

/// Whether the moment lies at or before that one, where one is given.
fn is_until(until: Option<u64>, moment: u64) -> bool
    ensures { result ≡ option_map_or (λ u. nat_le moment u) until true }
{
    match until {
        None => true,
        Some(until) => moment <= until,
    }
}

// Whether the event passes the filter, and lies at or before the moment.
fn is_told(filter: &Filter, until: Option<u64>, event: &Event) -> bool
    ensures { result ≡ is_told filter.now until event.now }
{
    matches(filter, event) && is_until(until, event.moment)
}

// The line of the event, if it is told.
fn put_told(
    out: &mut Vec<u8>,
    filter: &Filter,
    until: Option<u64>,
    prepared: &PreparedEvent,
) -> Result<(), NoMemory>
    ensures ok { OnOk result
        (out.new.items ≡ out.old.items ++ lines_of filter.now until (prepared.now ∷ [])) }
    ensures err { OnErr result (out.new.items ≡ out.old.items) }
{
    if is_told(filter, until, prepared.event()) {
        return append(out, prepared.line());
    }
    Ok(())
}

// The lines of this event and of the first of the rest; the count of those that were passed.
fn put_lines(
    out: &mut Vec<u8>,
    filter: &Filter,
    until: Option<u64>,
    first: &PreparedEvent,
    rest: RingPart<'_>,
) -> Result<usize, NoMemory>
    ensures ok { IfOk result (λ n. PassesEvents filter.now until (first.now ∷ rest.entry) n
        out.old.items out.new.items) }
    ensures err { OnErr result (Longer out.old.items out.new.items) }
{
    let full = out.len().saturating_add(PART);
    let mut rest = rest;
    let mut passed = 1;
    put_told(out, filter, until, first)?;
    'lines: while passed < EVENTS && out.len() < full {
        let Some(prepared) = rest.next() else {
            return Ok(passed);
        };
        put_told(out, filter, until, prepared)?;
        passed += 1;
    }
    Ok(passed)
}

/// Appends the lines of this event and of the first of the rest, as they are told, and tells how many
/// events it passed, told or not. Without memory nothing is appended.
pub fn append_lines(
    out: &mut Vec<u8>,
    filter: &Filter,
    until: Option<u64>,
    first: &PreparedEvent,
    rest: RingPart<'_>,
) -> Result<usize, NoMemory>
    ensures ok { IfOk result (λ n. PassesEvents filter.now until (first.now ∷ rest.entry) n
        out.old.items out.new.items) }
    ensures err { OnErr result (out.new.items ≡ out.old.items) }
{
    let before = out.len();
    let passed = put_lines(out, filter, until, first, rest);
    if passed.is_err() {
        out.truncate(before);
    }
    passed
}
