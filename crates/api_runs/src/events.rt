// Event lines, both ways.
use crate::line::{owned, spelled};
use crate::short::Short;
use api_json::{
    Refused, action_word, event_line, kind_word, law_event_line_reads_back, read_event_line,
};
use engine_text::Event;
use std::alloc::Global;

// An event in a line: kind, action, moment and how many attributes it has.
fn shown(alloc: Global, event: &Event) -> Result<String, Short> {
    Ok(format!(in alloc;
        "{} {} {} {}",
        kind_word(event.kind),
        action_word(event.action),
        event.moment,
        event.attributes.len()
    )?)
}

// The event of a line, where the line of its copy is the same, and is read again.
fn read_twice(alloc: Global, line: &[u8]) -> Result<Option<Event>, Refused> {
    let event = read_event_line(alloc, line)?;
    let copy = event.copy(alloc)?;
    let written = event_line(alloc, &copy)?;
    if written.as_slice() != line {
        return Ok(None);
    }
    let again = law_event_line_reads_back(alloc, &event)?;
    Ok(Some(again))
}

/// What is said of an event's line.
pub fn told(alloc: Global, line: &str, _: &str) -> Result<String, Short> {
    let line = spelled(alloc, line)?;
    match read_twice(alloc, line.as_bytes()) {
        Ok(Some(event)) => shown(alloc, &event),
        Ok(None) => owned(alloc, "written otherwise"),
        Err(Refused::BadBody(_)) => owned(alloc, "refused"),
        Err(Refused::NoMemory) => Err(Short),
    }
}
