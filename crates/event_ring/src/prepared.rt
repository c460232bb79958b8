// Events with their lines (Docker Engine API v1.43, SystemEvents).
ghost use Rattle.std.specs.Prelude.{◌≡◌, ◌≤◌, IfOk};
ghost use Rattle.api_json.specs.Event.{event_line_text};

use api_json::event_line;
use engine_text::{Bytes, Event, NoMemory};
use std::alloc::Global;
use std::marker::Model;

/// An event and its line, which is written before the event is kept; seen as the event.
#[derive(Drop)]
pub struct PreparedEvent {
    event: Event,
    line: Bytes,
}

impl Model for PreparedEvent {
    ghost use Rattle.std.specs.Prelude.{◌≡◌};
    ghost use Rattle.engine_text.specs.declared.event.Event.{Event as AnEvent};
    ghost use Rattle.api_json.specs.Event.{event_line_text};

    ghost Value = { AnEvent };

    ghost view = { λ p. p.event };

    ghost invariant = { λ p. p.line ≡ event_line_text p.event };
}

impl PreparedEvent {
    /// The event with its line.
    pub fn of(alloc: Global, event: Event) -> Result<PreparedEvent, NoMemory>
        requires { event.moment ≤ 9_000_000_000_000 }
        ensures { IfOk result (λ p. p ≡ event) }
    {
        let line = event_line(alloc, &event)?;
        Ok(PreparedEvent { event, line })
    }

    /// The event.
    pub fn event(&self) -> &Event
        ensures { result.now ≡ self.now }
    {
        &self.event
    }

    /// Its line.
    pub fn line(&self) -> &[u8]
        ensures { result.now ≡ event_line_text self.now }
    {
        self.line.as_slice()
    }

    /// When it was, in milliseconds.
    pub fn moment(&self) -> u64
        ensures { result ≡ self.now.moment }
    {
        self.event.moment
    }
}
