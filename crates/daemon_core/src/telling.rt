// The events of a step with their lines, made before the step, and kept behind it.
ghost use Rattle.std.specs.Prelude.{◌≡◌, ◌+◌, ◌<◌, ◌≤◌, ◌^◌, ◌++◌, IfOk, List, OnErr, length};
ghost use Rattle.engine_text.specs.declared.event.Event.{Event as AnEvent};
ghost use Rattle.event_ring.specs.Ring.{ring_of};
ghost use Rattle.daemon_core.specs.Telling.{AreTimed};

use engine_text::{Event, NoMemory};
use event_ring::{PreparedEvent, Ring};
use machine_model::GREATEST_MOMENT;
use std::alloc::Global;

// The event with its line.
fn with_line(alloc: Global, event: &Event) -> Result<PreparedEvent, NoMemory>
    requires { event.now.moment ≤ GREATEST_MOMENT }
    ensures { IfOk result (λ p. p ≡ event.now) }
{
    let event = event.copy(alloc)?;
    PreparedEvent::of(alloc, event)
}

/// The events with their lines. Where there are none it takes no memory.
pub fn with_lines(alloc: Global, events: &[Event]) -> Result<Vec<PreparedEvent>, NoMemory>
    requires { AreTimed events.now }
    ensures ok { IfOk result (λ lines. lines.items ≡ events.now) }
    ensures err { OnErr result (0 < length events.now) }
{
    let mut lines = Vec::new(alloc);
    for event in events {
        if lines.reserve(1).is_err() {
            return Err(NoMemory);
        }
        let prepared = with_line(alloc, event)?;
        lines.push_reserved(prepared);
    }
    Ok(lines)
}

/// The ring keeps these events behind its own. It takes no memory.
pub fn keep_all(ring: &mut Ring, lines: Vec<PreparedEvent>)
    requires { ring.old.count + length lines.items ≤ 2 ^ 63 }
    ensures { (all : List AnEvent) → ring.old ≡ ring_of all
        → ring.new ≡ ring_of (all ++ lines.items) }
{
    for line in lines {
        ring.push(line);
    }
}
