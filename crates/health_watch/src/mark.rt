// What of a container's events its health goes by (Docker Engine API v1.43, SystemEvents).
ghost use Rattle.std.specs.Prelude.{◌≡◌};
ghost use Rattle.health_watch.specs.Runs.{turn_by, turn_of};

use engine_text::{Action, Event, EventKind};

/// What an event means for a container's runs.
#[derive(Clone, Copy, PartialEq, Eq, Debug, Drop)]
pub enum Turn {
    Start,
    Die,
    Pause,
    Unpause,
}

/// A turn, and its moment in milliseconds.
#[derive(Clone, Copy, PartialEq, Eq, Debug, Drop)]
pub struct Mark {
    pub turn: Turn,
    pub moment: u64,
}

// What an action means for the runs of its container.
fn turn_by(action: Action) -> Option<Turn>
    ensures { result ≡ turn_by action }
{
    match action {
        Action::Start => Some(Turn::Start),
        Action::Die => Some(Turn::Die),
        Action::Pause => Some(Turn::Pause),
        Action::Unpause => Some(Turn::Unpause),
        _ => None,
    }
}

/// What an event means for the container with that id, if anything.
pub fn turn_of(id: &str, event: &Event) -> Option<Turn>
    ensures { result ≡ turn_of id.now event.now }
{
    match event.kind {
        EventKind::Volume => None,
        EventKind::Container => {
            if event.id.is(id) {
                turn_by(event.action)
            } else {
                None
            }
        }
    }
}
