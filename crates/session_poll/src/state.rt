// Where a session stands.
ghost use Rattle.std.specs.Prelude.{◌≡◌};

use engine_text::{Call, Reply};
use polled_model::Cause;
use polled_steps::{Answer, Outgoing};
use session_model::{Ending, Terms};

/// Where a session stands.
#[derive(Drop)]
pub(crate) enum State {
    /// Between two requests, or inside one that isn't whole.
    Reads,
    /// A request is whole, and its call is to be made. Its head comes early, if it gives a ticket.
    Asks {
        call: Call,
        terms: Terms,
        early: bool,
    },
    /// A call gave a ticket, whose end isn't there yet.
    Waits {
        ticket: u64,
        terms: Terms,
    },
    /// The same behind a head that came early, or what of it is written.
    WaitsEarly {
        ticket: u64,
        terms: Terms,
        out: Outgoing,
    },
    /// A request for a stream is whole, and its call is to be made.
    Opens {
        call: Call,
        terms: Terms,
    },
    /// A reply gave a stream, which is told up to a place.
    Streams {
        reply: Reply,
        terms: Terms,
        place: u64,
        out: Outgoing,
    },
    /// An answer is on its way out.
    Sends(Answer),
    /// A refusal is on its way out.
    Refuses {
        out: Outgoing,
        status: u16,
    },
}

/// What a step of a session came to.
#[derive(Clone, Copy, Debug, PartialEq, Eq, Drop)]
pub(crate) enum Step {
    On,
    Pauses(Cause),
    Ends(Ending),
}

/// It stands so from now on.
pub(crate) fn stand(state: &mut State, next: State)
    ensures { state.new ≡ next }
{
    *state = next;
}
