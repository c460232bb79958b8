// A stream: its call, and parts of it, each asked for once in a poll.
ghost use Rattle.std.specs.Prelude.{◌≡◌, ◌≤◌, IsSome, IsTrue};
ghost use Rattle.session_model.specs.Pass.{IsNumber};
ghost use Rattle.session_model.specs.Responses.{chunked_form};
ghost use Rattle.attach_hub.specs.Streams.{StandsIn};
ghost use Rattle.session_poll.specs.Streaming.{IsOpenedWhole, OpensBy, StandsFirst, TellingSays, left_behind};

use crate::budget::Budget;
use crate::state::State;
use crate::told::Told;
use daemon_core::Turns;
use engine_ports::Failed;
use engine_text::Reply;
use polled_ports::PollSink;
use polled_steps::{
    Opened, Told as Part, first_of, journal_full, out_of_memory, replied, stream_head, tell_once,
};
use session_model::{Ending, Terms};

/// Where a session stands behind the call of a request for a stream.
pub(crate) fn open_by(opened: Opened, terms: Terms) -> State
    requires { IsOpenedWhole opened }
    ensures { OpensBy opened terms result }
{
    match opened {
        Opened::Streams(reply) => stream(reply, terms),
        Opened::Replied(reply) => State::Sends(replied(terms, reply)),
        Opened::JournalFull => State::Sends(journal_full(terms)),
        Opened::NoMemory => State::Sends(out_of_memory(terms)),
    }
}

/// A stream of which nothing is told yet.
fn stream(reply: Reply, terms: Terms) -> State
    ensures { StandsFirst reply terms result }
{
    let out = stream_head(terms, &reply);
    let place = first_of(&reply);
    State::Streams {
        reply,
        terms,
        place,
        out,
    }
}

/// What is left of a poll behind the call: of a stream that it began as many parts as calls.
pub(crate) fn left_behind(budget: Budget, opened: &Opened) -> Budget
    requires { 1 ≤ budget.turns }
    ensures { result ≡ left_behind budget opened.now }
{
    let turns = budget.turns - 1;
    match opened {
        Opened::Streams(_) => Budget {
            turns,
            parts: turns,
            ..budget
        },
        Opened::Replied(_) => Budget { turns, ..budget },
        Opened::JournalFull | Opened::NoMemory => budget,
    }
}

/// What telling a stream on came to.
#[derive(Drop)]
pub(crate) enum Telling {
    /// These bytes, perhaps none, and more from this place on.
    More { next: u64, bytes: Vec<u8> },
    /// These bytes, perhaps none, are its last.
    Whole(Vec<u8>),
    /// All is told by now, and the peer is there.
    UpToDate,
    Ends(Ending),
}

/// Asks for the next part of a stream.
pub(crate) fn tell_next<T: Turns, K: PollSink>(
    turns: &mut T,
    sink: &mut K,
    told: &Told,
    conn: u32,
    reply: &Reply,
    place: u64,
) -> Telling
    requires number { IsNumber (T.pass turns.old).number conn }
    requires pair { IsTrue (T.pass turns.old).pair }
    requires streams { IsSome (chunked_form reply.now) }
    requires stands { StandsIn (T.pass turns.old).charter (T.pass turns.old).seen reply.now place }
    ensures { TellingSays conn told.now.handed told.now.stop reply.now place result
        (T.pass turns.old) (T.pass turns.new) (K.takes sink.old) (K.takes sink.new) }
{
    match tell_once(turns, told.alloc, conn, told.handed, reply, place) {
        Part::More { next, bytes } => Telling::More { next, bytes },
        Part::Whole(bytes) => Telling::Whole(bytes),
        Part::UpToDate if told.stop => Telling::Ends(Ending::Stopped),
        Part::UpToDate => match sink.probe() {
            Ok(()) => Telling::UpToDate,
            Err(Failed) => Telling::Ends(Ending::WriteFault),
        },
        Part::Gone { next, first } => Telling::Ends(Ending::Lagged { next, first }),
        Part::NoMemory => Telling::Ends(Ending::NoMemory),
    }
}
