// A ticket's end, asked for once in a poll.
ghost use Rattle.std.specs.Prelude.{◌≡◌, IsTrue};
ghost use Rattle.session_model.specs.Pass.{IsNumber};
ghost use Rattle.session_model.specs.Turning.{HasBegun};
ghost use Rattle.session_poll.specs.Waiting.{AnswersOver, IsOverWhole, WaitedSays, calls_by};

use crate::told::Told;
use daemon_core::Turns;
use engine_ports::Failed;
use engine_text::Reply;
use polled_ports::PollSink;
use polled_steps::{Answer, Taken, drop_ticket, out_of_memory, replied, stopping, take_once};
use session_model::Terms;

/// What asking for a ticket's end came to.
#[derive(Drop)]
pub(crate) enum Waited {
    NotYet,
    /// The peer is gone, and the ticket was dropped.
    Gone,
    Over(Over),
}

/// How a wait is over.
#[derive(Drop)]
pub(crate) enum Over {
    Replied(Reply),
    /// Memory was refused, and the ticket was dropped.
    NoMemory,
    /// The daemon stops, and the ticket was dropped.
    Stopped,
}

/// Takes the ticket's answer, if it is there; drops the ticket where there is no use in waiting.
pub(crate) fn wait_once<T: Turns, K: PollSink>(
    turns: &mut T,
    sink: &mut K,
    told: &Told,
    conn: u32,
    ticket: u64,
) -> Waited
    requires number { IsNumber (T.pass turns.old).number conn }
    requires pair { IsTrue (T.pass turns.old).pair }
    requires begun { HasBegun (T.pass turns.old).charter conn ticket (T.pass turns.old).seen }
    ensures { WaitedSays conn told.now.handed ticket told.now.stop result
        (T.pass turns.old) (T.pass turns.new) (K.takes sink.old) (K.takes sink.new) }
{
    match take_once(turns, told.alloc, conn, told.handed, ticket) {
        Taken::Replied(reply) => Waited::Over(Over::Replied(reply)),
        Taken::NoMemory => {
            drop_ticket(turns, told.alloc, conn, ticket);
            Waited::Over(Over::NoMemory)
        }
        Taken::NotYet if told.stop => {
            drop_ticket(turns, told.alloc, conn, ticket);
            Waited::Over(Over::Stopped)
        }
        Taken::NotYet => match sink.probe() {
            Ok(()) => Waited::NotYet,
            Err(Failed) => {
                drop_ticket(turns, told.alloc, conn, ticket);
                Waited::Gone
            }
        },
    }
}

/// How many calls were made.
pub(crate) fn calls_of(over: &Over) -> u32
    ensures { result ≡ calls_by over.now }
{
    match over {
        Over::Replied(_) => 1,
        Over::NoMemory | Over::Stopped => 0,
    }
}

/// The answer of a wait that is over.
pub(crate) fn answered(over: Over, terms: Terms) -> Answer
    requires { IsOverWhole over }
    ensures { AnswersOver terms over result }
{
    match over {
        Over::Replied(reply) => replied(terms, reply),
        Over::NoMemory => out_of_memory(terms),
        Over::Stopped => stopping(terms),
    }
}
