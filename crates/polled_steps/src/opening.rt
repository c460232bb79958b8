// Turns with calls that give a stream.
ghost use Rattle.std.specs.Prelude.{◌≡◌, IsTrue, is_some};
ghost use Rattle.engine_text.specs.Soundness.{IsSound};
ghost use Rattle.session_model.specs.Pass.{IsNumber};
ghost use Rattle.session_model.specs.Responses.{chunked_form};
ghost use Rattle.exchange_laws.specs.Kinds.{IsStreamed};
ghost use Rattle.polled_steps.specs.Opening.{IsOpenedBy, OpensOnce};

use crate::turning::turn;
use daemon_core::Turns;
use engine_text::{Call, Reply};
use session_model::Turned;
use std::alloc::Global;

/// What a turn with the call of a request for a stream came to.
#[derive(Drop)]
pub enum Opened {
    /// Its reply gives a stream.
    Streams(Reply),
    Replied(Reply),
    JournalFull,
    NoMemory,
}

/// Whether a reply gives a stream.
fn gives_stream(reply: &Reply) -> bool
    ensures { result ≡ is_some (chunked_form reply.now) }
{
    match reply {
        Reply::LogStream { .. } | Reply::EventStream { .. } | Reply::JournalStream { .. } => true,
        Reply::Answer { .. } | Reply::Begun { .. } | Reply::Fed { .. } | Reply::Dropped => false,
    }
}

fn by_reply(reply: Reply) -> Opened
    ensures { IsOpenedBy reply result }
{
    if gives_stream(&reply) {
        return Opened::Streams(reply);
    }
    Opened::Replied(reply)
}

/// Makes the call of a request that is answered by a stream, or whole.
pub fn open_once<T: Turns>(
    turns: &mut T,
    alloc: Global,
    conn: u32,
    handed: u64,
    call: &Call,
) -> Opened
    requires number { IsNumber (T.pass turns.old).number conn }
    requires pair { IsTrue (T.pass turns.old).pair }
    requires sound { IsSound call.now }
    requires streamed { IsStreamed call.now }
    ensures { OpensOnce conn handed call.now result (T.pass turns.old) (T.pass turns.new) }
{
    match turn(turns, alloc, conn, handed, call) {
        Turned::Replied(reply) => by_reply(reply),
        Turned::JournalFull => Opened::JournalFull,
        Turned::NoMemory => Opened::NoMemory,
        Turned::Begun { .. } | Turned::NotYet | Turned::Nothing => unreachable!(),
    }
}
