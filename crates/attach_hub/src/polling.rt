// Between two turns.
ghost use Rattle.attach_hub.specs.Polling.{PollSays};

use crate::connection::Connection;
use daemon_core::Turns;
use engine_ports::{Clock, Failed, Pause, Sink};

/// How long a wait or a follower pauses between two turns, in milliseconds.
pub(crate) const POLL: u64 = 50;

/// How a pause between two turns ended.
#[derive(Clone, Copy)]
pub(crate) enum Polled {
    /// The next turn comes.
    Again,
    Stopped,
    /// The peer is gone.
    WriteFault,
}

/// Pauses before the next turn, where the peer is still there.
pub(crate) fn poll<W, T: Turns, K: Sink, C: Clock>(conn: &mut Connection<'_, W, T, K, C>) -> Polled
    ensures { PollSays result conn.old conn.new }
{
    match conn.sink.probe() {
        Err(Failed) => Polled::WriteFault,
        Ok(()) => match conn.clock.pause(POLL) {
            Pause::Go => Polled::Again,
            Pause::Stop => Polled::Stopped,
        },
    }
}
