// A connection that is served.
ghost use Rattle.std.specs.Prelude.{◌≡◌, ◌<◌};
ghost use Rattle.polled_ports.specs.PollDoor.{PollLeaveSays, untimed};

use crate::watched::Watched;
use polled_ports::{PollDoor, PollSink, PollSource};
use session_poll::Session;
use std::snapshot::Snapshot;

/// A connection's source and sink.
#[derive(Drop)]
pub(crate) struct Halves<S, K> {
    pub(crate) source: Watched<S>,
    pub(crate) sink: Watched<K>,
}

/// A connection that is served: its number, its parts now and as they came, and its session.
#[derive(Drop)]
pub(crate) struct Connection<S, K> {
    pub(crate) number: u32,
    pub(crate) conn: Halves<S, K>,
    pub(crate) came: Snapshot<Halves<S, K>>,
    pub(crate) session: Session,
}

impl<S, K> Halves<S, K> {
    pub(crate) fn new(source: S, sink: K) -> Halves<S, K>
        ensures { (result.source.port ≡ source) × (result.sink.port ≡ sink) }
    {
        Halves {
            source: Watched::new(source),
            sink: Watched::new(sink),
        }
    }
}

impl<S: PollSource + Drop, K: PollSink + Drop> Connection<S, K> {
    /// Leaves its connection to the door.
    pub(crate) fn leave<D: PollDoor<From = S, Into = K>>(self, door: &mut D)
        requires { 0 < (D.opens door.old).door.owed }
        ensures { PollLeaveSays self.number
            (untimed (S.gives self.conn.source.port) (K.takes self.conn.sink.port))
            (D.opens door.old) (D.opens door.new) }
    {
        let Connection {
            number,
            conn: Halves { source, sink },
            came: _,
            session: _,
        } = self;
        door.leave(number, source.into_port(), sink.into_port());
    }
}
