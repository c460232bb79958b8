// The connections that are served, and the daemon that they share.
ghost use Rattle.std.specs.Prelude.{◌≡◌};
ghost use Rattle.door_model.specs.Worsts.{worse_of};
ghost use Rattle.engine_loop.specs.Standing.{why_of};
ghost use Rattle.daemon_core.specs.Passing.{alone_pass, whole_pass};

use crate::coming::Coming;
use crate::connection::Connection;
use daemon_core::{Alone, Daemon};
use door_model::worse_of;
use session_model::Worst;
use std::collections::VecDeque;

/// The connections that are served, in order of number, by one daemon; which may still come; the worst that
/// the endings of those call for that have left; and whether the daemon stops.
#[derive(Drop)]
pub(crate) struct Serving<S, K> {
    pub(crate) turns: Alone,
    pub(crate) connections: VecDeque<Connection<S, K>>,
    pub(crate) coming: Coming,
    pub(crate) worst: Worst,
    pub(crate) stop: bool,
}

impl<S: Drop, K: Drop> Serving<S, K> {
    /// The worst that was called for, and the daemon.
    pub(crate) fn finish(self) -> (Worst, Daemon)
        ensures worst { result.0 ≡ worse_of (why_of self.coming.end) self.worst }
        ensures daemon { whole_pass result.1 ≡ alone_pass self.turns }
    {
        let Serving {
            turns,
            connections: _,
            coming,
            worst,
            stop: _,
        } = self;
        (worse_of(coming.why(), worst), turns.into_daemon())
    }
}
