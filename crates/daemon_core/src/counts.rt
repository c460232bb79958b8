// The counts of a daemon.
ghost use Rattle.std.specs.Prelude.{◌≡◌, length};
ghost use Rattle.machine_model.specs.History.{events_of, state_after};
ghost use Rattle.daemon_core.specs.Keeping.{history_of};
ghost use Rattle.daemon_core.specs.Passing.{charter};

use crate::daemon::Daemon;

impl Daemon {
    /// How many events there were, and how many containers there are.
    pub fn counts(&self) -> (u64, u64)
        ensures events { result.0 ≡ length
            (events_of (charter self.now) (history_of self.now.stored.journal)) }
        ensures containers { result.1 ≡ length
            (state_after (charter self.now) (history_of self.now.stored.journal)).containers }
    {
        (
            self.stored.ring.count(),
            self.stored.machine.container_count(),
        )
    }
}
