// The end of a pending restart.
ghost use Rattle.std.specs.Prelude.{◌≡◌};
ghost use Rattle.machine_model.specs.Effects.Cancel.{cancel_restart};

use crate::tables::Tables;
use container_table::{LifeChange, Rank};

impl Tables {
    /// The pending restart is given up.
    pub fn cancel_restart(&mut self, number: u64)
        ensures state { self.new.state ≡ (cancel_restart number self.old.state).state }
        ensures room { self.new.room ≡ self.old.room }
        ensures spare { self.new.spare ≡ self.old.spare }
    {
        self.clear_timer(Rank::RestartTimer, number);
        self.renew(number, LifeChange::Cancelled);
    }
}
