// The steps that are due.
ghost use Rattle.std.specs.Prelude.{◌≡◌, ◌≤◌, false, OnOk};
ghost use Rattle.machine_model.specs.History.{acts_by, latest};
ghost use Rattle.daemon_core.specs.Keeping.{history_of};
ghost use Rattle.daemon_core.specs.Storing.{AddsDues};
ghost use Rattle.daemon_core.specs.Telling.{HasEnds, IsToldBySome, KeepsTold};

use crate::room::has_steps;
use crate::stored::Stored;
use engine_text::NoMemory;
use std::alloc::Global;

impl Stored {
    /// Whether a step is due at or before the moment, and can still be made.
    fn acts(&self, moment: u64) -> bool
        ensures { result ≡ acts_by self.now.machine.memory.state moment }
    {
        self.machine.is_due(moment) && has_steps(&self.machine)
    }

    /// Makes the steps that are due at or before the moment, until there are none, no more can be
    /// made, or memory is refused.
    pub fn run_due(&mut self, alloc: Global, moment: u64) -> Result<(), NoMemory>
        requires until { moment ≤ latest self.old.machine.memory.state }
        requires told { IsToldBySome self.old }
        requires ends { HasEnds self.old }
        ensures made { AddsDues moment self.old.machine.memory.state self.new.machine.memory.state
            (history_of self.old.journal) (history_of self.new.journal) }
        ensures ends { HasEnds self.new }
        ensures told { KeepsTold self.old self.new }
        ensures all { OnOk result (acts_by self.new.machine.memory.state moment ≡ false) }
    {
        'due: while self.acts(moment) {
            self.step_due(alloc)?;
        }
        Ok(())
    }
}
