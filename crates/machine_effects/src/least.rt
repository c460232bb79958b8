// The least of what is due.
ghost use Rattle.std.specs.Prelude.{◌≡◌};
ghost use Rattle.machine_model.specs.Due.{least_due};
ghost use Rattle.machine_tables.specs.LeastDue.{lesser};
ghost use Rattle.machine_events.specs.Ops.{owner_at};

use crate::tables::Tables;
use engine_text::{DueAction, Owner};
use machine_tables::lesser;

impl Tables {
    /// The least of what is due, if something is: of the processes' ops, the deadlines and the timers.
    pub fn least_due(&self) -> Option<DueAction>
        ensures { result ≡ least_due self.now.state }
    {
        lesser(self.processes.least(), self.table.least())
    }

    /// Of the container and the exec with that number the one whose process lives.
    pub fn owner_at(&self, number: u64) -> Owner
        ensures { result ≡ owner_at number self.now.state }
    {
        let main = Owner::Container(number);
        if self.stands(main) {
            main
        } else {
            Owner::Exec(number)
        }
    }
}
