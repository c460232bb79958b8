// The outputs of execs, the logs that are kept, and the removals, for streams.
ghost use Rattle.std.specs.Prelude.{◌≡◌, ◌-◌, option_copied};
ghost use Rattle.engine_text.specs.declared.owner.Owner as owners;
ghost use Rattle.machine_model.specs.LogStream.{first_kept_removal, kept_log, log_among, removal_of, took};

use crate::tables::Tables;
use engine_text::{LogRecord, Owner};

impl Tables {
    /// The output of the exec with that number, lent.
    pub fn output_of(&self, number: u64) -> Option<&[LogRecord]>
        ensures { option_copied result ≡ log_among (owners.Owner.Exec number)
            self.now.state.outputs }
    {
        self.execs.output(number)
    }

    /// The log of a removed owner, lent, while it is kept.
    pub fn kept_log(&self, owner: Owner) -> Option<&[LogRecord]>
        ensures { option_copied result ≡ kept_log owner self.now.state }
    {
        self.removals.kept_log(owner)
    }

    /// The number of the removal that took the owner away, counted from 0. It is a walk over all removals.
    pub fn removal_of(&self, owner: Owner) -> Option<usize>
        ensures { result ≡ removal_of self.now.state owner }
    {
        self.removals.removal_of(owner)
    }

    /// The number of the first removal whose logs are kept.
    pub fn first_kept_removal(&self) -> usize
        ensures { result ≡ first_kept_removal self.now.state }
    {
        self.removals.first_kept()
    }
}
