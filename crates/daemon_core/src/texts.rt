// What a daemon's entries hold.
ghost use Rattle.std.specs.Prelude.{All};
ghost use Rattle.journal_lines.specs.FitsTypes.{EntryFitsTypes};
ghost use Rattle.journal_lines.specs.Entries.{history_entries};
ghost use Rattle.daemon_core.specs.Keeping.{history_of};
ghost use Rattle.daemon_core.specs.Passing.{charter};

use crate::daemon::Daemon;

impl Daemon {
    /// Does nothing: its clause says that each entry of its history is what its types hold.
    pub fn texts(&self)
        ensures { All EntryFitsTypes
            (history_entries (charter self.now) (history_of self.now.stored.journal)) }
    {
        self.stored.journal.texts();
    }
}
