// Whether standard input can be taken.
ghost use Rattle.std.specs.Prelude.{◌≡◌};
ghost use Rattle.engine_text.specs.declared.call.Call as calls;
ghost use Rattle.machine_model.specs.Ready.{is_ready};

use crate::machine::Machine;
use call_plans::{Run, run_of};
use engine_text::{Bytes, Owner};

impl Machine {
    /// Whether a feed of these bytes can be answered: its run lives and they fit, or it is over.
    pub(super) fn is_feed_ready(&self, owner: Owner, run: u64, bytes: &Bytes) -> bool
        ensures { result ≡ is_ready self.now.memory.state (calls.Call.Feed owner run bytes.now) }
    {
        match run_of(&self.tables, owner, run) {
            Run::Live => bytes.len() as u64 <= self.tables.input_room(owner),
            Run::Over => true,
            Run::Coming => false,
        }
    }

    /// Whether an end of input can be answered: its run has begun, or its owner is gone.
    pub(super) fn is_feed_end_ready(&self, owner: Owner, run: u64) -> bool
        ensures { result ≡ is_ready self.now.memory.state (calls.Call.FeedEnd owner run) }
    {
        match run_of(&self.tables, owner, run) {
            Run::Live => true,
            Run::Over => true,
            Run::Coming => false,
        }
    }
}
