// A call that is ready to be committed.
ghost use Rattle.std.specs.Prelude.{◌≡◌};

use crate::plan::Plan;
use engine_text::{Event, Reply};

/// A call that is ready to be committed: its moment, its reply, its events, and what it does with
/// the memory that this wants.
#[derive(Drop)]
pub struct Prepared {
    pub moment: u64,
    pub reply: Reply,
    pub events: Vec<Event>,
    pub plan: Plan,
}

impl Prepared {
    /// The reply that the commit will give.
    pub fn reply(&self) -> &Reply
        ensures { result.now ≡ self.now.reply }
    {
        &self.reply
    }

    /// The events that the commit will have.
    pub fn events(&self) -> &[Event]
        ensures { result.now ≡ self.now.events.items }
    {
        self.events.as_slice()
    }
}
