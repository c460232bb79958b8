// Standard input of a process.
ghost use Rattle.std.specs.Prelude.{◌≡◌, ◌<◌};
ghost use Rattle.machine_model.specs.Calls.Feed as feeds;
ghost use Rattle.proc_kernel.specs.Tables.{process_of, room_at};

use crate::tables::Tables;
use engine_text::{Bytes, Owner};

impl Tables {
    /// How many bytes the waiting input of the owner's process can still take, 0 without a process.
    pub fn input_room(&self, owner: Owner) -> u64
        ensures { result ≡ room_at (process_of owner self.now.state.processes) }
    {
        self.processes.kernel().input_room(owner)
    }

    /// A piece of input comes to the owner's process.
    pub fn feed(&mut self, owner: Owner, piece: Bytes)
        requires { 0 < self.old.spare }
        ensures state { self.new.state ≡ (feeds.feed_process owner piece self.old.state).state }
        ensures room { self.new.room ≡ self.old.room }
    {
        self.processes.feed(owner, piece, self.clock);
    }

    /// The input of the owner's process ends.
    pub fn end_input(&mut self, owner: Owner)
        ensures state { self.new.state ≡ (feeds.end_input owner self.old.state).state }
        ensures room { self.new.room ≡ self.old.room }
    {
        self.processes.feed_end(owner, self.clock);
    }
}
