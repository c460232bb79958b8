// The signal of a kill.
ghost use Rattle.std.specs.Prelude.{◌≡◌, ◌<◌, ◌≤◌, length};
ghost use Rattle.machine_model.specs.Calls.Kill.{deliver};
ghost use Rattle.machine_events.specs.Fit.{AreTimely, CanEndBy, died_of};

use crate::tables::Tables;
use container_table::LifeChange;
use engine_text::Signal;
use machine_events::EndMemory;

impl Tables {
    /// The signal of a kill, which may be a final one.
    pub fn deliver(
        &mut self,
        last: bool,
        sent: Signal,
        number: u64,
        brought: EndMemory,
    ) -> Option<u8>
        requires signal { sent.number < 32 }
        requires timely { AreTimely self.old.state }
        requires room { length self.old.state.execs ≤ self.old.room.scratch }
        requires end { CanEndBy (deliver last sent.number number) number brought self.old.room
            self.old.state }
        requires spare { 0 < self.old.spare }
        ensures state { self.new.state ≡ (deliver last sent.number number self.old.state).state }
        ensures died { died_of number result
            ≡ (deliver last sent.number number self.old.state).died }
        ensures room { self.new.room ≡ self.old.room }
    {
        if last {
            self.renew(number, LifeChange::ByHand);
            self.meet_signal(sent, number, brought)
        } else {
            self.send(sent, false, number, brought)
        }
    }
}
