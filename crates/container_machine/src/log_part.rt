// What a log's stream gives from a place on, of the machine.
ghost use Rattle.reading_calls.specs.LogParts.{IsLogPart};

use crate::machine::Machine;
use engine_text::LogSpec;
use reading_calls::{LogPart, part_of};

impl Machine {
    /// What the stream gives from the place on. It walks over the log only where the stream ends with
    /// a run that is over.
    pub fn log_part(&self, spec: &LogSpec, place: u64) -> LogPart<'_>
        ensures { IsLogPart self.now.memory.state spec.now place result }
    {
        part_of(&self.tables, spec, place)
    }
}
