// A part of a log's stream.
ghost use Rattle.machine_model.specs.History.{state_after};
ghost use Rattle.daemon_core.specs.Keeping.{history_of};
ghost use Rattle.daemon_core.specs.LogTurns.{LogSays, LogTurn};
ghost use Rattle.daemon_core.specs.Passing.{charter, whole_pass};

use crate::daemon::Daemon;
use crate::frames::append_records;
use engine_text::{LogSpec, NoMemory};
use reading_calls::LogPart;
use session_model::{Part, Turned};
use std::alloc::Global;

impl Daemon {
    // What the log tells now.
    fn read_log(&self, spec: &LogSpec, place: u64, out: &mut Vec<u8>) -> Part
        ensures { LogSays (state_after (charter self.now) (history_of self.now.stored.journal))
            spec.now place result
            out.old.items out.new.items }
    {
        match self.stored.machine.log_part(spec, place) {
            LogPart::More(records) => match append_records(out, spec, records) {
                Ok(passed) => Part::More {
                    next: place + passed as u64,
                },
                Err(NoMemory) => Part::NoMemory,
            },
            LogPart::UpToDate => Part::UpToDate,
            LogPart::Whole => Part::Whole,
            LogPart::Gone { next, first } => Part::Gone { next, first },
        }
    }

    /// A part of a log's stream from a place on, behind all that is due by the moment that counts of
    /// the handed one: its frames are appended. At every other answer `out` is as before.
    pub fn log_from(
        &mut self,
        alloc: Global,
        conn: u32,
        handed: u64,
        spec: &LogSpec,
        place: u64,
        out: &mut Vec<u8>,
    ) -> Part
        ensures { LogTurn conn handed spec.now place result out.old.items out.new.items
            (whole_pass self.old) (whole_pass self.new) }
    {
        match self.turn(alloc, conn, handed, None) {
            Turned::Nothing => self.read_log(spec, place, out),
            Turned::NoMemory => Part::NoMemory,
            Turned::Replied(_) | Turned::Begun { .. } | Turned::NotYet | Turned::JournalFull => {
                unreachable!()
            }
        }
    }
}
