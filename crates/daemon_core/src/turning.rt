// Turns on the one daemon.
ghost use Rattle.std.specs.Prelude.{ℕ, ◌≤◌, length};
ghost use Rattle.std.specs.Option.{option_map};
ghost use Rattle.machine_model.specs.History.{IsLegal, events_of};
ghost use Rattle.session_model.specs.Pass.{PassView, IsNumber, HasItsCalls};
ghost use Rattle.session_model.specs.Turning.{MayAsk, Turn};
ghost use Rattle.daemon_core.specs.EventTurns.{EventTurn};
ghost use Rattle.daemon_core.specs.JournalTurns.{JournalTurn};
ghost use Rattle.daemon_core.specs.LogTurns.{LogTurn};

use engine_text::{Call, Filter, LogSpec};
use session_model::{Part, Turned};
use std::alloc::Global;

/// Turns on the one daemon, by whoever holds a pass to it.
pub trait Turns: Sized {
    ghost pass: { Self → PassView };

    /// Makes every step that is due at or before the moment that counts of the handed one, in
    /// milliseconds, and then the call. It may want memory, but not for a drop.
    fn turn(&mut self, alloc: Global, conn: u32, handed: u64, call: Option<&Call>) -> Turned
        requires number { IsNumber (pass self.old).number conn }
        requires may { MayAsk (pass self.old).charter conn (pass self.old).seen
            (option_map (λ c. c.now) call) }
        ensures { Turn conn handed (option_map (λ c. c.now) call.entry) result
            (pass self.old) (pass self.new) };

    /// A part of a log's stream from a place on, behind all that is due by the moment that counts of
    /// the handed one: its frames are appended. At every other answer `out` is as before.
    fn log_from(
        &mut self,
        alloc: Global,
        conn: u32,
        handed: u64,
        spec: &LogSpec,
        place: u64,
        out: &mut Vec<u8>,
    ) -> Part
        requires number { IsNumber (pass self.old).number conn }
        ensures { LogTurn conn handed spec.now place result out.old.items out.new.items
            (pass self.old) (pass self.new) };

    /// A part of the stream of events from a number on, behind all that is due by the moment that counts
    /// of the handed one: the lines of those that the filter lets pass, at or before the moment `until`,
    /// are appended. At every other answer `out` is as before.
    fn events_from(
        &mut self,
        alloc: Global,
        conn: u32,
        handed: u64,
        number: u64,
        out: &mut Vec<u8>,
        filter: &Filter,
        until: Option<u64>,
    ) -> Part
        requires number { IsNumber (pass self.old).number conn }
        requires counted { number ≤ length
            (events_of (pass self.old).charter (pass self.old).seen) }
        ensures { EventTurn conn handed filter.now until number result out.old.items out.new.items
            (pass self.old) (pass self.new) };

    /// A part of the journal, as the history stands: the line of that number, the header being line 0, is
    /// appended. No step is made, and no moment counts. At every other answer `out` is as before.
    fn journal_from(&mut self, alloc: Global, conn: u32, number: u64, out: &mut Vec<u8>) -> Part
        requires number { IsNumber (pass self.old).number conn }
        ensures { JournalTurn conn number result out.old.items out.new.items
            (pass self.old) (pass self.new) };

    /// What was seen is legal.
    ghost sound: { (t : Self) → IsLegal (pass t).charter (pass t).seen };

    /// Of the calls that it has seen, just those of its number are its own, and those of each joined
    /// number stand with it.
    ghost counted: { (t : Self) → HasItsCalls (pass t) };
}
