// A part of the journal.
ghost use Rattle.std.specs.Prelude.{◌≡◌, ℕ, ◌≤◌, ◌+◌, ◌++◌, OnErr, OnOk, length};
ghost use Rattle.journal_lines.specs.JournalLines.{header_line, journal_line};
ghost use Rattle.journal_lines.specs.declared.format.Format.TheVariants.{Second};
ghost use Rattle.daemon_core.specs.JournalTurns.{JournalTurn, told_lines};
ghost use Rattle.daemon_core.specs.Keeping.{history_of};
ghost use Rattle.daemon_core.specs.Passing.{charter, whole_pass};

use crate::append::append;
use crate::daemon::Daemon;
use engine_text::{Entry, NoMemory};
use journal_lines::{write_header, write_line};
use session_model::Part;
use std::alloc::Global;

// The header is put behind what stands there.
fn append_header(
    alloc: Global,
    seed: [u8; 32],
    opening: u64,
    out: &mut Vec<u8>,
) -> Result<(), NoMemory>
    ensures ok { OnOk result (out.new.items ≡ out.old.items ++ header_line seed opening) }
    ensures err { OnErr result (out.new.items ≡ out.old.items) }
{
    let line = write_header(alloc, seed, opening)?;
    append(out, line.as_slice())
}

// The line of the entry is put behind those that stand there.
fn append_entry(alloc: Global, entry: &Entry, out: &mut Vec<u8>) -> Result<(), NoMemory>
    ensures ok { OnOk result (out.new.items ≡ out.old.items ++ journal_line Second entry.now) }
    ensures err { OnErr result (out.new.items ≡ out.old.items) }
{
    let line = write_line(alloc, entry, 2)?;
    append(out, line.as_slice())
}

impl Daemon {
    /// The seed of ids, and the moment of the opening in milliseconds.
    pub fn opening(&self) -> ([u8; 32], u64)
        ensures seed { result.0 ≡ (charter self.now).seed }
        ensures opening { result.1 ≡ (charter self.now).opening }
    {
        (self.seed, self.opening)
    }

    // The line of that number is put behind those that stand there: of the header, or of an entry.
    fn append_line(&self, alloc: Global, number: u64, out: &mut Vec<u8>) -> Result<(), NoMemory>
        requires { number ≤ length self.now.stored.journal.entries }
        ensures ok { OnOk result (out.new.items ≡ out.old.items ++ told_lines (charter self.now)
            (history_of self.now.stored.journal) number (number + 1)) }
        ensures err { OnErr result (out.new.items ≡ out.old.items) }
    {
        if number == 0 {
            return append_header(alloc, self.seed, self.opening, out);
        }
        let Some(entry) = self.stored.journal.entry(number - 1) else {
            unreachable!()
        };
        append_entry(alloc, entry, out)
    }

    /// The journal's line of that number is appended, the header being line 0; no step is made, and no moment
    /// counts. At every other answer `out` is as before.
    pub fn journal_from(&self, alloc: Global, number: u64, out: &mut Vec<u8>) -> Part
        ensures { (k : ℕ) → JournalTurn k number result out.old.items out.new.items
            (whole_pass self.now) (whole_pass self.now) }
    {
        if self.stored.journal.len() < number {
            return Part::UpToDate;
        }
        match self.append_line(alloc, number, out) {
            Ok(()) => Part::More { next: number + 1 },
            Err(NoMemory) => Part::NoMemory,
        }
    }
}
