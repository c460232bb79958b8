// What is said of a journal (own: its lines are read from the first on, and its calls are made again).
ghost use Rattle.std.specs.Prelude.{◌≤◌, IfOk};
ghost use Rattle.machine_model.specs.State.{initial_state};
ghost use Rattle.machine_model.specs.History.{greatest_moment};
ghost use Rattle.journal_lines.specs.JournalLines.{IsFormat, format_of, journal_line};
ghost use Rattle.journal_lines.specs.Line.{HasLine};
ghost use Rattle.journal_lines.specs.Verdict.{IsVerdict, IsVerdictFrom};
ghost use Rattle.journal_lines.specs.declared.format.Format as formats;
ghost use Rattle.history_replay.specs.Cutting.{IsFirstLine};
ghost use Rattle.history_replay.specs.Checking.{charter_of, IsLineSaid, IsMade};

use super::cut::cut_line;
use super::entry::{Said, check_entry};
use super::head::head_of;
use super::remaking::Replays;
use container_machine::Machine;
use engine_text::{Entry, NoMemory};
use journal_lines::{LineFault, Verdict, read_line};
use std::alloc::Global;

// What is said of the line of an entry, in each format: none where it is right, and the machine was
// brought behind it.
fn say<M: Replays>(
    machine: &mut M,
    alloc: Global,
    entry: &Entry,
    line: u64,
) -> Result<Option<Verdict>, NoMemory>
    requires { HasLine entry.now }
    ensures { (format : formats.Format) → IfOk result (λ said. IsLineSaid format
        (M.standing machine.old) line (journal_line format entry.now) (M.standing machine.new)
        said) }
{
    match check_entry(machine, alloc, entry)? {
        Said::Right => Ok(None),
        Said::Wrong { kept, found } => Ok(Some(Verdict::Illegal { line, kept, found })),
    }
}

// The same, and the entry is let go.
fn say_once<M: Replays>(
    machine: &mut M,
    alloc: Global,
    entry: Entry,
    line: u64,
) -> Result<Option<Verdict>, NoMemory>
    requires { HasLine entry }
    ensures { (format : formats.Format) → IfOk result (λ said. IsLineSaid format
        (M.standing machine.old) line (journal_line format entry) (M.standing machine.new) said) }
{
    say(machine, alloc, &entry, line)
}

// What is said of a line.
fn check_line<M: Replays>(
    machine: &mut M,
    alloc: Global,
    format: u8,
    bytes: &[u8],
    line: u64,
) -> Result<Option<Verdict>, NoMemory>
    requires first { IsFirstLine bytes.now }
    requires format { IsFormat format }
    ensures { IfOk result (λ said. IsLineSaid (format_of format) (M.standing machine.old) line
        bytes.now (M.standing machine.new) said) }
{
    match read_line(alloc, bytes, format) {
        Ok(entry) => say_once(machine, alloc, entry, line),
        Err(LineFault::BadLine) => Ok(Some(Verdict::BadLine { line })),
        Err(LineFault::NoMemory) => Err(NoMemory),
    }
}

/// What is said of lines of that format, by the machine at their beginning, the first line having
/// that number. Behind legal ones the machine has made all steps that they tell; behind others it
/// stands somewhere.
pub fn check_lines<M: Replays>(
    machine: &mut M,
    alloc: Global,
    format: u8,
    first: u64,
    text: &[u8],
) -> Result<Verdict, NoMemory>
    requires format { IsFormat format }
    requires first { first ≤ 2 }
    ensures said { IfOk result (λ v. IsVerdictFrom (format_of format)
        (M.standing machine.old).state first text.now v) }
    ensures made { IfOk result (λ v. IsMade (format_of format) (M.standing machine.old) text.now
        (M.standing machine.new) v) }
{
    let mut rest = text;
    let mut line = first;
    'lines: while !rest.is_empty() {
        let Some((bytes, behind)) = cut_line(rest) else {
            return Ok(Verdict::BadLine { line });
        };
        if let Some(verdict) = check_line(machine, alloc, format, bytes, line)? {
            return Ok(verdict);
        }
        rest = behind;
        line += 1;
    }
    let steps = machine.bare().steps();
    Ok(Verdict::Legal { steps })
}

// The same, from an opening on.
fn check_from(
    alloc: Global,
    seed: [u8; 32],
    opening: u64,
    format: u8,
    first: u64,
    text: &[u8],
) -> Result<Verdict, NoMemory>
    requires opening { opening ≤ greatest_moment }
    requires format { IsFormat format }
    requires first { first ≤ 2 }
    ensures { IfOk result (λ v. IsVerdictFrom (format_of format) (initial_state seed opening) first
        text.now v) }
{
    let mut machine = Machine::new(alloc, seed, opening)?;
    check_lines(&mut machine, alloc, format, first, text)
}

/// Checks a journal's text, from the opening on that its header names, or else by the given seed of
/// its daemon and the moment of its opening. Beside the machine it has one line in memory.
pub fn check(alloc: Global, text: &[u8], seed: [u8; 32], opening: u64) -> Result<Verdict, NoMemory>
    requires { opening ≤ greatest_moment }
    ensures { IfOk result (λ v. IsVerdict (charter_of seed opening) text.now v) }
{
    match head_of(alloc, text)? {
        Some((header, lines)) => check_from(alloc, header.seed, header.opening, 2, 2, lines),
        None => check_from(alloc, seed, opening, 1, 1, text),
    }
}
