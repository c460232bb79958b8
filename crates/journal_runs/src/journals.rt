// Lines of a journal, read, copied and written, and the verdicts of whole ones.
ghost use Rattle.journal_lines.specs.JournalLines.{IsFormat};

use crate::line::{as_text, owned, spelled};
use crate::short::Short;
use engine_text::{Bytes, Call, Entry, NoMemory, Reply};
use history_replay::{Upgraded, check, upgrade};
use journal_lines::{LineFault, Verdict, read_header, read_line, write_header, write_line};
use std::alloc::Global;

/// The moment of the opening, in milliseconds since 1970.
const OPENING: u64 = 1_700_000_000_000;

// The number of a format.
fn format_number(second: bool) -> u8
    ensures { IsFormat result }
{
    if second { 2 } else { 1 }
}

// The line of an entry with this call and this reply, in format 1 or 2.
fn line_with(
    alloc: Global,
    entry: &Entry,
    call: Call,
    reply: Reply,
    second: bool,
) -> Result<Bytes, NoMemory> {
    let other = Entry {
        dues: entry.dues,
        conn: entry.conn,
        moment: entry.moment,
        call,
        reply,
    };
    write_line(alloc, &other, format_number(second))
}

// The line of an entry whose call and reply are copied.
fn line_of_copies(alloc: Global, entry: &Entry, second: bool) -> Result<Bytes, NoMemory> {
    let reply = entry.reply.copy(alloc)?;
    line_with(alloc, entry, entry.call.copy(alloc)?, reply, second)
}

// Whether the copies of an entry are written as that line.
fn copied(alloc: Global, entry: &Entry, line: &[u8], second: bool) -> Result<String, Short> {
    let written = line_of_copies(alloc, entry, second)?;
    let same = written.as_slice() == line;
    owned(alloc, if same { "the same" } else { "another line" })
}

// What is said of a line, in format 1 or 2.
fn line(alloc: Global, line: &[u8], second: bool) -> Result<String, Short> {
    match &read_line(alloc, line, format_number(second)) {
        Ok(entry) => copied(alloc, entry, line, second),
        Err(LineFault::BadLine) => owned(alloc, "no line"),
        Err(LineFault::NoMemory) => Err(Short),
    }
}

// What is said of a header: what it names is written again.
fn header(alloc: Global, line: &[u8]) -> Result<String, Short> {
    match read_header(alloc, line) {
        Ok(header) => {
            let written = write_header(alloc, header.seed, header.opening)?;
            let same = written.as_slice() == line;
            owned(alloc, if same { "the same" } else { "another line" })
        }
        Err(LineFault::BadLine) => owned(alloc, "no header"),
        Err(LineFault::NoMemory) => Err(Short),
    }
}

// A verdict in words.
fn shown(alloc: Global, verdict: &Verdict) -> Result<String, Short> {
    match verdict {
        Verdict::Legal { steps } => Ok(format!(in alloc; "legal {steps}")?),
        Verdict::BadLine { line } => Ok(format!(in alloc; "no line {line}")?),
        Verdict::Illegal { line, kept, found } => {
            Ok(format!(in alloc; "line {line}: {} but {}", kept.as_str(), found.as_str())?)
        }
    }
}

// The verdict of a journal, by the seed of zeros.
fn verdict(alloc: Global, text: &[u8]) -> Result<String, Short> {
    let verdict = check(alloc, text, [0; 32], OPENING)?;
    shown(alloc, &verdict)
}

// A text, its line feeds as `\n`.
fn on_a_line(alloc: Global, text: &[u8]) -> Result<String, Short> {
    Ok(as_text(text).replace(alloc, "\n", "\\n")?)
}

// A journal's text in format 2, or its verdict.
fn upgraded(alloc: Global, text: &[u8]) -> Result<String, Short> {
    match &upgrade(alloc, text, [0; 32], OPENING)? {
        Upgraded::Text(new) => on_a_line(alloc, new.as_slice()),
        Upgraded::Not(verdict) => shown(alloc, verdict),
    }
}

/// What is said of lines of a journal.
pub fn told(alloc: Global, kind: &str, rest: &str) -> Result<String, Short> {
    let text = spelled(alloc, rest)?;
    match kind {
        "line" => line(alloc, text.as_bytes(), false),
        "second" => line(alloc, text.as_bytes(), true),
        "header" => header(alloc, text.as_bytes()),
        "upgrade" => upgraded(alloc, text.as_bytes()),
        "whole" => verdict(alloc, text.as_bytes()),
        _ => owned(alloc, "no such kind"),
    }
}
