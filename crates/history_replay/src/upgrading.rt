// A journal in format 2 (own: whoever has it needs no other word to check it).
ghost use Rattle.std.specs.Prelude.{◌≡◌, ◌++◌, ◌≤◌, ℕ, IfOk, OnOk};
ghost use Rattle.machine_model.specs.History.{greatest_moment};
ghost use Rattle.journal_lines.specs.JournalLines.{header_line, journal_line};
ghost use Rattle.journal_lines.specs.Line.{HasLine, IsJournalLine};
ghost use Rattle.journal_lines.specs.Verdict.{IsVerdict};
ghost use Rattle.journal_lines.specs.declared.format.Format.TheVariants.{First, Second};
ghost use Rattle.journal_lines.specs.declared.verdict.Verdict.TheVariants as verdict;
ghost use Rattle.engine_text.specs.declared.entry.Entry as entries;
ghost use Rattle.history_replay.specs.Checking.{charter_of};
ghost use Rattle.history_replay.specs.Cutting.{IsFirstLine};
ghost use Rattle.history_replay.specs.Upgrading as spec;

use super::checking::check;
use super::cut::cut_line;
use super::head::head_of;
use engine_text::{Bytes, Entry, NoMemory};
use journal_lines::{LineFault, Verdict, read_line, seed_bytes, write_header, write_line};
use std::alloc::Global;

/// A journal in format 2; or what is said of a text that isn't legal.
#[derive(Drop)]
pub enum Upgraded {
    Text(Bytes),
    Not(Verdict),
}

// Whether it is said that a text is legal.
fn is_legal(verdict: &Verdict) -> bool
    ensures { result ≡ spec.is_legal verdict.now }
{
    match verdict {
        Verdict::Legal { .. } => true,
        Verdict::Illegal { .. } | Verdict::BadLine { .. } => false,
    }
}

// The line of an entry in format 2 is put behind those that stand there.
fn append_line(alloc: Global, entry: &Entry, out: &mut Vec<u8>) -> Result<(), NoMemory>
    ensures { OnOk result (out.new.items ≡ out.old.items ++ journal_line Second entry.now) }
{
    let line = write_line(alloc, entry, 2)?;
    out.extend_from_slice(line.as_slice())?;
    Ok(())
}

// The same, and the entry is let go.
fn append_once(alloc: Global, entry: Entry, out: &mut Vec<u8>) -> Result<(), NoMemory>
    ensures { OnOk result (out.new.items ≡ out.old.items ++ journal_line Second entry) }
{
    append_line(alloc, &entry, out)
}

// The same of a line of format 1.
fn rewrite_line(alloc: Global, line: &[u8], out: &mut Vec<u8>) -> Result<(), NoMemory>
    requires { IsJournalLine First line.now }
    ensures { OnOk result ((e : entries.Entry) → HasLine e → journal_line First e ≡ line.now
        → out.new.items ≡ out.old.items ++ journal_line Second e) }
{
    match read_line(alloc, line, 1) {
        Ok(entry) => append_once(alloc, entry, out),
        Err(LineFault::BadLine) => unreachable!(),
        Err(LineFault::NoMemory) => Err(NoMemory),
    }
}

// The same of all lines of a text.
fn rewrite_lines(alloc: Global, text: &[u8], out: &mut Vec<u8>) -> Result<(), NoMemory>
    requires { spec.AreLines text.now }
    ensures { OnOk result (spec.AreRewritten text.now out.old.items out.new.items) }
{
    let mut rest = text;
    'lines: while !rest.is_empty() {
        let Some((line, behind)) = cut_line(rest) else {
            unreachable!()
        };
        rewrite_line(alloc, line, out)?;
        rest = behind;
    }
    Ok(())
}

// The header as bytes that lines are put behind.
fn header_bytes(alloc: Global, seed: [u8; 32], moment: u64) -> Result<Vec<u8>, NoMemory>
    ensures { IfOk result (λ out. out.items ≡ header_line seed moment) }
{
    let header = write_header(alloc, seed, moment)?;
    let mut out = Vec::new(alloc);
    out.extend_from_slice(header.as_slice())?;
    Ok(out)
}

// A legal text of format 1 in format 2, by the seed and the opening.
fn with_header(alloc: Global, text: &[u8], seed: [u8; 32], moment: u64) -> Result<Bytes, NoMemory>
    requires low { moment ≤ greatest_moment }
    requires legal { (steps : ℕ) × IsVerdict (charter_of seed moment) text.now
        (verdict.Legal steps) }
    requires first { spec.HasNoHeader text.now }
    ensures { IfOk result (λ new. spec.IsInSecond (charter_of seed moment) text.now new) }
{
    seed_bytes(&seed);
    let mut out = header_bytes(alloc, seed, moment)?;
    rewrite_lines(alloc, text, &mut out)?;
    Ok(Bytes::from_vec(out))
}

// A legal text in format 2.
fn in_second(alloc: Global, text: &[u8], seed: [u8; 32], moment: u64) -> Result<Bytes, NoMemory>
    requires low { moment ≤ greatest_moment }
    requires legal { (steps : ℕ) × IsVerdict (charter_of seed moment) text.now
        (verdict.Legal steps) }
    ensures { IfOk result (λ new. spec.IsInSecond (charter_of seed moment) text.now new) }
{
    match head_of(alloc, text)? {
        Some(_) => Bytes::of(alloc, text),
        None => with_header(alloc, text, seed, moment),
    }
}

/// A legal journal's text in format 2, of the same history: a text of format 2 itself, and of one
/// of format 1 the header of the given seed and opening, and its lines in format 2. Of a text that
/// isn't legal it gives the verdict.
pub fn upgrade(
    alloc: Global,
    text: &[u8],
    seed: [u8; 32],
    moment: u64,
) -> Result<Upgraded, NoMemory>
    requires { moment ≤ greatest_moment }
    ensures { IfOk result (λ u. spec.IsUpgraded (charter_of seed moment) text.now u) }
{
    let verdict = check(alloc, text, seed, moment)?;
    if !is_legal(&verdict) {
        return Ok(Upgraded::Not(verdict));
    }
    let new = in_second(alloc, text, seed, moment)?;
    Ok(Upgraded::Text(new))
}
