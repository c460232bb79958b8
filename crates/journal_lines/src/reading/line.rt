// The entry of a line (own: one entry a line, so that a history can be replayed).
ghost use Rattle.std.specs.Prelude.{◌≡◌, IfOk, IfErr};
ghost use Rattle.serde_json.specs.View.{view};
ghost use Rattle.journal_lines.specs.JournalLines.{IsFormat, format_of, journal_line};
ghost use Rattle.journal_lines.specs.Line.{HasLine, IsLineFault, told_entry};
ghost use Rattle.journal_lines.specs.Reading.Parts.{Reads};
ghost use Rattle.journal_lines.specs.Reading.Entries as spec;
ghost use Rattle.journal_lines.specs.declared.format.Format.{Format};
ghost use Rattle.journal_lines.specs.declared.fault.LineFault.TheVariants as fault;

use super::calls::call_in;
use super::carried::entry_texts;
use super::parts::{count_at, natural_at, part_at};
use super::replies::reply_in;
use crate::fault::LineFault;
use crate::sound::is_sound;
use crate::writing::{line_of, write_line};
use engine_text::{Call, Entry, Reply};
use json_laws::value_of_line;
use serde_json::Value;
use std::alloc::Global;

// The call of a line's value.
fn call_at(alloc: Global, value: &Value) -> Result<Call, LineFault>
    ensures { Reads (spec.call_at (view value.now)) result }
{
    let part = part_at(value, "call")?;
    call_in(alloc, part)
}

// The reply of a line's value, beside its call.
fn reply_at(alloc: Global, call: &Call, value: &Value) -> Result<Reply, LineFault>
    ensures { Reads (spec.reply_at call.now (view value.now)) result }
{
    let part = part_at(value, "reply")?;
    reply_in(alloc, call, part)
}

// The entry of these parts, with the reply of a line's value.
fn entry_with(
    alloc: Global,
    conn: u32,
    dues: u64,
    moment: u64,
    call: Call,
    value: &Value,
) -> Result<Entry, LineFault>
    ensures { Reads (spec.entry_with conn dues moment call (view value.now)) result }
{
    let reply = reply_at(alloc, &call, value)?;
    Ok(Entry {
        dues,
        conn,
        moment,
        call,
        reply,
    })
}

// The entry of a line's value.
fn entry_in(alloc: Global, value: &Value) -> Result<Entry, LineFault>
    ensures { Reads (spec.entry_in (view value.now)) result }
{
    let conn = count_at(value, "conn")?;
    let dues = natural_at(value, "dues")?;
    let moment = natural_at(value, "moment")?;
    let call = call_at(alloc, value)?;
    entry_with(alloc, conn, dues, moment, call, value)
}

// The entry that a line's bytes say.
fn entry_of(alloc: Global, line: &[u8]) -> Result<Entry, LineFault>
    ensures taken { IfOk result (λ e. spec.IsSaidBy line.now e) }
    ensures refused { IfErr result (λ e. (format : Format) → IsLineFault format line.now e) }
{
    let Some(value) = value_of_line(alloc, line)? else {
        return Err(LineFault::BadLine);
    };
    entry_in(alloc, &value)
}

/// Reads a line of format 1 or 2, with its line end: exactly what `write_line` writes is taken. A
/// stream's reply is read as a journal's, since a line tells no more than where it begins.
pub fn read_line(alloc: Global, line: &[u8], format: u8) -> Result<Entry, LineFault>
    requires { IsFormat format }
    ensures taken { IfOk result
        (λ e. HasLine e × (journal_line (format_of format) e ≡ line.now)) }
    ensures refused { IfErr result (λ e. IsLineFault (format_of format) line.now e) }
{
    let entry = entry_of(alloc, line)?;
    if !is_sound(&entry.call) {
        return Err(LineFault::BadLine);
    }
    entry_texts(&entry);
    let again = line_of(alloc, &entry, format)?;
    if again.as_slice() != line {
        return Err(LineFault::BadLine);
    }
    Ok(entry)
}

/// A law: an entry's line is read back as that entry; only memory can be wanting.
pub fn law_line_reads_back(alloc: Global, entry: &Entry, format: u8) -> Result<Entry, LineFault>
    requires line { HasLine (told_entry entry.now) }
    requires format { IsFormat format }
    ensures same { IfOk result (λ e. e ≡ told_entry entry.now) }
    ensures refused { IfErr result (λ e. e ≡ fault.NoMemory) }
{
    let line = write_line(alloc, entry, format)?;
    read_line(alloc, line.as_slice(), format)
}
