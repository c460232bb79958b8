// The line of an entry (own: one entry a line, so that a history can be replayed).
ghost use Rattle.std.specs.Prelude.{◌≡◌, IfOk};
ghost use Rattle.serde_json.specs.View.{view};
ghost use Rattle.journal_lines.specs.JournalLines as spec;

use super::fields::call_value;
use super::replies::reply_value;
use crate::format::{Format, format_of};
use engine_text::{Bytes, Entry, NoMemory};
use json_laws::line_of_value;
use json_objects::Object;
use serde_json::Value;
use std::alloc::{AllocError, Global};

// The value of an entry.
fn entry_value(alloc: Global, format: Format, entry: &Entry) -> Result<Value, AllocError>
    ensures { IfOk result (λ v. view v ≡ spec.entry_value format entry.now) }
{
    let call = call_value(alloc, format, &entry.call)?;
    let reply = reply_value(alloc, &entry.call, &entry.reply)?;
    let object = Object::new(alloc)
        .with(alloc, "call", call)?
        .number(alloc, "conn", entry.conn as u64)?
        .number(alloc, "dues", entry.dues)?
        .number(alloc, "moment", entry.moment)?
        .with(alloc, "reply", reply)?;
    Ok(object.value())
}

// The line of an entry in that format.
fn line_in(alloc: Global, format: Format, entry: &Entry) -> Result<Vec<u8>, AllocError>
    ensures { IfOk result (λ line. line.items ≡ spec.journal_line format entry.now) }
{
    let value = entry_value(alloc, format, entry)?;
    line_of_value(alloc, &value)
}

/// The line of an entry in format 1 or 2 as bytes that are compared.
pub fn line_of(alloc: Global, entry: &Entry, format: u8) -> Result<Vec<u8>, AllocError>
    ensures { IfOk result
        (λ line. line.items ≡ spec.journal_line (spec.format_of format) entry.now) }
{
    line_in(alloc, format_of(format), entry)
}

/// The line of an entry in format 1 or 2, with its line end.
pub fn write_line(alloc: Global, entry: &Entry, format: u8) -> Result<Bytes, NoMemory>
    requires { spec.IsFormat format }
    ensures { IfOk result (λ line. line ≡ spec.journal_line (spec.format_of format) entry.now) }
{
    let line = line_of(alloc, entry, format)?;
    Ok(Bytes::from_vec(line))
}
