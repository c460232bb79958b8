// The lines of a report.
ghost use Rattle.std.specs.Prelude.{◌≡◌, ◌≤◌, ◌+◌, ◌^◌, ◌++◌, IfOk, OnOk, length, string_bytes};
ghost use Rattle.drill_model.specs.Report as spec;

use journal_lines::Verdict;
use std::alloc::{AllocError, Global};

/// Adds a line of a word and a text.
fn put_text(alloc: Global, out: &mut String, word: &str, text: &str) -> Result<(), AllocError>
    ensures { OnOk result
        (string_bytes out.new ≡ string_bytes out.old ++ spec.text_line word.now text.now) }
{
    let line = format!(in alloc; "{word} {text}\n")?;
    out.push_str(&line)
}

/// Adds a line of a word and a number.
pub fn put_number(
    alloc: Global,
    out: &mut String,
    word: &str,
    number: u64,
) -> Result<(), AllocError>
    ensures { OnOk result
        (string_bytes out.new ≡ string_bytes out.old ++ spec.number_line word.now number) }
{
    let line = format!(in alloc; "{word} {number}\n")?;
    out.push_str(&line)
}

/// Adds the line of a status and how often it was answered.
fn put_answered(
    alloc: Global,
    out: &mut String,
    status: usize,
    count: u64,
) -> Result<(), AllocError>
    ensures { OnOk result
        (string_bytes out.new ≡ string_bytes out.old ++ spec.answered_line status count) }
{
    let line = format!(in alloc; "status {status} {count}\n")?;
    out.push_str(&line)
}

/// Adds the line of a status, if it was answered.
fn put_status(alloc: Global, out: &mut String, status: usize, count: u64) -> Result<(), AllocError>
    ensures { OnOk result
        (string_bytes out.new ≡ string_bytes out.old ++ spec.status_line status count) }
{
    if count == 0 {
        return Ok(());
    }
    put_answered(alloc, out, status, count)
}

/// Adds the lines of all statuses, by how often each was answered.
pub fn put_statuses(alloc: Global, out: &mut String, counts: &[u64]) -> Result<(), AllocError>
    ensures { OnOk result
        (string_bytes out.new ≡ string_bytes out.old ++ spec.status_lines 0 counts.now) }
{
    for (status, count) in counts.iter().enumerate() {
        put_status(alloc, out, status, *count)?;
    }
    Ok(())
}

/// Adds what is said of a journal that isn't right.
fn put_illegal(
    alloc: Global,
    out: &mut String,
    line: u64,
    kept: &str,
    found: &str,
) -> Result<(), AllocError>
    ensures { OnOk result (string_bytes out.new
        ≡ string_bytes out.old ++ spec.illegal_lines line kept.now found.now) }
{
    put_number(alloc, out, "illegal line", line)?;
    put_text(alloc, out, "kept", kept)?;
    put_text(alloc, out, "found", found)?;
    Ok(())
}

/// Adds what is said of a journal.
pub fn put_verdict(alloc: Global, out: &mut String, verdict: &Verdict) -> Result<(), AllocError>
    ensures { OnOk result
        (string_bytes out.new ≡ string_bytes out.old ++ spec.verdict_lines verdict.now) }
{
    match verdict {
        Verdict::Legal { steps } => put_number(alloc, out, "legal", *steps),
        Verdict::Illegal { line, kept, found } => {
            put_illegal(alloc, out, *line, kept.as_str(), found.as_str())
        }
        Verdict::BadLine { line } => put_number(alloc, out, "bad line", *line),
    }
}
