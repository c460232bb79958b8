// What is told where no daemon goes on with a written history.
ghost use Rattle.std.specs.Prelude.{◌≡◌, IfOk, string_bytes};
ghost use Rattle.one_program.specs.Refusing.{Refuses, TellsUnread, TellsVerdict, illegal_text, verdict_text};

use crate::reading::Unread;
use engine_ports::Sink;
use journal_lines::Verdict;
use program_parts::{status_by, tell};
use session_model::Worst;
use std::alloc::{AllocError, Global};

/// Tells why there is no daemon.
pub(crate) fn refuse<K: Sink>(sink: &mut K, text: &str) -> u8
    ensures { Refuses text.now result (K.takes sink.old) (K.takes sink.new) }
{
    tell(sink, text.as_bytes());
    status_by(Worst::Refused)
}

/// Tells why there is no journal.
pub(crate) fn tell_unread<K: Sink>(sink: &mut K, why: Unread) -> u8
    ensures { TellsUnread why result (K.takes sink.old) (K.takes sink.new) }
{
    match why {
        Unread::TooLong => refuse(sink, "journal too long\n"),
        Unread::Failed => status_by(Worst::Fault),
        Unread::NoMemory => status_by(Worst::NoMemory),
    }
}

/// What a journal isn't legal by.
fn illegal_text(alloc: Global, line: u64, kept: &str, found: &str) -> Result<String, AllocError>
    ensures { IfOk result (λ s. string_bytes s ≡ illegal_text line kept.now found.now) }
{
    format!(in alloc; "illegal line {line}\nkept {kept}\nfound {found}\n")
}

/// A verdict, line by line.
fn verdict_text(alloc: Global, verdict: &Verdict) -> Result<String, AllocError>
    ensures { IfOk result (λ s. string_bytes s ≡ verdict_text verdict.now) }
{
    match verdict {
        Verdict::Legal { steps } => format!(in alloc; "legal {steps}\n"),
        Verdict::Illegal { line, kept, found } => {
            illegal_text(alloc, *line, kept.as_str(), found.as_str())
        }
        Verdict::BadLine { line } => format!(in alloc; "bad line {line}\n"),
    }
}

/// Tells the verdict on a journal that isn't legal.
pub(crate) fn tell_verdict<K: Sink>(alloc: Global, sink: &mut K, verdict: &Verdict) -> u8
    ensures { TellsVerdict verdict.now result (K.takes sink.old) (K.takes sink.new) }
{
    match verdict_text(alloc, verdict) {
        Ok(text) => refuse(sink, &text),
        Err(_) => status_by(Worst::NoMemory),
    }
}
