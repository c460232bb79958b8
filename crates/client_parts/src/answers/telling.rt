// The line of a fault, written to standard error.
ghost use Rattle.std.specs.Prelude.{◌++◌, codes};
ghost use Rattle.engine_ports.specs.Sink.{WriteSays};
ghost use Rattle.client_model.specs.Faults.{fault_line, status_text};
ghost use Rattle.client_parts.specs.Telling.{answer_behind};

use super::faults::fault_line;
use client_model::Fault;
use engine_ports::{Failed, Sink};
use engine_text::Text;
use itoa::Buffer;

/// Writes three pieces, one after the other.
fn write_each<K: Sink>(
    sink: &mut K,
    first: &[u8],
    second: &[u8],
    third: &[u8],
) -> Result<(), Failed>
    ensures { WriteSays result (first.now ++ second.now ++ third.now)
        (K.takes sink.old) (K.takes sink.new) }
{
    write_both(sink, first, second)?;
    sink.write(third)
}

/// Writes two pieces, one after the other.
fn write_both<K: Sink>(sink: &mut K, first: &[u8], second: &[u8]) -> Result<(), Failed>
    ensures { WriteSays result (first.now ++ second.now) (K.takes sink.old) (K.takes sink.new) }
{
    sink.write(first)?;
    sink.write(second)
}

/// Writes the status of an answer, where it has one, and the end of the line.
fn write_status<K: Sink>(sink: &mut K, status: Option<u16>) -> Result<(), Failed>
    ensures { WriteSays result (status_text status ++ codes "\n")
        (K.takes sink.old) (K.takes sink.new) }
{
    match status {
        None => sink.write(b"no status\n"),
        Some(status) => {
            let mut digits = Buffer::new();
            write_each(sink, b"status ", digits.format(status).as_bytes(), b"\n")
        }
    }
}

/// Writes what stands behind the front of the line of an answer: this request, and the status.
fn write_answer<K: Sink>(sink: &mut K, request: &[u8], status: Option<u16>) -> Result<(), Failed>
    ensures { WriteSays result (request.now ++ codes " isn't one of the Engine API's: "
        ++ (status_text status ++ codes "\n")) (K.takes sink.old) (K.takes sink.new) }
{
    write_both(sink, request, b" isn't one of the Engine API's: ")?;
    write_status(sink, status)
}

/// Writes the request and the status of an answer, and nothing behind the line of another fault.
fn write_behind<K: Sink>(sink: &mut K, fault: &Fault) -> Result<(), Failed>
    ensures { WriteSays result (answer_behind fault.now) (K.takes sink.old) (K.takes sink.new) }
{
    match fault {
        Fault::AnswerTo { request, status } => write_answer(sink, request.as_slice(), *status),
        _ => Ok(()),
    }
}

/// Writes the line that a fault adds to standard error, where the program was given these words. It takes no memory.
pub fn write_fault<K: Sink>(errors: &mut K, words: &[Text], fault: &Fault) -> Result<(), Failed>
    ensures { WriteSays result (fault_line words.now fault.now)
        (K.takes errors.old) (K.takes errors.new) }
{
    let (first, second, third) = fault_line(words, fault);
    match write_each(
        errors,
        first.as_bytes(),
        second.as_bytes(),
        third.as_bytes(),
    ) {
        Ok(()) => write_behind(errors, fault),
        Err(failed) => Err(failed),
    }
}
