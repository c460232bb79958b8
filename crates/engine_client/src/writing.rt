// What is written at the end of a command.
ghost use Rattle.std.specs.Prelude.{◌≡◌, []};
ghost use Rattle.engine_ports.specs.Link.{LinkView};
ghost use Rattle.engine_ports.specs.Sink.{SinkView};
ghost use Rattle.client_model.specs.Plans.{Ends, Done, to_out, prints_all, ends};
ghost use Rattle.client_exchange.specs.Exchanges.{reach};
ghost use Rattle.engine_client.specs.Writing.{Prints, PrintsOrLacks};

use crate::printing::text_of;
use client_model::Fault;
use engine_ports::Sink;
use engine_text::Text;
use std::alloc::Global;

/// Writes a text that isn't empty, and ends with this status.
fn write_some<K: Sink>(out: &mut K, text: &[u8], status: u8) -> Result<u8, Fault>
    ensures { (link : LinkView) (e : SinkView) → ¬ (text.now ≡ [])
        → Prints (Ends (to_out text.now) (Done status)) result
        (reach link (K.takes out.old) e) (reach link (K.takes out.new) e) }
{
    match out.write(text) {
        Ok(()) => Ok(status),
        Err(_) => Err(Fault::Output),
    }
}

/// Writes a text, and ends with this status.
pub(crate) fn write_all<K: Sink>(out: &mut K, text: &[u8], status: u8) -> Result<u8, Fault>
    ensures { (link : LinkView) (e : SinkView)
        → Prints (Ends (to_out text.now) (Done status)) result
        (reach link (K.takes out.old) e) (reach link (K.takes out.new) e) }
{
    if text.is_empty() {
        return Ok(status);
    }
    write_some(out, text, status)
}

/// Writes lines, and ends with this status.
pub(crate) fn write_lines<K: Sink>(
    alloc: Global,
    lines: &[Text],
    status: u8,
    out: &mut K,
) -> Result<u8, Fault>
    ensures { (link : LinkView) (e : SinkView)
        → PrintsOrLacks (prints_all lines.now (ends status)) result
        (reach link (K.takes out.old) e) (reach link (K.takes out.new) e) }
{
    match text_of(alloc, lines) {
        Ok(text) => write_all(out, &text, status),
        Err(_) => Err(Fault::NoMemory),
    }
}
