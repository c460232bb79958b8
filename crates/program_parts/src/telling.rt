// What a program tells its user.
ghost use Rattle.program_parts.specs.Telling.{Tells, TellsUsage};

use engine_ports::Sink;

/// Writes a text. A write that fails isn't told.
pub fn tell<K: Sink>(sink: &mut K, text: &[u8])
    ensures { Tells text.now (K.takes sink.old) (K.takes sink.new) }
{
    let _ = sink.write(text);
}

/// Writes how a program is used, and answers the status of a line that can't be run.
pub fn tell_usage<K: Sink>(sink: &mut K, usage: &str) -> u8
    ensures { TellsUsage usage.now result (K.takes sink.old) (K.takes sink.new) }
{
    tell(sink, usage.as_bytes());
    2
}
