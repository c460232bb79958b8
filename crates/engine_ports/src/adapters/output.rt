// A sink over a writer, as standard output is.
ghost use Rattle.std.specs.Prelude.{◌≡◌};
ghost use Rattle.engine_ports.specs.Sink.{untold_sink};

use crate::{Failed, Sink};
use std::io::Write;

/// A sink over a writer. It tells no bytes.
#[derive(Drop)]
pub struct WriteSink<W> {
    pub(super) writer: W,
    pub(super) faults: u64,
}

impl<W: Write + Send> WriteSink<W> {
    /// A sink that has written nothing.
    pub fn new(writer: W) -> WriteSink<W>
        ensures { ⟦<WriteSink<W> as Sink>⟧.takes result ≡ untold_sink }
    {
        WriteSink { writer, faults: 0 }
    }
}

impl<W: Write> WriteSink<W> {
    ghost use Rattle.std.specs.Io.KnownBytes.{Keeps};
    ghost use Rattle.engine_ports.specs.Sink.{FinishSays};
    ghost use Rattle.engine_ports.specs.Adapters.{sink_over, writer_holds};

    // Lets what was written out of the writer's own buffer.
    fn flush(&mut self) -> Result<(), Failed>
        ensures says { FinishSays result (sink_over self.old) (sink_over self.new) }
        ensures writer { Keeps
            (writer_holds W.contents self.old) (writer_holds W.contents self.new) }
    {
        match self.writer.flush() {
            Ok(()) => Ok(()),
            Err(_) => {
                self.faults = self.faults.saturating_add(1);
                Err(Failed)
            }
        }
    }
}

impl<W: Write + Send> Sink for WriteSink<W> {
    ghost use Rattle.std.specs.Prelude.{◌≡◌, Ok};
    ghost use Rattle.std.specs.Io.KnownBytes.{Keeps};
    ghost use Rattle.engine_ports.specs.Sink.{WriteSays, FinishSays};
    ghost use Rattle.engine_ports.specs.Adapters.{sink_over, writer_holds, WriterTook};

    ghost takes = { sink_over };

    fn write(&mut self, piece: &[u8]) -> Result<(), Failed>
        ensures says { WriteSays result piece.now (sink_over self.old) (sink_over self.new) }
        ensures writer { WriterTook result piece.now
            (writer_holds W.contents self.old) (writer_holds W.contents self.new) }
    {
        let mut rest = piece;
        while !rest.is_empty() {
            match self.writer.write(rest) {
                Ok(count) if count > 0 => rest = &rest[count..],
                _ => {
                    self.faults = self.faults.saturating_add(1);
                    return Err(Failed);
                }
            }
        }
        self.flush()
    }

    // Of who reads it a writer tells nothing.
    fn probe(&mut self) -> Result<(), Failed>
        ensures ok { result ≡ Ok tt }
        ensures same { self.new ≡ self.old }
    {
        Ok(())
    }

    fn finish(&mut self) -> Result<(), Failed>
        ensures says { FinishSays result (sink_over self.old) (sink_over self.new) }
        ensures writer { Keeps
            (writer_holds W.contents self.old) (writer_holds W.contents self.new) }
    {
        self.flush()
    }
}
