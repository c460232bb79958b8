// A source over a reader, as standard input is.
ghost use Rattle.std.specs.Prelude.{◌≡◌};
ghost use Rattle.engine_ports.specs.Source.{untold_source};

use crate::{Got, Source};
use std::io::Read;

/// A source over a reader. It tells no bytes.
#[derive(Drop)]
pub struct ReadSource<R> {
    pub(super) reader: R,
    pub(super) faults: u64,
    pub(super) ends: u64,
}

impl<R: Read + Send> ReadSource<R> {
    /// A source that has read nothing.
    pub fn new(reader: R) -> ReadSource<R>
        ensures { ⟦<ReadSource<R> as Source>⟧.gives result ≡ untold_source }
    {
        ReadSource {
            reader,
            faults: 0,
            ends: 0,
        }
    }
}

impl<R: Read + Send> Source for ReadSource<R> {
    ghost use Rattle.std.specs.Prelude.{◌<◌, length};
    ghost use Rattle.engine_ports.specs.Source.{ReadSays};
    ghost use Rattle.engine_ports.specs.Adapters.{source_over, reader_left, ReaderGave};

    ghost gives = { source_over };

    fn read(&mut self, into: &mut [u8]) -> Got
        requires { 0 < length into.old }
        ensures says { ReadSays result into.new (source_over self.old) (source_over self.new) }
        ensures reader { ReaderGave result into.new
            (reader_left R.remaining self.old) (reader_left R.remaining self.new) }
    {
        match self.reader.read(into) {
            Ok(0) => {
                self.ends = self.ends.saturating_add(1);
                Got::End
            }
            Ok(count) => Got::Bytes(count),
            Err(_) => {
                self.faults = self.faults.saturating_add(1);
                Got::Failed
            }
        }
    }
}
