// A connection's two ways.
ghost use Rattle.std.specs.Prelude.{◌≡◌, ◌<◌, length};
ghost use Rattle.engine_ports.specs.Source.{SourceView, ReadSays};
ghost use Rattle.engine_ports.specs.Sink.{SinkView, WriteSays};

use engine_ports::{Failed, Got, Sink, Source};

/// A connection's two ways, whose bytes come and go in one thread.
pub trait TwoWays {
    ghost source: { Self → SourceView };

    ghost sink: { Self → SinkView };

    /// Moves the next bytes to the front of the place, which isn't empty.
    fn read(&mut self, into: &mut [u8]) -> Got
        requires { 0 < length into.old }
        ensures says { ReadSays result into.new (source self.old) (source self.new) }
        ensures same { sink self.new ≡ sink self.old };

    /// Takes the whole piece, or some of its front where it fails.
    fn write(&mut self, piece: &[u8]) -> Result<(), Failed>
        ensures says { WriteSays result piece.now (sink self.old) (sink self.new) }
        ensures same { source self.new ≡ source self.old };
}

/// A source and a sink.
#[derive(Drop)]
pub struct Ways<S, K> {
    pub(crate) source: S,
    pub(crate) sink: K,
}

impl<S: Source, K: Sink> TwoWays for Ways<S, K> {
    ghost source = { λ w. S.gives w.source };

    ghost sink = { λ w. K.takes w.sink };

    fn read(&mut self, into: &mut [u8]) -> Got {
        self.source.read(into)
    }

    fn write(&mut self, piece: &[u8]) -> Result<(), Failed> {
        self.sink.write(piece)
    }
}
