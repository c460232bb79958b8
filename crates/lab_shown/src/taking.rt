// What takes pieces.
ghost use Rattle.engine_ports.specs.Sink.{SinkView, WriteSays};

use engine_ports::{Failed, Sink};

/// What takes pieces, as a sink does, in one thread.
pub trait Taking {
    ghost takes: { Self → SinkView };

    /// Takes the whole piece, or some of its front where it fails.
    fn take(&mut self, piece: &[u8]) -> Result<(), Failed>
        ensures { WriteSays result piece.now (takes self.old) (takes self.new) };
}

/// A sink by itself.
#[derive(Drop)]
pub struct OneSink<K> {
    pub sink: K,
}

impl<K: Sink> Taking for OneSink<K> {
    ghost takes = { λ o. K.takes o.sink };

    fn take(&mut self, piece: &[u8]) -> Result<(), Failed> {
        self.sink.write(piece)
    }
}
