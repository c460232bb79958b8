// A source of bytes, a sink of bytes and a clock. Each counts its own faults, ends or stops.
ghost use Rattle.std.specs.Prelude.{◌≡◌, ◌<◌, ℕ, List, [], ◌∷◌, length};
ghost use Rattle.engine_ports.specs.Source.{SourceView, ReadSays};
ghost use Rattle.engine_ports.specs.Sink.{SinkView, WriteSays, ProbeSays, FinishSays};
ghost use Rattle.engine_ports.specs.Clock.{ClockView, ClockHanded, PauseSays, twin_of, rejoined};

/// A call failed, and the object counted a fault.
#[derive(Clone, Copy, Debug, PartialEq, Eq)]
pub struct Failed;

/// What a read gave.
#[derive(Clone, Copy, Debug, PartialEq, Eq)]
pub enum Got {
    /// So many bytes, at least one, at the front of the place.
    Bytes(usize),
    /// Nothing is left.
    End,
    Failed,
}

/// What a pause answers.
#[derive(Clone, Copy, Debug, PartialEq, Eq)]
pub enum Pause {
    Go,
    Stop,
}

/// Where bytes come from.
pub trait Source: Send {
    ghost gives: { Self → SourceView };

    /// Moves the next bytes to the front of the place, which isn't empty.
    fn read(&mut self, into: &mut [u8]) -> Got
        requires { 0 < length into.old }
        ensures { ReadSays result into.new (gives self.old) (gives self.new) };
}

/// Where bytes go.
pub trait Sink: Send {
    ghost takes: { Self → SinkView };

    /// Takes the whole piece, or some of its front where it fails.
    fn write(&mut self, piece: &[u8]) -> Result<(), Failed>
        ensures { WriteSays result piece.now (takes self.old) (takes self.new) };

    /// Asks whether a peer is there that may still read; it writes nothing, and doesn't wait. A peer
    /// that ended its own writing is there.
    fn probe(&mut self) -> Result<(), Failed>
        ensures { ProbeSays result (takes self.old) (takes self.new) };

    /// No more comes.
    fn finish(&mut self) -> Result<(), Failed>
        ensures { FinishSays result (takes self.old) (takes self.new) };
}

/// What time it is, in milliseconds since 1970.
pub trait Clock: Sized + Send {
    ghost times: { Self → ClockView };

    /// The moment now; it may be any number.
    fn now(&mut self) -> u64
        ensures { ClockHanded (times self.old) (result ∷ []) (times self.new) };

    /// Waits for so many milliseconds, or is stopped.
    fn pause(&mut self, ms: u64) -> Pause
        ensures { PauseSays result (times self.old) (times self.new) };

    /// A second clock, for another thread.
    fn twin(&self) -> Self
        ensures { times result ≡ twin_of (times self.now) };

    /// Takes the stops of a twin.
    fn rejoin(&mut self, other: Self)
        ensures { times self.new ≡ rejoined (times self.old) (times other) };
}
