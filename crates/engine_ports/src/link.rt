// Where a client's connections lead.
ghost use Rattle.std.specs.Prelude.{◌<◌};
ghost use Rattle.engine_ports.specs.Link.{LinkView, ConnectSays, Leaves, wire};

use crate::{Failed, Sink, Source};

/// Where connections lead.
pub trait Link {
    type From: Source + Send + Drop;

    type Into: Sink + Send + Drop;

    ghost links: { Self → LinkView };

    /// Makes a connection to an address, or counts a fault.
    fn connect(&mut self, addr: &str) -> Result<(Self::From, Self::Into), Failed>
        ensures { ConnectSays addr.now (λ s k. wire (Self.From.gives s) (Self.Into.takes k)) result
            (links self.old) (links self.new) };

    /// Ends a connection that was made. It takes no memory.
    fn leave(&mut self, from: Self::From, into: Self::Into)
        requires { 0 < (links self.old).owed }
        ensures { Leaves (wire (Self.From.gives from) (Self.Into.takes into))
            (links self.old) (links self.new) };
}
