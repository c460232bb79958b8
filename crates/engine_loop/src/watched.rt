// A source or a sink, and whether it moved bytes.
ghost use Rattle.std.specs.Prelude.{◌≡◌, false};

use engine_ports::{Failed, Got};
use futures::task::{Context, Poll};
use polled_ports::{PollSink, PollSource};

/// A source or a sink, and whether it moved bytes since it was asked for that.
#[derive(Drop)]
pub(crate) struct Watched<P> {
    pub(crate) port: P,
    moved: bool,
}

impl<P> Watched<P> {
    pub(crate) fn new(port: P) -> Watched<P>
        ensures { result.port ≡ port }
    {
        Watched { port, moved: false }
    }

    pub(crate) fn into_port(self) -> P
        ensures { result ≡ self.port }
    {
        let Watched { port, moved: _ } = self;
        port
    }

    /// Whether it moved bytes since this was called last.
    pub(crate) fn has_moved(&mut self) -> bool
        ensures { self.new.port ≡ self.old.port }
    {
        let moved = self.moved;
        self.moved = false;
        moved
    }
}

impl<S: PollSource> PollSource for Watched<S> {
    ghost gives = { λ w. S.gives w.port };

    fn poll_read(&mut self, cx: &mut Context<'_>, into: &mut [u8]) -> Poll<Got> {
        let got = self.port.poll_read(cx, into);
        if let Poll::Ready(Got::Bytes(_)) = got {
            self.moved = true;
        }
        got
    }
}

impl<K: PollSink> PollSink for Watched<K> {
    ghost takes = { λ w. K.takes w.port };

    fn poll_write(&mut self, cx: &mut Context<'_>, piece: &[u8]) -> Poll<Result<usize, Failed>> {
        let taken = self.port.poll_write(cx, piece);
        if let Poll::Ready(Ok(_)) = taken {
            self.moved = true;
        }
        taken
    }

    fn probe(&mut self) -> Result<(), Failed> {
        self.port.probe()
    }

    fn finish(&mut self) -> Result<(), Failed> {
        self.port.finish()
    }
}
