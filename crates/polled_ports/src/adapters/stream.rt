// The two halves of a TCP connection, polled.
ghost use Rattle.std.specs.Prelude.{◌≡◌, IfSome};
ghost use Rattle.polled_ports.specs.PollSource.{untold_source};
ghost use Rattle.polled_ports.specs.PollSink.{untold_sink};

use crate::{PollSink, PollSource};
use engine_ports::{Failed, Got};
use futures::task::{Context, Poll};
use tokio::io::{AsyncRead, AsyncWrite};
use tokio::net::{OwnedReadHalf, OwnedWriteHalf, TcpStream};

/// How many pieces are read at most of what a peer has sent to a connection that has ended.
const MOST_DROPPED: u32 = 64;

/// A source over a connection. It tells no bytes.
#[derive(Drop)]
pub struct TcpPollSource {
    half: OwnedReadHalf,
    faults: u64,
    ends: u64,
    gave: u64,
    waits: u64,
}

impl TcpPollSource {
    /// Reads and drops what the peer has sent by now, where its end wasn't met, so that closing doesn't take
    /// back what the peer hasn't read yet (RFC 9112, section 9.6).
    pub(super) fn drop_sent(&self) {
        if self.ends > 0 || self.faults > 0 {
            return;
        }
        let mut place = [0; 16_384];
        for _ in 0..MOST_DROPPED {
            match self.half.try_read(&mut place) {
                Ok(count) if count > 0 => {}
                _ => return,
            }
        }
    }
}

impl PollSource for TcpPollSource {
    ghost use Rattle.polled_ports.specs.Adapters.{source_over};

    ghost gives = { source_over };

    fn poll_read(&mut self, cx: &mut Context<'_>, into: &mut [u8]) -> Poll<Got> {
        match self.half.poll_read(cx, into) {
            Poll::Ready(Ok(0)) => {
                self.ends = self.ends.saturating_add(1);
                Poll::Ready(Got::End)
            }
            Poll::Ready(Ok(count)) => {
                self.gave = self.gave.saturating_add(1);
                Poll::Ready(Got::Bytes(count))
            }
            Poll::Ready(Err(_)) => {
                self.faults = self.faults.saturating_add(1);
                Poll::Ready(Got::Failed)
            }
            Poll::Pending => {
                self.waits = self.waits.saturating_add(1);
                Poll::Pending
            }
        }
    }
}

/// A sink over a connection. To finish lets the writing half go, which shuts it down: the peer meets its end.
#[derive(Drop)]
pub struct TcpPollSink {
    half: Option<OwnedWriteHalf>,
    faults: u64,
    took: u64,
    waits: u64,
}

impl PollSink for TcpPollSink {
    ghost use Rattle.polled_ports.specs.Adapters.{sink_over};

    ghost takes = { sink_over };

    fn poll_write(&mut self, cx: &mut Context<'_>, piece: &[u8]) -> Poll<Result<usize, Failed>> {
        let polled = match &mut self.half {
            Some(half) => half.poll_write(cx, piece),
            None => Poll::Ready(Ok(0)),
        };
        match polled {
            Poll::Ready(Ok(count)) if count > 0 => {
                self.took = self.took.saturating_add(1);
                Poll::Ready(Ok(count))
            }
            Poll::Ready(_) => {
                self.faults = self.faults.saturating_add(1);
                Poll::Ready(Err(Failed))
            }
            Poll::Pending => {
                self.waits = self.waits.saturating_add(1);
                Poll::Pending
            }
        }
    }

    // A connection that was taken back has no peer any more (POSIX, getpeername).
    fn probe(&mut self) -> Result<(), Failed> {
        if let Some(half) = &self.half {
            if half.peer_addr().is_ok() {
                return Ok(());
            }
        }
        self.faults = self.faults.saturating_add(1);
        Err(Failed)
    }

    fn finish(&mut self) -> Result<(), Failed> {
        self.half = None;
        Ok(())
    }
}

/// The two halves of a connection, whose writes leave at once, or none without memory.
pub fn halves(stream: TcpStream) -> Option<(TcpPollSource, TcpPollSink)>
    ensures { IfSome result (λ r. (⟦<TcpPollSource as PollSource>⟧.gives r.0 ≡ untold_source)
        × (⟦<TcpPollSink as PollSink>⟧.takes r.1 ≡ untold_sink)) }
{
    let _ = stream.set_nodelay(true);
    let (reader, writer) = stream.into_split().ok()?;
    let source = TcpPollSource {
        half: reader,
        faults: 0,
        ends: 0,
        gave: 0,
        waits: 0,
    };
    let sink = TcpPollSink {
        half: Some(writer),
        faults: 0,
        took: 0,
        waits: 0,
    };
    Some((source, sink))
}
