// A door over a TCP listener of this machine alone, polled.
ghost use Rattle.std.specs.Prelude.{◌≡◌};

use super::socket::{is_gone, listener_at};
use super::stream::halves;
use super::{TcpPollSink, TcpPollSource};
use crate::bound::Bound;
use crate::{Accepted, PollDoor};
use engine_ports::Failed;
use futures::task::{Context, Poll};
use std::alloc::Global;
use std::net::{Net, SocketAddr, TcpListener as Listening, TcpStream};
use std::thread;
use std::time::{self, Duration};
use tokio::net::TcpListener;
use tokio::reactor::Handle;

/// How long to wait behind a failed try, in milliseconds.
const BREATH: u64 = 10;

/// A door over TCP, on the loopback address alone. It tells no connections.
#[derive(Drop)]
pub struct TcpPollDoor<R> {
    rt: R,
    handle: Handle,
    listener: Option<TcpListener>,
    bound: Bound,
    faults: u64,
    waits: u64,
}

impl<R> TcpPollDoor<R> {
    ghost use Rattle.polled_ports.specs.Adapters.{door_over, untold_door};

    /// A door that isn't bound yet, whose sockets a runtime watches.
    pub fn new(rt: R, alloc: Global, handle: Handle) -> TcpPollDoor<R>
        ensures { door_over result ≡ untold_door }
    {
        TcpPollDoor {
            rt,
            handle,
            listener: None,
            bound: Bound::new(alloc),
            faults: 0,
            waits: 0,
        }
    }

    /// The address that it listens at, with the port that was chosen for port 0.
    pub fn address(&self) -> Option<SocketAddr> {
        match &self.listener {
            Some(listener) => listener.local_addr().ok(),
            None => None,
        }
    }
}

impl<R: Net<Listener = Listening, Stream = TcpStream> + time::Clock> PollDoor for TcpPollDoor<R> {
    ghost use Rattle.polled_ports.specs.Adapters.{door_over};

    type From = TcpPollSource;

    type Into = TcpPollSink;

    ghost opens = { door_over };

    fn bind(&mut self, addr: &str) -> Result<(), Failed> {
        if let Some(listener) = listener_at(&self.rt, addr, &self.handle) {
            if self.bound.keep(addr).is_ok() {
                self.listener = Some(listener);
                return Ok(());
            }
        }
        self.faults = self.faults.saturating_add(1);
        Err(Failed)
    }

    // A try that failed is made again at the next poll, ten milliseconds later.
    fn poll_accept(&mut self, cx: &mut Context<'_>) -> Poll<Accepted<TcpPollSource, TcpPollSink>> {
        let Some(listener) = &mut self.listener else {
            return Poll::Ready(Accepted::Shut);
        };
        match listener.poll_accept(cx) {
            Poll::Ready(Ok((stream, _))) => {
                if let Some((from, into)) = halves(stream) {
                    return Poll::Ready(Accepted::Conn(from, into));
                }
            }
            Poll::Ready(Err(error)) => {
                if is_gone(&error) {
                    self.faults = self.faults.saturating_add(1);
                    return Poll::Ready(Accepted::Failed);
                }
            }
            Poll::Pending => {
                self.waits = self.waits.saturating_add(1);
                return Poll::Pending;
            }
        }
        thread::sleep(&self.rt, Duration::from_millis(BREATH));
        self.waits = self.waits.saturating_add(1);
        cx.yield_now()
    }

    // The writing half goes first, so that the peer meets its end.
    fn leave(&mut self, _: u32, from: TcpPollSource, into: TcpPollSink) {
        drop(into);
        from.drop_sent();
    }
}
