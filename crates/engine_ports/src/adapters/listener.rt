// A door over a TCP listener of this machine alone.
ghost use Rattle.std.specs.Prelude.{◌≡◌};

use super::stream::{Half, halves, loopback};
use super::{ReadSource, StreamPast, StreamSink, SystemClock};
use crate::bound::Bound;
use crate::{Arrival, Door, Failed};
use std::alloc::Global;
use std::net::{Net, SocketAddr, TcpListener, TcpStream};
use std::os::fd::AsRawFd;
use std::time::{self, Duration};
use std::{io, thread};

/// How long to wait behind a failed try, in milliseconds.
const BREATH: u64 = 10;

/// How many connections may wait to be accepted: as many as the system lets.
const BACKLOG: i32 = i32::MAX;

/// A door over TCP, on the loopback address alone. It tells no connections.
#[derive(Drop)]
pub struct TcpDoor<R> {
    rt: R,
    alloc: Global,
    listener: Option<TcpListener>,
    bound: Bound,
    faults: u64,
}

impl<R> TcpDoor<R> {
    ghost use Rattle.engine_ports.specs.Adapters.{door_over, untold_door};

    /// A door that isn't bound yet.
    pub fn new(rt: R, alloc: Global) -> TcpDoor<R>
        ensures { door_over result ≡ untold_door }
    {
        TcpDoor {
            rt,
            alloc,
            listener: None,
            bound: Bound::new(alloc),
            faults: 0,
        }
    }

    /// The address that it listens at, with the port that was chosen for port 0.
    pub fn address(&self) -> Option<SocketAddr> {
        match &self.listener {
            Some(listener) => listener.local_addr().ok(),
            None => None,
        }
    }
}

fn listener_at<R: Net<Listener = TcpListener, Stream = TcpStream>>(
    rt: &R,
    addr: &str,
) -> Option<TcpListener> {
    let listener = TcpListener::bind(rt, loopback(addr)?).ok()?;
    let _ = libc::net::listen(listener.as_raw_fd(), BACKLOG);
    Some(listener)
}

/// Whether an accept failed since the listener is gone (POSIX, accept). A peer that is gone again, or want of
/// descriptors or memory, fails one try.
fn is_gone(error: &io::Error) -> bool {
    matches!(
        error.raw_os_error(),
        Some(libc::EBADF | libc::EINVAL | libc::ENOTSOCK)
    )
}

impl<R: Net<Listener = TcpListener, Stream = TcpStream> + time::Clock + Copy + Send> Door
    for TcpDoor<R> {
    ghost use Rattle.engine_ports.specs.Adapters.{door_over};

    type From = ReadSource<Half>;

    type Into = StreamSink;

    type Time = SystemClock<R>;

    type Past = StreamPast;

    ghost opens = { door_over };

    fn bind(&mut self, addr: &str) -> Result<(), Failed> {
        if let Some(listener) = listener_at(&self.rt, addr) {
            if self.bound.keep(addr).is_ok() {
                self.listener = Some(listener);
                return Ok(());
            }
        }
        self.faults = self.faults.saturating_add(1);
        Err(Failed)
    }

    fn accept(&mut self) -> Arrival<ReadSource<Half>, StreamSink, SystemClock<R>> {
        let Some(listener) = &self.listener else {
            return Arrival::Shut;
        };
        for _ in 0..u64::MAX {
            match listener.accept() {
                Ok((stream, _)) => {
                    if let Some((from, into)) = halves(self.alloc, stream) {
                        return Arrival::Conn(from, into, SystemClock::new(self.rt));
                    }
                }
                Err(error) if is_gone(&error) => break,
                Err(_) => {}
            }
            thread::sleep(&self.rt, Duration::from_millis(BREATH));
        }
        self.faults = self.faults.saturating_add(1);
        Arrival::Failed
    }

    fn leave(&mut self, _: u32, _: StreamPast) {}
}
