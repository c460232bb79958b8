// A door over a TCP listener of this machine alone, which the signal shuts.
ghost use Rattle.std.specs.Prelude.{◌≡◌, IfSome};
ghost use Rattle.engine_ports.specs.Adapters.{untold_door};
ghost use Rattle.engine_ports.specs.Clock.{untold_clock};
ghost use Rattle.engine_ports.specs.Sink.{untold_sink};
ghost use Rattle.engine_ports.specs.Source.{untold_source};
ghost use Rattle.lab_ports.specs.Ports as spec;

use crate::clock::StopClock;
use crate::half::halves;
use crate::listening::Listening;
use crate::parts::{StopPast, StopSink, StopSource};
use crate::signal::StopSignal;
use engine_ports::{Arrival, Door, Failed};
use std::alloc::Global;
use std::net::{Net, SocketAddr, SocketAddrV4, TcpListener, TcpStream};
use std::os::fd::AsRawFd;
use std::time::{self, Duration};
use std::{io, thread};

/// How long to wait behind a failed try, in milliseconds.
const BREATH: u64 = 10;

/// How many connections may wait to be accepted: as many as the system lets.
const BACKLOG: i32 = i32::MAX;

/// A door over TCP, on the loopback address alone. Once the signal was given, none is to come, and the input of those
/// that came has come to its end. It tells no connections.
#[derive(Drop)]
pub struct StopDoor<'a, R> {
    rt: R,
    alloc: Global,
    signal: &'a StopSignal,
    listener: Option<TcpListener>,
    port: Option<u16>,
    bound: Option<Vec<u8>>,
    faults: u64,
}

impl<'a, R> StopDoor<'a, R> {
    /// A door that isn't bound yet.
    pub fn new(rt: R, alloc: Global, signal: &'a StopSignal) -> StopDoor<'a, R>
        ensures { spec.stop_door_over result ≡ untold_door }
    {
        StopDoor {
            rt,
            alloc,
            signal,
            listener: None,
            port: None,
            bound: None,
            faults: 0,
        }
    }
}

/// The address, where it is one of this machine alone.
fn loopback(addr: &str) -> Option<SocketAddr> {
    let addr = addr.parse::<SocketAddrV4>().ok()?;
    if addr.ip().is_loopback() {
        Some(SocketAddr::V4(addr))
    } else {
        None
    }
}

/// A listener whose accepts don't wait.
fn listener_at<R: Net<Listener = TcpListener, Stream = TcpStream>>(
    rt: &R,
    addr: &str,
) -> Option<TcpListener> {
    let listener = TcpListener::bind(rt, loopback(addr)?).ok()?;
    listener.set_nonblocking(true).ok()?;
    let _ = libc::net::listen(listener.as_raw_fd(), BACKLOG);
    Some(listener)
}

/// Whether an accept failed since the listener is gone (POSIX, accept). A peer that is gone again, or want of
/// descriptors or memory, fails one try.
fn is_gone(error: &io::Error) -> bool {
    matches!(
        error.raw_os_error(),
        Some(libc::EBADF | libc::EINVAL | libc::ENOTSOCK)
    )
}

/// The source and the sink of a connection, or none without memory.
fn parts(
    alloc: Global,
    stream: TcpStream,
    signal: &StopSignal,
) -> Option<(StopSource<'_>, StopSink<'_>)>
    ensures { IfSome result (λ r. (spec.stop_source_over r.0 ≡ untold_source)
        × (spec.stop_sink_over r.1 ≡ untold_sink)) }
{
    let (read, written) = halves(alloc, stream, signal)?;
    Some((StopSource::new(read), StopSink::new(written)))
}

impl<'a, R: Net<Listener = TcpListener, Stream = TcpStream> + time::Clock + Copy + Send> Door
    for StopDoor<'a, R> {
    type From = StopSource<'a>;

    type Into = StopSink<'a>;

    type Time = StopClock<'a, R>;

    type Past = StopPast;

    ghost opens = { spec.stop_door_over };

    fn bind(&mut self, addr: &str) -> Result<(), Failed> {
        if let Some(listener) = listener_at(&self.rt, addr) {
            if let Ok(bound) = addr.as_bytes().to_vec(self.alloc) {
                self.port = listener.local_addr().ok().map(|at| at.port());
                self.listener = Some(listener);
                self.bound = Some(bound);
                return Ok(());
            }
        }
        self.faults = self.faults.saturating_add(1);
        Err(Failed)
    }

    fn accept(&mut self) -> Arrival<StopSource<'a>, StopSink<'a>, StopClock<'a, R>> {
        let Some(listener) = &self.listener else {
            return Arrival::Shut;
        };
        for _ in 0..u64::MAX {
            if !self.signal.lets_read(listener.as_raw_fd()) {
                return Arrival::Shut;
            }
            match listener.accept() {
                Ok((stream, _)) => {
                    if let Some((from, into)) = parts(self.alloc, stream, self.signal) {
                        return Arrival::Conn(from, into, StopClock::new(self.rt, self.signal));
                    }
                }
                Err(error) if is_gone(&error) => break,
                Err(_) => {}
            }
            thread::sleep(&self.rt, Duration::from_millis(BREATH));
        }
        self.faults = self.faults.saturating_add(1);
        Arrival::Failed
    }

    fn leave(&mut self, _: u32, _: StopPast) {}
}

impl<R: Net<Listener = TcpListener, Stream = TcpStream> + time::Clock + Copy + Send> Listening
    for StopDoor<'_, R> {
    ghost listens = { λ d. d.port };

    fn port(&self) -> Option<u16> {
        self.port
    }

    fn faults(&self) -> u64 {
        self.faults
    }
}
