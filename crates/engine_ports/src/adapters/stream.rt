// A source and a sink over the two halves of a TCP connection.
ghost use Rattle.std.specs.Prelude.{◌≡◌, IfSome};
ghost use Rattle.libc.specs.Net.{SockOption};
ghost use Rattle.engine_ports.specs.Source.{untold_source};
ghost use Rattle.engine_ports.specs.Sink.{untold_sink};

use super::{ReadSource, SystemClock, WriteSink};
use crate::{Failed, Parting, Sink, Source};
use libc::types::pollfd;
use std::alloc::Global;
use std::io::{self, Read, Write};
use std::net::{Shutdown, SocketAddr, SocketAddrV4, TcpStream};
use std::os::fd::AsRawFd;
use std::sync::Arc;
use std::time::{self, Duration, Instant};

/// The most that is read of a connection that has ended, in bytes.
const MOST_DROPPED: usize = 16_777_216;

/// How long what a peer still sends is read, in milliseconds.
const PATIENCE: u64 = 1_000;

/// How long a peer may be silent before the system asks whether it is still there, and how long until it
/// asks again, in seconds.
const SILENCE: i32 = 30;

/// One half of a connection, which is closed once both are gone.
#[derive(Drop)]
pub struct Half {
    stream: Arc<TcpStream, Global>,
}

impl Half {
    fn shut(&self) -> io::Result<()> {
        self.stream.shutdown(Shutdown::Write)
    }

    /// Whether the peer took the connection back, or the system has given it up (POSIX, poll: an error or
    /// a hangup, which are told unasked). A peer that only ended its writing isn't gone.
    fn is_gone(&self) -> bool {
        let mut watched = [pollfd {
            fd: self.stream.as_raw_fd(),
            events: 0,
            revents: 0,
        }];
        libc::net::poll(&mut watched, 0) > 0
    }

    /// Ends the connection in stages (RFC 9112, section 9.6): nothing more is written, and what the
    /// peer still sends is read and dropped up to its end, so that closing doesn't take back what the
    /// peer hasn't read yet. It waits a second at most for each piece, and for none once a second has
    /// gone by or 16 MiB were dropped.
    fn drain<C: time::Clock>(&self, clock: &C) {
        let patience = Duration::from_millis(PATIENCE);
        let (Ok(()), Ok(()), Ok(begun)) = (
            self.shut(),
            self.stream.set_read_timeout(Some(patience)),
            Instant::now(clock),
        ) else {
            return;
        };
        let mut stream = &*self.stream;
        let mut place = [0; 2_048];
        let mut dropped: usize = 0;
        for _ in 0..MOST_DROPPED {
            match stream.read(&mut place) {
                Ok(count) if count > 0 => dropped = dropped.saturating_add(count),
                _ => return,
            }
            match begun.elapsed(clock) {
                Ok(gone) if gone < patience && dropped < MOST_DROPPED => {}
                _ => return,
            }
        }
    }
}

impl Read for Half {
    fn read(&mut self, into: &mut [u8]) -> io::Result<usize> {
        let mut stream = &*self.stream;
        stream.read(into)
    }
}

impl Write for Half {
    fn write(&mut self, piece: &[u8]) -> io::Result<usize> {
        let mut stream = &*self.stream;
        stream.write(piece)
    }

    fn flush(&mut self) -> io::Result<()> {
        Ok(())
    }
}

/// A sink over a connection. To finish shuts the writing half down, so that the peer meets its end.
#[derive(Drop)]
pub struct StreamSink {
    sink: WriteSink<Half>,
}

impl Sink for StreamSink {
    ghost use Rattle.engine_ports.specs.Adapters.{stream_over};

    ghost takes = { stream_over };

    fn write(&mut self, piece: &[u8]) -> Result<(), Failed> {
        self.sink.write(piece)
    }

    fn probe(&mut self) -> Result<(), Failed> {
        if self.sink.writer.is_gone() {
            self.sink.faults = self.sink.faults.saturating_add(1);
            return Err(Failed);
        }
        Ok(())
    }

    fn finish(&mut self) -> Result<(), Failed> {
        match self.sink.writer.shut() {
            Ok(()) => Ok(()),
            Err(_) => {
                self.sink.faults = self.sink.faults.saturating_add(1);
                Err(Failed)
            }
        }
    }
}

/// What is left of a TCP connection, which is closed: its counts.
#[derive(Drop)]
pub struct StreamPast {
    read_faults: u64,
    ends: u64,
    write_faults: u64,
    stops: u64,
}

impl<C: time::Clock + Copy + Send> Parting<ReadSource<Half>, StreamSink, SystemClock<C>>
    for StreamPast {
    ghost use Rattle.engine_ports.specs.Adapters.{counts_of};

    ghost tells = { counts_of };

    fn part(from: ReadSource<Half>, into: StreamSink, time: SystemClock<C>) -> Self {
        if from.ends == 0 && from.faults == 0 {
            from.reader.drain(&time.clock);
        }
        StreamPast {
            read_faults: from.faults,
            ends: from.ends,
            write_faults: into.sink.faults,
            stops: time.stops,
        }
    }
}

/// Sets an option of a socket, where the system lets.
fn set(fd: i32, level: i32, name: i32, value: i32)
    requires { SockOption level name }
{
    let mut bytes = [0; 16];
    bytes[..4].copy_from_slice(&value.to_ne_bytes());
    let _ = unsafe { libc::net::setsockopt(fd, level, name, &bytes, 4) };
}

/// Lets the system ask a silent peer whether it is still there (RFC 1122, section 4.2.3.6): where it closed
/// the connection and is gone, it takes it back then.
fn keep_alive(stream: &TcpStream) {
    let fd = stream.as_raw_fd();
    set(fd, libc::net::SOL_SOCKET, libc::net::SO_KEEPALIVE, 1);
    set(fd, libc::net::IPPROTO_TCP, libc::net::TCP_KEEPIDLE, SILENCE);
    set(
        fd,
        libc::net::IPPROTO_TCP,
        libc::net::TCP_KEEPINTVL,
        SILENCE,
    );
}

/// The two halves of a connection, whose writes leave at once, or none without memory.
pub fn halves(alloc: Global, stream: TcpStream) -> Option<(ReadSource<Half>, StreamSink)>
    ensures { IfSome result (λ r. (⟦<ReadSource<Half> as Source>⟧.gives r.0 ≡ untold_source)
        × (⟦<StreamSink as Sink>⟧.takes r.1 ≡ untold_sink)) }
{
    let _ = stream.set_nodelay(true);
    keep_alive(&stream);
    let stream = Arc::new(alloc, stream).ok()?;
    let again = Arc::try_clone(&stream).ok()?;
    let from = ReadSource::new(Half { stream });
    let sink = WriteSink::new(Half { stream: again });
    Some((from, StreamSink { sink }))
}

/// The address, where it is one of this machine alone.
pub fn loopback(addr: &str) -> Option<SocketAddr> {
    let addr = addr.parse::<SocketAddrV4>().ok()?;
    if addr.ip().is_loopback() {
        Some(SocketAddr::V4(addr))
    } else {
        None
    }
}
