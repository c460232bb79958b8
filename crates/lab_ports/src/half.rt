// The halves of a TCP connection, whose reads and writes wait for the signal too.
ghost use Rattle.std.specs.Io.{WritesAtMost};
ghost use Rattle.libc.specs.Net.{SockOption};

use crate::signal::{StopSignal, comes};
use libc::net::{
    IPPROTO_TCP, POLLIN, SO_KEEPALIVE, SOL_SOCKET, TCP_KEEPIDLE, TCP_KEEPINTVL, setsockopt,
};
use std::alloc::Global;
use std::io::{self, ErrorKind, Read, Write};
use std::net::{Shutdown, TcpStream};
use std::os::fd::AsRawFd;
use std::sync::Arc;
use std::time::{self, Duration, Instant};

/// The most that is read of a connection that has ended, in bytes.
const MOST_DROPPED: usize = 16_777_216;

/// How long what a peer still sends is read, in milliseconds.
const PATIENCE: u16 = 1_000;

/// How long a peer may be silent before the system asks whether it is still there, and how long until it
/// asks again, in seconds.
const SILENCE: i32 = 30;

/// One half of a connection, which is closed once both are gone.
#[derive(Drop)]
pub(crate) struct Half<'a> {
    stream: Arc<TcpStream, Global>,
    signal: &'a StopSignal,
}

impl Half<'_> {
    /// Ends the writing half, so that the peer meets its end.
    pub(crate) fn shut(&self) -> io::Result<()> {
        self.stream.shutdown(Shutdown::Write)
    }

    /// Whether the peer took the connection back, or the system has given it up (POSIX, poll: an error or
    /// a hangup, which are told unasked). A peer that only ended its writing isn't gone.
    pub(crate) fn is_gone(&self) -> bool {
        comes(self.stream.as_raw_fd(), 0, 0)
    }

    /// Writes some of the piece, as soon as there is room; nothing once the signal was given and a second has
    /// brought none.
    fn write(&self, piece: &[u8]) -> io::Result<usize>
        ensures { WritesAtMost result piece.now }
    {
        let mut stream = &*self.stream;
        for _ in 0..u64::MAX {
            if !self.signal.lets_write(self.stream.as_raw_fd()) {
                break;
            }
            match stream.write(piece) {
                Err(error) if is_early(&error) => {}
                wrote => return wrote,
            }
        }
        Ok(0)
    }

    /// Writes the whole piece, and whether that went.
    pub(crate) fn send(&self, piece: &[u8]) -> bool {
        let mut rest = piece;
        while !rest.is_empty() {
            match self.write(rest) {
                Ok(count) if count > 0 => rest = &rest[count..],
                _ => return false,
            }
        }
        true
    }

    /// Ends the connection in stages (RFC 9112, section 9.6): nothing more is written, and what the
    /// peer still sends is read and dropped up to its end, so that closing doesn't take back what the
    /// peer hasn't read yet. It waits a second at most for each piece, and for none once a second has
    /// gone by or 16 MiB were dropped.
    pub(crate) fn drain<C: time::Clock>(&self, clock: &C) {
        let patience = Duration::from_millis(u64::from(PATIENCE));
        let (Ok(()), Ok(begun)) = (self.shut(), Instant::now(clock)) else {
            return;
        };
        let mut stream = &*self.stream;
        let mut place = [0; 2_048];
        let mut dropped: usize = 0;
        for _ in 0..MOST_DROPPED {
            if !comes(self.stream.as_raw_fd(), POLLIN, i32::from(PATIENCE)) {
                return;
            }
            match stream.read(&mut place) {
                Ok(count) if count > 0 => dropped = dropped.saturating_add(count),
                _ => return,
            }
            match begun.elapsed(clock) {
                Ok(gone) if gone < patience && dropped < MOST_DROPPED => {}
                _ => return,
            }
        }
    }
}

/// Whether a call would have waited.
fn is_early(error: &io::Error) -> bool {
    error.kind() == ErrorKind::WouldBlock
}

impl Read for Half<'_> {
    /// Reads what is there, as soon as something is; nothing once the signal was given.
    fn read(&mut self, into: &mut [u8]) -> io::Result<usize> {
        let mut stream = &*self.stream;
        for _ in 0..u64::MAX {
            if !self.signal.lets_read(self.stream.as_raw_fd()) {
                break;
            }
            match stream.read(into) {
                Err(error) if is_early(&error) => {}
                got => return got,
            }
        }
        Ok(0)
    }
}

/// Sets an option of a socket, where the system lets.
fn set(fd: i32, level: i32, name: i32, value: i32)
    requires { SockOption level name }
{
    let mut bytes = [0; 16];
    bytes[..4].copy_from_slice(&value.to_ne_bytes());
    let _ = unsafe { setsockopt(fd, level, name, &bytes, 4) };
}

/// Lets the system ask a silent peer whether it is still there (RFC 1122, section 4.2.3.6): where it closed
/// the connection and is gone, it takes it back then.
fn keep_alive(stream: &TcpStream) {
    let fd = stream.as_raw_fd();
    set(fd, SOL_SOCKET, SO_KEEPALIVE, 1);
    set(fd, IPPROTO_TCP, TCP_KEEPIDLE, SILENCE);
    set(fd, IPPROTO_TCP, TCP_KEEPINTVL, SILENCE);
}

/// The two halves of a connection, whose writes leave at once; none without memory, or where its calls can't be kept
/// from waiting.
pub(crate) fn halves(
    alloc: Global,
    stream: TcpStream,
    signal: &StopSignal,
) -> Option<(Half<'_>, Half<'_>)> {
    stream.set_nonblocking(true).ok()?;
    let _ = stream.set_nodelay(true);
    keep_alive(&stream);
    let stream = Arc::new(alloc, stream).ok()?;
    let again = Arc::try_clone(&stream).ok()?;
    let read = Half { stream, signal };
    let written = Half {
        stream: again,
        signal,
    };
    Some((read, written))
}
