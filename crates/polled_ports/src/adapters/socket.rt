// A socket of this machine alone that connections come to.
ghost use Rattle.libc.specs.Net.{SockOption};

use std::io;
use std::net::{Net, SocketAddr, SocketAddrV4, TcpListener as Listening, TcpStream};
use std::os::fd::AsRawFd;
use tokio::net::TcpListener;
use tokio::reactor::Handle;

/// How many connections may wait to be accepted: as many as the system lets.
const BACKLOG: i32 = i32::MAX;

/// How long a peer may be silent before the system asks whether it is still there, and how long until it
/// asks again, in seconds.
const SILENCE: i32 = 30;

/// The address, where it is one of this machine alone.
fn loopback(addr: &str) -> Option<SocketAddr> {
    let addr = addr.parse::<SocketAddrV4>().ok()?;
    if addr.ip().is_loopback() {
        Some(SocketAddr::V4(addr))
    } else {
        None
    }
}

/// Sets an option of a socket, where the system lets.
fn set(fd: i32, level: i32, name: i32, value: i32)
    requires { SockOption level name }
{
    let mut bytes = [0; 16];
    bytes[..4].copy_from_slice(&value.to_ne_bytes());
    let _ = unsafe { libc::net::setsockopt(fd, level, name, &bytes, 4) };
}

/// Lets the system ask the silent peers of accepted connections whether they are still there (RFC 1122, section
/// 4.2.3.6): where one closed the connection and is gone, it takes it back then. On Linux a connection that is
/// accepted has these options of its listener.
fn keep_alive(fd: i32) {
    set(fd, libc::net::SOL_SOCKET, libc::net::SO_KEEPALIVE, 1);
    set(fd, libc::net::IPPROTO_TCP, libc::net::TCP_KEEPIDLE, SILENCE);
    set(
        fd,
        libc::net::IPPROTO_TCP,
        libc::net::TCP_KEEPINTVL,
        SILENCE,
    );
}

/// What listens at the address, watched by a runtime, where it is one of this machine alone.
pub fn listener_at<R: Net<Listener = Listening, Stream = TcpStream>>(
    rt: &R,
    addr: &str,
    handle: &Handle,
) -> Option<TcpListener> {
    let listening = Listening::bind(rt, loopback(addr)?).ok()?;
    let fd = listening.as_raw_fd();
    let _ = libc::net::listen(fd, BACKLOG);
    keep_alive(fd);
    TcpListener::from_std(listening, handle).ok()
}

/// Whether an accept failed since the listener is gone (POSIX, accept). A peer that is gone again, or want of
/// descriptors or memory, fails one try.
pub fn is_gone(error: &io::Error) -> bool {
    matches!(
        error.raw_os_error(),
        Some(libc::EBADF | libc::EINVAL | libc::ENOTSOCK)
    )
}
