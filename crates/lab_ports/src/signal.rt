// The signal by which the program ends, and waits that end once it is given.
use libc::net::{POLLIN, POLLOUT, poll};
use libc::types::pollfd;
use std::io;
use std::net::{Net, Shutdown};
use std::os::fd::AsRawFd;
use std::os::unix::net::UnixStream;

/// No limit of a wait.
const NO_LIMIT: i32 = -1;

/// How long a write still waits once the signal was given, in milliseconds.
const PATIENCE: i32 = 1_000;

/// A signal that is given at most once, and stays: two sockets, each the other's peer. Once one is shut, whoever waits
/// for the other goes on (POSIX, poll).
#[derive(Drop)]
pub struct StopSignal {
    heard: UnixStream,
    given: UnixStream,
}

/// A descriptor, and what is waited for at it.
fn watch(fd: i32, events: i16) -> pollfd {
    pollfd {
        fd,
        events,
        revents: 0,
    }
}

/// Whether such an event, an error or a hangup comes to a descriptor, within so many milliseconds.
pub(crate) fn comes(fd: i32, events: i16, ms: i32) -> bool {
    let mut watched = [watch(fd, events)];
    poll(&mut watched, ms) > 0
}

impl StopSignal {
    /// A signal that wasn't given.
    pub fn new<R: Net>(rt: &R) -> io::Result<StopSignal> {
        let (heard, given) = UnixStream::pair(rt)?;
        Ok(StopSignal { heard, given })
    }

    /// Gives the signal. It doesn't wait.
    pub fn give(&self) {
        let _ = self.given.shutdown(Shutdown::Both);
    }

    pub fn is_given(&self) -> bool {
        comes(self.heard.as_raw_fd(), POLLIN, 0)
    }

    /// Waits for such an event of a descriptor, and whether it came before the signal was given.
    fn comes_before(&self, fd: i32, events: i16) -> bool {
        for _ in 0..u64::MAX {
            let mut watched = [watch(self.heard.as_raw_fd(), POLLIN), watch(fd, events)];
            if poll(&mut watched, NO_LIMIT) > 0 {
                return watched[0].revents == 0;
            }
        }
        false
    }

    /// Waits until there is something to read, and whether that came before the signal was given.
    pub(crate) fn lets_read(&self, fd: i32) -> bool {
        self.comes_before(fd, POLLIN)
    }

    /// Waits until there is room to write into; once the signal was given, for a second more at most.
    pub(crate) fn lets_write(&self, fd: i32) -> bool {
        self.comes_before(fd, POLLOUT) || comes(fd, POLLOUT, PATIENCE)
    }
}
