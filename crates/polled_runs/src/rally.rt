// Bytes that go to and fro over one connection, beside a task that keeps yielding.
ghost use Rattle.std.specs.Prelude.{◌≡◌};

use crate::pipe::Pipe;
use futures::Future;
use futures::task::{Context, Poll};
use polled_ports::{PollSink, PollSource};
use std::io::{Read, Write};
use std::net::TcpStream;
use std::thread;
use std::time::{Clock, Duration, Instant};

/// How long the task sleeps in each poll, in milliseconds.
const PAUSE: u64 = 5;

/// In how many milliseconds a byte is to come back.
const QUICK: u64 = 50;

/// A peer that sends a byte as soon as the last one came back, and what sends them back. It sleeps in each poll, and
/// asks for another one.
#[derive(Drop)]
pub struct Rally<R, S, K> {
    rt: R,
    peer: TcpStream,
    pipe: Pipe<S, K>,
    sent: Option<Instant>,
    quick: u32,
    left: u32,
}

impl<R: Clock, S: PollSource, K: PollSink> Rally<R, S, K> {
    /// So many bytes; the peer's stream doesn't block.
    pub fn new(rt: R, peer: TcpStream, source: S, sink: K, left: u32) -> Rally<R, S, K> {
        Rally {
            rt,
            peer,
            pipe: Pipe::new(source, sink),
            sent: None,
            quick: 0,
            left,
        }
    }

    /// Whether the byte that was sent came back by now; then it is counted.
    fn came_back(&mut self) -> bool
        ensures { self.new.left ≡ self.old.left }
    {
        let Some(sent) = self.sent else {
            return false;
        };
        let mut place = [0; 1];
        if !matches!(self.peer.read(&mut place), Ok(1)) {
            return false;
        }
        if let Ok(gone) = sent.elapsed(&self.rt) {
            if gone < Duration::from_millis(QUICK) {
                self.quick = self.quick.saturating_add(1);
            }
        }
        true
    }

    /// Sends the next byte.
    fn send(&mut self)
        ensures { self.new.left ≡ self.old.left }
    {
        self.sent = match self.peer.write_all(b"x") {
            Ok(()) => Instant::now(&self.rt).ok(),
            Err(_) => None,
        };
    }
}

impl<R: Clock + Drop, S: PollSource + Drop, K: PollSink + Drop> Future for Rally<R, S, K> {
    type Output = u32;

    /// How many of the bytes were quick.
    #[tactic(auto, using(crate::proofs::KeepLemmas::keeps_on, crate::proofs::KeepLemmas::armed_on))]
    fn poll(&mut self, cx: &mut Context<'_>) -> Poll<u32> {
        if self.left == 0 {
            return Poll::Ready(self.quick);
        }
        if self.sent.is_none() {
            self.send();
        }
        let _ = self.pipe.run(cx);
        if self.came_back() {
            self.sent = None;
            self.left -= 1;
        }
        thread::sleep(&self.rt, Duration::from_millis(PAUSE));
        cx.yield_now()
    }
}
