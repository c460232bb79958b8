// One connection that is accepted, asked and answered, and what comes behind.
use engine_ports::{Failed, Got};
use futures::Future;
use futures::task::{Context, Poll};
use polled_ports::{Accepted, PollDoor, PollSink, PollSource};

/// The next connection of a door.
#[derive(Drop)]
pub struct Coming<'a, D> {
    door: &'a mut D,
}

impl<'a, D: PollDoor> Coming<'a, D> {
    pub fn new(door: &'a mut D) -> Coming<'a, D> {
        Coming { door }
    }
}

impl<'a, D: PollDoor> Future for Coming<'a, D> {
    type Output = Option<(D::From, D::Into)>;

    fn poll(&mut self, cx: &mut Context<'_>) -> Poll<Option<(D::From, D::Into)>> {
        match self.door.poll_accept(cx) {
            Poll::Ready(Accepted::Conn(source, sink)) => Poll::Ready(Some((source, sink))),
            Poll::Ready(_) => Poll::Ready(None),
            Poll::Pending => Poll::Pending,
        }
    }
}

/// The first byte of a connection is read, and three are written.
#[derive(Drop)]
pub struct Greeting<'a, S, K> {
    source: &'a mut S,
    sink: &'a mut K,
    is_asked: bool,
}

impl<'a, S: PollSource, K: PollSink> Greeting<'a, S, K> {
    pub fn new(source: &'a mut S, sink: &'a mut K) -> Greeting<'a, S, K> {
        Greeting {
            source,
            sink,
            is_asked: false,
        }
    }
}

impl<'a, S: PollSource, K: PollSink> Future for Greeting<'a, S, K> {
    type Output = bool;

    #[tactic(auto, using(crate::proofs::KeepLemmas::keeps_on, crate::proofs::KeepLemmas::armed_on))]
    fn poll(&mut self, cx: &mut Context<'_>) -> Poll<bool> {
        if !self.is_asked {
            let mut place = [0; 1];
            match self.source.poll_read(cx, &mut place) {
                Poll::Ready(Got::Bytes(_)) => self.is_asked = true,
                Poll::Ready(_) => return Poll::Ready(false),
                Poll::Pending => return Poll::Pending,
            }
        }
        match self.sink.poll_write(cx, b"bye") {
            Poll::Ready(Ok(count)) => Poll::Ready(count == 3),
            Poll::Ready(Err(Failed)) => Poll::Ready(false),
            Poll::Pending => Poll::Pending,
        }
    }
}

/// What a connection gives that gives no more bytes.
#[derive(Drop)]
pub struct Parting<'a, S> {
    source: &'a mut S,
}

impl<'a, S: PollSource> Parting<'a, S> {
    pub fn new(source: &'a mut S) -> Parting<'a, S> {
        Parting { source }
    }
}

impl<'a, S: PollSource> Future for Parting<'a, S> {
    type Output = Got;

    fn poll(&mut self, cx: &mut Context<'_>) -> Poll<Got> {
        let mut place = [0; 8];
        match self.source.poll_read(cx, &mut place) {
            Poll::Ready(Got::Bytes(_)) => cx.yield_now(),
            Poll::Ready(got) => Poll::Ready(got),
            Poll::Pending => Poll::Pending,
        }
    }
}
