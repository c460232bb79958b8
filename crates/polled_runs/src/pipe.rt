// One connection whose bytes are sent back, one at a time.
ghost use Rattle.std.specs.Prelude.{◌≡◌, true};
ghost use Rattle.futures.specs.Task.{IsArmed, Keeps};

use engine_ports::{Failed, Got};
use futures::Future;
use futures::task::{Context, Poll};
use polled_ports::{PollSink, PollSource};

/// How many bytes may move in one poll.
const MOST: u32 = 64;

/// A source, a sink, and a byte that was read and isn't written yet.
#[derive(Drop)]
pub struct Pipe<S, K> {
    source: S,
    sink: K,
    owed: Option<u8>,
}

/// What a step came to.
enum Step {
    Moved,
    Waits,
    Over,
}

impl<S: PollSource, K: PollSink> Pipe<S, K> {
    pub fn new(source: S, sink: K) -> Pipe<S, K> {
        Pipe {
            source,
            sink,
            owed: None,
        }
    }

    fn into_sink(self) -> K
    where
        S: Drop,
    {
        self.sink
    }

    fn take(&mut self, cx: &mut Context<'_>) -> Step
        ensures armed { (result ≡ Step.Waits) → IsArmed cx.new }
        ensures kept { Keeps cx.old cx.new }
    {
        let mut place = [0; 1];
        match self.source.poll_read(cx, &mut place) {
            Poll::Ready(Got::Bytes(_)) => {
                self.owed = Some(place[0]);
                Step::Moved
            }
            Poll::Ready(Got::End) | Poll::Ready(Got::Failed) => Step::Over,
            Poll::Pending => Step::Waits,
        }
    }

    fn give(&mut self, cx: &mut Context<'_>, byte: u8) -> Step
        ensures armed { (result ≡ Step.Waits) → IsArmed cx.new }
        ensures kept { Keeps cx.old cx.new }
    {
        match self.sink.poll_write(cx, &[byte]) {
            Poll::Ready(Ok(_)) => {
                self.owed = None;
                Step::Moved
            }
            Poll::Ready(Err(Failed)) => Step::Over,
            Poll::Pending => Step::Waits,
        }
    }

    fn step(&mut self, cx: &mut Context<'_>) -> Step
        ensures armed { (result ≡ Step.Waits) → IsArmed cx.new }
        ensures kept { Keeps cx.old cx.new }
    {
        match self.owed {
            None => self.take(cx),
            Some(byte) => self.give(cx, byte),
        }
    }

    /// Sends back what there is; whether it waits. Else the source has ended, or a call failed.
    #[tactic(auto, using(crate::proofs::KeepLemmas::keeps_on, crate::proofs::KeepLemmas::armed_on))]
    pub fn run(&mut self, cx: &mut Context<'_>) -> bool
        ensures armed { (result ≡ true) → IsArmed cx.new }
        ensures kept { Keeps cx.old cx.new }
    {
        'polls: for _ in 0..MOST {
            match self.step(cx) {
                Step::Moved => {}
                Step::Waits => return true,
                Step::Over => return false,
            }
        }
        let _: Poll<()> = cx.yield_now();
        true
    }
}

/// One such connection, up to its end: what it gives back is its sink.
#[derive(Drop)]
pub struct Copying<S, K> {
    pipe: Option<Pipe<S, K>>,
}

impl<S: PollSource, K: PollSink> Copying<S, K> {
    pub fn new(source: S, sink: K) -> Copying<S, K> {
        Copying {
            pipe: Some(Pipe::new(source, sink)),
        }
    }
}

impl<S: PollSource + Drop, K: PollSink + Drop> Future for Copying<S, K> {
    type Output = Option<K>;

    fn poll(&mut self, cx: &mut Context<'_>) -> Poll<Option<K>> {
        let Some(mut pipe) = self.pipe.take() else {
            return Poll::Ready(None);
        };
        if pipe.run(cx) {
            self.pipe = Some(pipe);
            return Poll::Pending;
        }
        Poll::Ready(Some(pipe.into_sink()))
    }
}
