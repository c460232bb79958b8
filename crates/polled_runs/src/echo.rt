// All connections of a door on one thread, each of which gets its bytes back.
ghost use Rattle.std.specs.Prelude.{◌≡◌, true};
ghost use Rattle.futures.specs.Task.{IsArmed, Keeps};

use crate::pipe::Pipe;
use futures::Future;
use futures::task::{Context, Poll};
use polled_ports::{Accepted, PollDoor};
use std::alloc::Global;

/// Serves until so many connections have come and ended.
#[derive(Drop)]
pub struct Echo<'a, D: PollDoor> {
    door: &'a mut D,
    pipes: Vec<Pipe<D::From, D::Into>>,
    to_come: u32,
}

impl<'a, D: PollDoor> Echo<'a, D> {
    pub fn new(alloc: Global, door: &'a mut D, to_come: u32) -> Echo<'a, D> {
        Echo {
            door,
            pipes: Vec::new(alloc),
            to_come,
        }
    }

    /// Takes in who has come; whether more are to come.
    #[tactic(auto, using(crate::proofs::KeepLemmas::keeps_on, crate::proofs::KeepLemmas::armed_on))]
    fn take_in(&mut self, cx: &mut Context<'_>) -> bool
        ensures armed { (result ≡ true) → IsArmed cx.new }
        ensures kept { Keeps cx.old cx.new }
    {
        'comings: while self.to_come > 0 {
            match self.door.poll_accept(cx) {
                Poll::Ready(Accepted::Conn(source, sink)) => {
                    self.to_come -= 1;
                    let _ = self.pipes.push(Pipe::new(source, sink));
                }
                Poll::Ready(_) => self.to_come = 0,
                Poll::Pending => return true,
            }
        }
        false
    }

    /// Runs each connection, and lets go those that are over; whether some wait.
    #[tactic(auto, using(crate::proofs::KeepLemmas::keeps_on, crate::proofs::KeepLemmas::armed_on))]
    fn run_all(&mut self, cx: &mut Context<'_>) -> bool
        ensures armed { (result ≡ true) → IsArmed cx.new }
        ensures kept { Keeps cx.old cx.new }
    {
        let mut waits = false;
        let mut at = 0;
        'pipes: while at < self.pipes.len() {
            if self.pipes[at].run(cx) {
                waits = true;
                at += 1;
            } else {
                drop(self.pipes.swap_remove(at));
            }
        }
        waits
    }
}

impl<'a, D: PollDoor> Future for Echo<'a, D> {
    type Output = ();

    #[tactic(auto, using(crate::proofs::KeepLemmas::keeps_on, crate::proofs::KeepLemmas::armed_on))]
    fn poll(&mut self, cx: &mut Context<'_>) -> Poll<()> {
        let more = self.take_in(cx);
        let waits = self.run_all(cx);
        if more {
            return Poll::Pending;
        }
        if waits {
            return Poll::Pending;
        }
        Poll::Ready(())
    }
}
