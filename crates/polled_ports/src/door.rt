// Where connections come from, for a task; and what runs a future.
ghost use Rattle.std.specs.Prelude.{◌<◌, ℕ, IfOk, OnErr};
ghost use Rattle.engine_ports.specs.Rose.{Rose};
ghost use Rattle.futures.specs.Task.{IsArmed, Keeps};
ghost use Rattle.futures.specs.Poll.{OnPending};
ghost use Rattle.polled_ports.specs.PollDoor.{PollDoorView, PollBindSays, PollAcceptSays, PollLeaveSays, untimed};

use crate::{PollSink, PollSource};
use engine_ports::Failed;
use futures::Future;
use futures::task::{Context, Poll};

/// What an accept gave.
#[derive(Drop)]
pub enum Accepted<S, K> {
    /// A connection: its source and its sink.
    Conn(S, K),
    /// No more connections come.
    Shut,
    Failed,
}

/// Where connections come from, for a task.
pub trait PollDoor {
    type From: PollSource + Drop;

    type Into: PollSink + Drop;

    ghost opens: { Self → PollDoorView };

    /// Opens the door at an address.
    fn bind(&mut self, addr: &str) -> Result<(), Failed>
        ensures { PollBindSays addr.now result (opens self.old) (opens self.new) };

    /// Takes the next connection. Where none is there yet, the task is woken once one may be.
    fn poll_accept(&mut self, cx: &mut Context<'_>) -> Poll<Accepted<Self::From, Self::Into>>
        ensures says { PollAcceptSays (λ s k. untimed (Self.From.gives s) (Self.Into.takes k))
            result (opens self.old) (opens self.new) }
        ensures armed { OnPending result (IsArmed cx.new) }
        ensures kept { Keeps cx.old cx.new };

    /// Ends a connection that came, and keeps what is left of it under this number. It takes no memory,
    /// and doesn't wait.
    fn leave(&mut self, number: u32, from: Self::From, into: Self::Into)
        requires { 0 < (opens self.old).door.owed }
        ensures { PollLeaveSays number (untimed (Self.From.gives from) (Self.Into.takes into))
            (opens self.old) (opens self.new) };
}

/// Runs futures, each to its end.
pub trait Runner {
    ghost faults: { Self → ℕ };

    /// What the future gives, or a fault.
    fn run<F: Future>(&mut self, future: F) -> Result<F::Output, Failed>
        requires { F.can_poll future }
        ensures gives { IfOk result (F.gives future) }
        ensures failed { OnErr result (Rose (faults self.old) (faults self.new)) };
}
