// A source of bytes and a sink of bytes that a task polls. Each counts its own faults and ends, how often it
// moved bytes, and how often it wasn't ready.
ghost use Rattle.std.specs.Prelude.{◌<◌, length};
ghost use Rattle.futures.specs.Task.{IsArmed, Keeps};
ghost use Rattle.futures.specs.Poll.{OnPending};
ghost use Rattle.polled_ports.specs.PollSource.{PollSourceView, PollReadSays};
ghost use Rattle.polled_ports.specs.PollSink.{PollSinkView, PollWriteSays, PollProbeSays, PollFinishSays};

use engine_ports::{Failed, Got};
use futures::task::{Context, Poll};

/// Where bytes come from, for a task.
pub trait PollSource {
    ghost gives: { Self → PollSourceView };

    /// Moves the next bytes to the front of the place, which isn't empty. Where none are there yet, the
    /// task is woken once some may be.
    fn poll_read(&mut self, cx: &mut Context<'_>, into: &mut [u8]) -> Poll<Got>
        requires { 0 < length into.old }
        ensures says { PollReadSays result into.new (gives self.old) (gives self.new) }
        ensures armed { OnPending result (IsArmed cx.new) }
        ensures kept { Keeps cx.old cx.new };
}

/// Where bytes go, for a task.
pub trait PollSink {
    ghost takes: { Self → PollSinkView };

    /// Takes some of the front of a piece that isn't empty, at least one byte, and answers how many. Where
    /// there is no room yet, the task is woken once there may be.
    fn poll_write(&mut self, cx: &mut Context<'_>, piece: &[u8]) -> Poll<Result<usize, Failed>>
        requires { 0 < length piece.now }
        ensures says { PollWriteSays result piece.now (takes self.old) (takes self.new) }
        ensures armed { OnPending result (IsArmed cx.new) }
        ensures kept { Keeps cx.old cx.new };

    /// Asks whether a peer is there that may still read; it writes nothing, and doesn't wait. A peer
    /// that ended its own writing is there.
    fn probe(&mut self) -> Result<(), Failed>
        ensures { PollProbeSays result (takes self.old) (takes self.new) };

    /// No more comes.
    fn finish(&mut self) -> Result<(), Failed>
        ensures { PollFinishSays result (takes self.old) (takes self.new) };
}
