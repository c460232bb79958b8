// Bytes that are on their way out, sent as far as they go.
ghost use Rattle.std.specs.Prelude.{◌<◌, length};
ghost use Rattle.futures.specs.Task.{IsArmed, Keeps};
ghost use Rattle.futures.specs.Poll.{OnPending};
ghost use Rattle.polled_ports.specs.PollSink.{PollWriteSays};
ghost use Rattle.polled_steps.specs.Bytes.{next_of};
ghost use Rattle.polled_steps.specs.Sending.{IsArmedBy, SendSays};

use crate::outgoing::Outgoing;
use engine_ports::Failed;
use futures::task::{Context, Poll};
use polled_ports::PollSink;

/// What one write came to.
#[derive(Clone, Copy, Debug, PartialEq, Eq, Drop)]
pub enum Sent {
    /// Some bytes went.
    Some,
    /// None goes yet.
    Waits,
    Fault,
}

/// Writes some of the next bytes, of which there are some.
pub fn send<K: PollSink>(sink: &mut K, cx: &mut Context<'_>, out: &mut Outgoing) -> Sent
    requires { 0 < length (next_of out.old) }
    ensures says { SendSays result out.old out.new (K.takes sink.old) (K.takes sink.new) }
    ensures armed { IsArmedBy result cx.new }
    ensures kept { Keeps cx.old cx.new }
{
    match write(sink, cx, out.next()) {
        Poll::Ready(Ok(count)) => {
            out.advance(count);
            Sent::Some
        }
        Poll::Ready(Err(Failed)) => Sent::Fault,
        Poll::Pending => Sent::Waits,
    }
}

fn write<K: PollSink>(
    sink: &mut K,
    cx: &mut Context<'_>,
    piece: &[u8],
) -> Poll<Result<usize, Failed>>
    requires { 0 < length piece.now }
    ensures says { PollWriteSays result piece.now (K.takes sink.old) (K.takes sink.new) }
    ensures armed { OnPending result (IsArmed cx.new) }
    ensures kept { Keeps cx.old cx.new }
{
    sink.poll_write(cx, piece)
}
