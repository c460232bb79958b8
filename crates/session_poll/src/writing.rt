// Bytes that are on their way out, written on within what one poll may do.
ghost use Rattle.std.specs.Prelude.{◌≡◌};
ghost use Rattle.futures.specs.Task.{Keeps};
ghost use Rattle.session_poll.specs.Writing.{WakesBy, WroteSays};

use crate::budget::Budget;
use futures::task::{Context, Poll};
use polled_ports::PollSink;
use polled_steps::{Answer, Outgoing, Sent, send};

/// What writing on came to.
#[derive(Clone, Copy, Debug, PartialEq, Eq, Drop)]
pub(crate) enum Wrote {
    /// Nothing is left.
    All,
    Some,
    /// None goes yet.
    Waits,
    /// This poll may write no more: the task was woken.
    Tired,
    Fault,
}

/// Writes some of the next bytes.
pub(crate) fn write_on<K: PollSink>(
    sink: &mut K,
    cx: &mut Context<'_>,
    out: &mut Outgoing,
    budget: &mut Budget,
) -> Wrote
    ensures says { WroteSays result out.old out.new (K.takes sink.old) (K.takes sink.new)
        budget.old budget.new }
    ensures woken { WakesBy result cx.new }
    ensures kept { Keeps cx.old cx.new }
{
    if out.next().is_empty() {
        return Wrote::All;
    }
    if budget.writes == 0 {
        let _: Poll<()> = cx.yield_now();
        return Wrote::Tired;
    }
    match send(sink, cx, out) {
        Sent::Some => {
            budget.writes -= 1;
            Wrote::Some
        }
        Sent::Waits => Wrote::Waits,
        Sent::Fault => Wrote::Fault,
    }
}

/// Writes some of an answer.
pub(crate) fn write_answer<K: PollSink>(
    sink: &mut K,
    cx: &mut Context<'_>,
    answer: &mut Answer,
    budget: &mut Budget,
) -> Wrote
    ensures says { WroteSays result answer.old.out answer.new.out
        (K.takes sink.old) (K.takes sink.new) budget.old budget.new }
    ensures next { answer.new.next ≡ answer.old.next }
    ensures woken { WakesBy result cx.new }
    ensures kept { Keeps cx.old cx.new }
{
    write_on(sink, cx, &mut answer.out, budget)
}
