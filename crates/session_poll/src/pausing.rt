// The next poll comes at once.
ghost use Rattle.std.specs.Prelude.{◌≡◌};
ghost use Rattle.futures.specs.Task.{IsArmed, Keeps};
ghost use Rattle.polled_model.specs.declared.polled.Cause.{Cause};
ghost use Rattle.session_poll.specs.Standing.{IsWoken};
ghost use Rattle.session_poll.specs.declared.state.Step.TheVariants as came;

use crate::state::Step;
use futures::task::{Context, Poll};
use polled_model::Cause;

/// A poll that did as much as it may.
pub(crate) fn yields(cx: &mut Context<'_>) -> Step
    ensures result { result ≡ came.Pauses Cause.Yield }
    ensures woken { IsWoken cx.new }
    ensures armed { IsArmed cx.new }
    ensures kept { Keeps cx.old cx.new }
{
    let _: Poll<()> = cx.yield_now();
    Step::Pauses(Cause::Yield)
}

/// A poll that waits for what wakes nobody.
pub(crate) fn pauses(cx: &mut Context<'_>) -> Step
    ensures result { result ≡ came.Pauses Cause.NotYet }
    ensures woken { IsWoken cx.new }
    ensures armed { IsArmed cx.new }
    ensures kept { Keeps cx.old cx.new }
{
    let _: Poll<()> = cx.yield_now();
    Step::Pauses(Cause::NotYet)
}
