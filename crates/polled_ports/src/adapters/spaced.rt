// A future behind each of whose polls the runtime looks for events.
ghost use Rattle.std.specs.Prelude.{◌≡◌};

use futures::Future;
use futures::task::{Context, Poll};

/// How many polls of a task that keeps asking for another a `LocalRuntime` makes before it looks for events. Where a
/// task sleeps in each, a socket that is ready waits for as many sleeps.
const POLLS: u32 = 64;

/// A future, with so many polls behind each of its own that do nothing but ask for the next.
#[derive(Drop)]
pub struct Spaced<F> {
    future: F,
    idle: u32,
}

impl<F: Future> Spaced<F> {
    pub fn new(future: F) -> Spaced<F>
        ensures { result.future ≡ future }
    {
        Spaced { future, idle: 0 }
    }
}

impl<F: Future> Future for Spaced<F> {
    type Output = F::Output;

    ghost can_poll = { λ s. F.can_poll s.future };

    ghost needs = { λ s. F.needs s.future };

    ghost gives = { λ s. F.gives s.future };

    fn poll(&mut self, cx: &mut Context<'_>) -> Poll<F::Output> {
        if self.idle > 0 {
            self.idle -= 1;
            return cx.yield_now();
        }
        self.idle = POLLS;
        self.future.poll(cx)
    }
}
