// The clock of the system.
ghost use Rattle.std.specs.Prelude.{◌≡◌};
ghost use Rattle.engine_ports.specs.Adapters.{moment_of};
ghost use Rattle.engine_ports.specs.Clock.{untold_clock};

use crate::{Clock, Pause};
use std::time::{self, Duration, SystemTime, UNIX_EPOCH};
use std::{io, thread};

/// The system's clock, in milliseconds since 1970. It tells no moments and never stops.
#[derive(Drop)]
pub struct SystemClock<C> {
    pub(super) clock: C,
    last: u64,
    pub(super) stops: u64,
}

// The moment of what the system answered; where it has no answer, the moment before.
fn moment_of(answer: io::Result<SystemTime>, before: u64) -> u64
    ensures { result ≡ moment_of answer before }
{
    let Ok(now) = answer else {
        return before;
    };
    match now.duration_since(UNIX_EPOCH) {
        Ok(since) => u64::try_from(since.as_millis()).unwrap_or(u64::MAX),
        Err(_) => before,
    }
}

impl<C> SystemClock<C> {
    ghost use Rattle.engine_ports.specs.Adapters.{clock_over};

    /// A clock that was never stopped.
    pub fn new(clock: C) -> SystemClock<C>
        ensures { clock_over result ≡ untold_clock }
    {
        SystemClock {
            clock,
            last: 0,
            stops: 0,
        }
    }
}

impl<C: time::Clock + Copy + Send> Clock for SystemClock<C> {
    ghost use Rattle.engine_ports.specs.Adapters.{clock_over};

    ghost times = { clock_over };

    fn now(&mut self) -> u64 {
        self.last = moment_of(SystemTime::now(&self.clock), self.last);
        self.last
    }

    /// Waits to the next whole multiple of so many milliseconds since 1970, which lies so many away
    /// at most: all who wait wake together, and that takes less than waking one by one.
    fn pause(&mut self, ms: u64) -> Pause {
        let now = moment_of(SystemTime::now(&self.clock), self.last);
        let past = now.checked_rem(ms).unwrap_or(0);
        thread::sleep(&self.clock, Duration::from_millis(ms.saturating_sub(past)));
        Pause::Go
    }

    fn twin(&self) -> Self {
        SystemClock {
            clock: self.clock,
            last: self.last,
            stops: self.stops,
        }
    }

    fn rejoin(&mut self, other: Self) {
        self.stops = self.stops.max(other.stops);
    }
}
