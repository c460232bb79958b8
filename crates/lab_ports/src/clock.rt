// The system's clock, whose pauses the signal stops.
ghost use Rattle.std.specs.Prelude.{◌≡◌};
ghost use Rattle.engine_ports.specs.Clock.{untold_clock};
ghost use Rattle.lab_ports.specs.Ports.{stop_clock_over};

use crate::signal::StopSignal;
use engine_ports::{Clock, Pause, SystemClock};
use std::time;

/// The system's clock, in milliseconds since 1970. It tells no moments, and each pause answers Stop once the signal
/// was given.
#[derive(Drop)]
pub struct StopClock<'a, R> {
    rt: R,
    clock: SystemClock<R>,
    signal: &'a StopSignal,
    stops: u64,
}

impl<'a, R: Copy> StopClock<'a, R> {
    /// A clock that was never stopped.
    pub fn new(rt: R, signal: &'a StopSignal) -> StopClock<'a, R>
        ensures { stop_clock_over result ≡ untold_clock }
    {
        StopClock {
            rt,
            clock: SystemClock::new(rt),
            signal,
            stops: 0,
        }
    }

    pub(crate) fn runtime(&self) -> &R {
        &self.rt
    }

    /// How often a pause of it was stopped.
    pub(crate) fn stops(&self) -> u64
        ensures { result ≡ (stop_clock_over self.now).stops }
    {
        self.stops
    }
}

impl<R: time::Clock + Copy + Send> Clock for StopClock<'_, R> {
    ghost times = { stop_clock_over };

    fn now(&mut self) -> u64 {
        self.clock.now()
    }

    fn pause(&mut self, ms: u64) -> Pause {
        let _ = self.clock.pause(ms);
        if self.signal.is_given() {
            self.stops = self.stops.saturating_add(1);
            return Pause::Stop;
        }
        Pause::Go
    }

    fn twin(&self) -> Self {
        StopClock {
            rt: self.rt,
            clock: self.clock.twin(),
            signal: self.signal,
            stops: self.stops,
        }
    }

    fn rejoin(&mut self, other: Self) {
        self.stops = self.stops.max(other.stops);
    }
}
