// The clock that sessions share.
ghost use Rattle.std.specs.Prelude.{◌≤◌};
ghost use Rattle.manual_clock.specs.Moves.{greatest_moment};
ghost use Rattle.manual_clock.specs.Shared.{MovedTo, MovedBy, manual_clock_over};

use crate::moving::{ManualTime, MoveFault};
use engine_ports::{Clock, Pause};
use std::sync::{Condvar, Mutex, Wait};
use std::time::{self, Duration};

/// The time of a clock, behind a lock.
#[derive(Drop)]
pub struct SharedTime {
    time: Mutex<ManualTime>,
    moved: Condvar,
}

impl SharedTime {
    pub fn new(time: ManualTime) -> SharedTime {
        SharedTime {
            time: Mutex::new(time),
            moved: Condvar::new(),
        }
    }

    /// The moment, in milliseconds since 1970; it adds nothing.
    pub fn moment<R: Wait>(&self, rt: &R) -> u64
        ensures { result ≤ greatest_moment }
    {
        self.time.lock(rt).moment()
    }

    /// Sets the moment, and wakes those who wait.
    pub fn move_to<R: Wait>(&self, rt: &R, to: u64) -> Result<u64, MoveFault>
        ensures { MovedTo to result }
    {
        let mut time = self.time.lock(rt);
        let answer = time.move_to(to);
        self.moved.notify_all();
        answer
    }

    /// Adds so many milliseconds, and wakes those who wait.
    pub fn move_by<R: Wait>(&self, rt: &R, ms: u64) -> Result<u64, MoveFault>
        ensures { MovedBy ms result }
    {
        let mut time = self.time.lock(rt);
        let answer = time.move_by(ms);
        self.moved.notify_all();
        answer
    }

    /// From now on each pause answers Stop, and those who wait are woken.
    pub fn stop<R: Wait>(&self, rt: &R) {
        let mut time = self.time.lock(rt);
        time.stop();
        self.moved.notify_all();
    }

    /// The moment; a clock that steps adds its step then.
    fn read<R: Wait>(&self, rt: &R) -> u64
        ensures { result ≤ greatest_moment }
    {
        self.time.lock(rt).read()
    }

    /// Waits for so many milliseconds, or until the clock is moved or stopped, where a pause has to be
    /// waited for.
    fn wait<R: Wait + time::Clock>(&self, rt: &R, ms: u64) {
        let time = self.time.lock(rt);
        if !time.is_waited_for() {
            return;
        }
        let (time, _) = self.moved.wait_timeout(rt, time, Duration::from_millis(ms));
        drop(time);
    }

    fn pause<R: Wait + time::Clock>(&self, rt: &R, ms: u64) -> Pause {
        self.wait(rt, ms);
        self.time.lock(rt).pass(ms)
    }
}

/// A clock over a time that others share. It tells no moments.
#[derive(Drop)]
pub struct ManualClock<'a, R> {
    rt: &'a R,
    time: &'a SharedTime,
    stops: u64,
}

impl<'a, R> ManualClock<'a, R> {
    ghost use Rattle.std.specs.Prelude.{◌≡◌};
    ghost use Rattle.engine_ports.specs.Clock.{untold_clock};

    /// A clock that was never stopped.
    pub fn new(rt: &'a R, time: &'a SharedTime) -> ManualClock<'a, R>
        ensures { manual_clock_over result ≡ untold_clock }
    {
        ManualClock { rt, time, stops: 0 }
    }

    /// How often a pause of it was stopped.
    pub fn stops(&self) -> u64
        ensures { result ≡ (manual_clock_over self.now).stops }
    {
        self.stops
    }
}

impl<R: Wait + time::Clock + Sync> Clock for ManualClock<'_, R> {
    ghost times = { manual_clock_over };

    fn now(&mut self) -> u64 {
        self.time.read(self.rt)
    }

    fn pause(&mut self, ms: u64) -> Pause {
        match self.time.pause(self.rt, ms) {
            Pause::Go => Pause::Go,
            Pause::Stop => {
                self.stops = self.stops.saturating_add(1);
                Pause::Stop
            }
        }
    }

    fn twin(&self) -> Self {
        ManualClock {
            rt: self.rt,
            time: self.time,
            stops: self.stops,
        }
    }

    fn rejoin(&mut self, other: Self) {
        self.stops = self.stops.max(other.stops);
    }
}
