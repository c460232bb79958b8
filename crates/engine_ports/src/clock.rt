// A clock that goes on by itself, and stops where it is told to.
ghost use Rattle.std.specs.Prelude.{◌≡◌, ℕ, List, [], ◌∷◌, Option};

use crate::{Clock, Pause};
use std::marker::Model;

/// A clock in memory, in milliseconds.
#[derive(Drop)]
pub struct StepClock {
    moment: u64,
    step: u64,
    stop_at: Option<u64>,
    pauses: u64,
    stops: u64,
}

impl Model for StepClock {
    ghost use Rattle.engine_ports.specs.Memory.{Steps};

    ghost Value = { Steps };

    ghost view = { λ s. record {
      moment = s.moment;
      step = s.step;
      stop_at = s.stop_at;
      pauses = s.pauses;
      stops = s.stops;
    } };
}

impl StepClock {
    /// A clock that begins at `start`, adds `step` at each reading, and from the pause numbered
    /// `stop_at` (from 0) on answers each pause by Stop.
    pub fn new(start: u64, step: u64, stop_at: Option<u64>) -> StepClock
        ensures { result
            ≡ record { moment = start; step = step; stop_at = stop_at; pauses = 0; stops = 0 } }
    {
        StepClock {
            moment: start,
            step,
            stop_at,
            pauses: 0,
            stops: 0,
        }
    }
}

impl Clock for StepClock {
    ghost use Rattle.std.specs.Prelude.{◌≡◌, ◌≤◌, ◌↔◌, ◌+◌, ◌^◌, ◌-◌, [], ◌∷◌, None, min, max, cond, if◌then◌else◌};
    ghost use Rattle.engine_ports.specs.Rose.{raised};
    ghost use Rattle.engine_ports.specs.Clock.{ClockView, ClockHanded, PauseSays, twin_of, rejoined};
    ghost use Rattle.engine_ports.specs.Memory.{sum_at_most, IsStopped, stops_after, clock_of};

    ghost times = { clock_of };

    // The moment that is held, and then the next.
    fn now(&mut self) -> u64
        ensures held { result ≡ self.old.moment }
        ensures step { self.new
            ≡ record self.old { moment = sum_at_most self.old.moment self.old.step } }
    {
        let moment = self.moment;
        self.moment = moment.saturating_add(self.step);
        moment
    }

    fn pause(&mut self, ms: u64) -> Pause
        ensures says { PauseSays result (clock_of self.old) (clock_of self.new) }
        ensures stop { (result ≡ Pause.Stop) ↔ IsStopped self.old.stop_at self.old.pauses }
        ensures after { self.new ≡ record self.old {
          moment = sum_at_most self.old.moment ms;
          pauses = raised self.old.pauses;
          stops = stops_after result self.old.stops;
        } }
    {
        let stop = match self.stop_at {
            Some(first) => first <= self.pauses,
            None => false,
        };
        self.moment = self.moment.saturating_add(ms);
        self.pauses = self.pauses.saturating_add(1);
        if stop {
            self.stops = self.stops.saturating_add(1);
            Pause::Stop
        } else {
            Pause::Go
        }
    }

    fn twin(&self) -> Self
        ensures { result ≡ self.now }
    {
        StepClock {
            moment: self.moment,
            step: self.step,
            stop_at: self.stop_at,
            pauses: self.pauses,
            stops: self.stops,
        }
    }

    fn rejoin(&mut self, other: Self)
        ensures { self.new ≡ record self.old { stops = max self.old.stops other.stops } }
    {
        self.stops = self.stops.max(other.stops);
    }
}
