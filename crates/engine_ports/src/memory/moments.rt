// A clock in memory that tells its moments.
ghost use Rattle.std.specs.Prelude.{◌≡◌, Some, IfOk};

use super::NoMemory;
use crate::{Clock, Pause};
use std::alloc::Global;
use std::collections::VecDeque;
use std::marker::Model;

/// A clock of given moments, in milliseconds.
#[derive(Drop)]
pub struct MemClock {
    coming: Option<VecDeque<u64>>,
    last: u64,
    stop_at: Option<u64>,
    pauses: u64,
    stops: u64,
}

impl Model for MemClock {
    ghost use Rattle.std.specs.Option.{option_map};
    ghost use Rattle.engine_ports.specs.Memory.{Moments};

    ghost Value = { Moments };

    ghost view = { λ s. record {
      coming = option_map (λ q. q.items) s.coming;
      last = s.last;
      stop_at = s.stop_at;
      pauses = s.pauses;
      stops = s.stops;
    } };
}

impl MemClock {
    ghost use Rattle.engine_ports.specs.Memory.{IsMoment};

    /// A clock that hands these moments, one at each reading; from the pause numbered `stop_at`
    /// (from 0) on it answers each pause by Stop.
    pub fn new(alloc: Global, moments: &[u64], stop_at: Option<u64>) -> Result<MemClock, NoMemory>
        ensures { IfOk result (λ s. s
            ≡ record {
              coming = Some moments.now;
              last = 0;
              stop_at = stop_at;
              pauses = 0;
              stops = 0;
            }) }
    {
        Ok(MemClock {
            coming: Some(VecDeque::from_vec(moments.to_vec(alloc)?)),
            last: 0,
            stop_at,
            pauses: 0,
            stops: 0,
        })
    }

    // The first of the moments to come; behind them the last one again.
    fn next(&mut self) -> u64
        ensures { IsMoment self.old.coming result self.old self.new }
    {
        if let Some(coming) = &mut self.coming {
            match coming.pop_front() {
                Some(moment) => self.last = moment,
                None => self.coming = None,
            }
        }
        self.last
    }
}

impl Clock for MemClock {
    ghost use Rattle.std.specs.Prelude.{◌≡◌, ◌↔◌, [], ◌∷◌, max, None};
    ghost use Rattle.engine_ports.specs.Rose.{raised};
    ghost use Rattle.engine_ports.specs.Clock.{ClockHanded, PauseSays};
    ghost use Rattle.engine_ports.specs.Memory.{IsMoment, IsStopped, stops_after, told_by};

    ghost times = { told_by };

    fn now(&mut self) -> u64
        ensures says { ClockHanded (told_by self.old) (result ∷ []) (told_by self.new) }
        ensures exact { IsMoment self.old.coming result self.old self.new }
    {
        self.next()
    }

    fn pause(&mut self, _: u64) -> Pause
        ensures says { PauseSays result (told_by self.old) (told_by self.new) }
        ensures stop { (result ≡ Pause.Stop) ↔ IsStopped self.old.stop_at self.old.pauses }
        ensures after { self.new ≡ record self.old {
          pauses = raised self.old.pauses;
          stops = stops_after result self.old.stops;
        } }
    {
        let stop = match self.stop_at {
            Some(first) => first <= self.pauses,
            None => false,
        };
        self.pauses = self.pauses.saturating_add(1);
        if stop {
            self.stops = self.stops.saturating_add(1);
            Pause::Stop
        } else {
            Pause::Go
        }
    }

    // It hands the last moment again.
    fn twin(&self) -> Self
        ensures { result ≡ record self.now { coming = None } }
    {
        MemClock {
            coming: None,
            last: self.last,
            stop_at: self.stop_at,
            pauses: self.pauses,
            stops: self.stops,
        }
    }

    fn rejoin(&mut self, other: Self)
        ensures { self.new ≡ record self.old { stops = max self.old.stops other.stops } }
    {
        self.stops = self.stops.max(other.stops);
    }
}
