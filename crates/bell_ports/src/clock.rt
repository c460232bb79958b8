// A clock whose pauses a bell ends.
use crate::bell::Bell;
use engine_ports::{Clock, Pause};
use std::sync::Wait;

/// The clock below, whose pauses end early where the bell was rung since the one before began: so a ring ends the pause in which it is
/// heard and shortens the next one, since what was served may fall due a moment later. It tells what the clock below tells.
#[derive(Drop)]
pub struct BellClock<'b, R, C> {
    rt: &'b R,
    bell: &'b Bell,
    clock: C,
    heard: u64,
}

impl<'b, R, C> BellClock<'b, R, C> {
    ghost use Rattle.std.specs.Prelude.{◌≡◌};

    pub fn new(rt: &'b R, bell: &'b Bell, clock: C) -> BellClock<'b, R, C>
        ensures { result.clock ≡ clock }
    {
        BellClock {
            rt,
            bell,
            clock,
            heard: bell.rings(),
        }
    }

    /// The clock below; the bell is rung.
    pub(crate) fn into_clock(self) -> C
        ensures { result ≡ self.entry.clock }
    {
        let BellClock { bell, clock, .. } = self;
        bell.ring();
        clock
    }
}

impl<R: Wait + Sync, C: Clock + Drop> Clock for BellClock<'_, R, C> {
    ghost times = { λ c. C.times c.clock };

    fn now(&mut self) -> u64 {
        self.clock.now()
    }

    /// A pause of so many milliseconds at most, and of five at least.
    fn pause(&mut self, ms: u64) -> Pause {
        let rings = self.bell.rings();
        let least = self.bell.enter(ms);
        let answer = self.clock.pause(least);
        if answer == Pause::Go {
            self.bell
                .sleep(self.rt, self.heard, ms.saturating_sub(least));
        }
        self.heard = rings;
        self.bell.leave();
        answer
    }

    fn twin(&self) -> Self {
        BellClock {
            rt: self.rt,
            bell: self.bell,
            clock: self.clock.twin(),
            heard: self.heard,
        }
    }

    fn rejoin(&mut self, other: Self) {
        let BellClock { clock, .. } = other;
        self.clock.rejoin(clock);
    }
}
