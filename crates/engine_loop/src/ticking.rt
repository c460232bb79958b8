// A clock that is lent to a loop.
ghost use Rattle.std.specs.Prelude.{◌≡◌, ℕ, [], ◌∷◌};
ghost use Rattle.engine_ports.specs.Clock.{ClockView, ClockHanded, PauseSays};

use engine_ports::{Clock, Pause};

/// What a loop asks of a clock: it stays the same one, and needn't go to another thread.
pub trait Ticking: Drop {
    ghost times: { Self → ClockView };

    ghost which: { Self → ℕ };

    fn now(&mut self) -> u64
        ensures handed { ClockHanded (times self.old) (result ∷ []) (times self.new) }
        ensures same { which self.new ≡ which self.old };

    fn pause(&mut self, ms: u64) -> Pause
        ensures says { PauseSays result (times self.old) (times self.new) }
        ensures same { which self.new ≡ which self.old };
}

/// A clock by the reference to it.
#[derive(Drop)]
pub struct LentClock<'a, C> {
    pub clock: &'a mut C,
}

impl<'a, C: Clock> Ticking for LentClock<'a, C> {
    ghost times = { λ l. C.times l.clock.now };

    ghost which = { λ l. l.clock.ghost_name };

    fn now(&mut self) -> u64 {
        self.clock.now()
    }

    fn pause(&mut self, ms: u64) -> Pause {
        self.clock.pause(ms)
    }
}
