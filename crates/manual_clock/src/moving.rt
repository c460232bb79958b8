// The moment of a clock that its owner moves.
ghost use Rattle.std.specs.Prelude.{◌≡◌, ◌≤◌, true, false, IfOk, OnErr};
ghost use Rattle.manual_clock.specs.Moves as spec;

use engine_ports::Pause;
use std::marker::Model;

/// The greatest moment, in milliseconds since 1970.
pub const GREATEST_MOMENT: u64 = 9_000_000_000_000;

/// The most that a move adds, in milliseconds: a week.
pub const LONGEST_MOVE: u64 = 604_800_000;

/// What a clock adds by itself.
#[derive(Clone, Copy, Debug, PartialEq, Eq)]
pub enum Pace {
    /// Nothing: it is moved by hand alone.
    Hand,
    /// So many milliseconds at each reading, and at each pause its time.
    Step(u64),
}

/// Why a move is refused.
#[derive(Clone, Copy, Debug, PartialEq, Eq)]
pub enum MoveFault {
    /// It would go back.
    Backwards,
    /// It would go on by more than a week.
    TooFar,
    /// It would go past the greatest moment.
    PastGreatest,
}

/// The moment of a clock, what it adds by itself, and whether it was stopped.
#[derive(Drop)]
pub struct ManualTime {
    moment: u64,
    pace: Pace,
    stopped: bool,
}

impl Model for ManualTime {
    ghost use Rattle.std.specs.Prelude.{◌≤◌};
    ghost use Rattle.manual_clock.specs.Moves.{Held, greatest_moment};

    ghost Value = { Held };

    ghost view = { λ t. record { moment = t.moment; pace = t.pace; stopped = t.stopped } };

    ghost invariant = { λ t. t.moment ≤ greatest_moment };
}

/// The moment so many milliseconds on, up to the greatest.
fn gone_on(now: u64, ms: u64) -> u64
    ensures value { result ≡ spec.gone_on now ms }
    ensures within { result ≤ spec.greatest_moment }
{
    now.saturating_add(ms).min(GREATEST_MOMENT)
}

/// The moment behind a reading.
fn after_reading(pace: Pace, now: u64) -> u64
    requires { now ≤ spec.greatest_moment }
    ensures value { result ≡ spec.after_reading pace now }
    ensures within { result ≤ spec.greatest_moment }
{
    match pace {
        Pace::Hand => now,
        Pace::Step(step) => gone_on(now, step),
    }
}

/// The moment behind a pause of so many milliseconds.
fn after_pause(pace: Pace, ms: u64, now: u64) -> u64
    requires { now ≤ spec.greatest_moment }
    ensures value { result ≡ spec.after_pause pace ms now }
    ensures within { result ≤ spec.greatest_moment }
{
    match pace {
        Pace::Hand => now,
        Pace::Step(_) => gone_on(now, ms),
    }
}

impl ManualTime {
    /// The time of a clock that begins at a moment, in milliseconds since 1970.
    pub fn new(start: u64, pace: Pace) -> ManualTime
        requires { start ≤ spec.greatest_moment }
        ensures { result ≡ record { moment = start; pace = pace; stopped = false } }
    {
        ManualTime {
            moment: start,
            pace,
            stopped: false,
        }
    }

    /// The moment.
    pub fn moment(&self) -> u64
        ensures value { result ≡ self.now.moment }
        ensures within { result ≤ spec.greatest_moment }
    {
        self.moment
    }

    /// Whether a pause has to be waited for: nothing is added by itself, and nobody stopped it.
    pub fn is_waited_for(&self) -> bool
        ensures { result ≡ spec.is_waited_for self.now.pace self.now.stopped }
    {
        match self.pace {
            Pace::Hand => !self.stopped,
            Pace::Step(_) => false,
        }
    }

    /// Sets the moment, and answers it.
    pub fn move_to(&mut self, to: u64) -> Result<u64, MoveFault>
        ensures within { self.old.moment ≤ spec.greatest_moment }
        ensures answer { result ≡ spec.moved_to self.old.moment to }
        ensures ok { IfOk result (λ moment. self.new ≡ record self.old { moment = moment }) }
        ensures err { OnErr result (self.new ≡ self.old) }
    {
        if to < self.moment {
            return Err(MoveFault::Backwards);
        }
        if self.moment + LONGEST_MOVE < to {
            return Err(MoveFault::TooFar);
        }
        if GREATEST_MOMENT < to {
            return Err(MoveFault::PastGreatest);
        }
        self.moment = to;
        Ok(to)
    }

    /// Adds so many milliseconds, and answers the moment then.
    pub fn move_by(&mut self, ms: u64) -> Result<u64, MoveFault>
        ensures within { self.old.moment ≤ spec.greatest_moment }
        ensures answer { result ≡ spec.moved_by self.old.moment ms }
        ensures ok { IfOk result (λ moment. self.new ≡ record self.old { moment = moment }) }
        ensures err { OnErr result (self.new ≡ self.old) }
    {
        let moment = self.moment;
        if LONGEST_MOVE < ms {
            return Err(MoveFault::TooFar);
        }
        self.move_to(moment + ms)
    }

    /// The moment. A clock that steps adds its step then.
    pub fn read(&mut self) -> u64
        ensures held { result ≡ self.old.moment }
        ensures within { result ≤ spec.greatest_moment }
        ensures after { self.new ≡ record self.old {
          moment = spec.after_reading self.old.pace self.old.moment;
        } }
    {
        let moment = self.moment;
        self.moment = after_reading(self.pace, moment);
        moment
    }

    /// What a pause answers. A clock that steps adds its time.
    pub fn pass(&mut self, ms: u64) -> Pause
        ensures answer { result ≡ spec.pause_by self.old.stopped }
        ensures after { self.new ≡ record self.old {
          moment = spec.after_pause self.old.pace ms self.old.moment;
        } }
    {
        self.moment = after_pause(self.pace, ms, self.moment);
        if self.stopped { Pause::Stop } else { Pause::Go }
    }

    /// From now on each pause answers Stop.
    pub fn stop(&mut self)
        ensures { self.new ≡ record self.old { stopped = true } }
    {
        self.stopped = true;
    }
}
