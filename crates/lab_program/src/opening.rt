// How the line's daemon is opened, and its clock.
ghost use Rattle.std.specs.Prelude.{◌≡◌, ◌≤◌};
ghost use Rattle.machine_model.specs.History.{greatest_moment};
ghost use Rattle.lab_program.specs.Opening.{IsTimeOf, OpensAt};

use engine_ports::Clock;
use lab_line::LabClock;
use machine_model::GREATEST_MOMENT;
use manual_clock::{ManualTime, Pace, SharedTime};

/// The moment of the opening, in milliseconds: the start of the line's clock, or the moment now.
pub(crate) fn opening_by<C: Clock>(set: LabClock, clock: &mut C) -> u64
    ensures opens { OpensAt set result (C.times clock.old) (C.times clock.new) }
    ensures moment { result ≤ greatest_moment }
{
    match set {
        LabClock::System => clock.now().min(GREATEST_MOMENT),
        LabClock::Hand(start) => start.min(GREATEST_MOMENT),
        LabClock::Steps(stepping) => stepping.start.min(GREATEST_MOMENT),
    }
}

/// The time that sessions share, from this moment on, where the clock isn't the system's.
pub(crate) fn time_by(set: LabClock, moment: u64) -> Option<SharedTime>
    requires { moment ≤ greatest_moment }
    ensures { IsTimeOf set result }
{
    let pace = match set {
        LabClock::System => return None,
        LabClock::Hand(_) => Pace::Hand,
        LabClock::Steps(stepping) => Pace::Step(stepping.step),
    };
    Some(SharedTime::new(ManualTime::new(moment, pace)))
}
