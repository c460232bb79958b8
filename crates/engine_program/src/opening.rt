// The clock of a line's sessions.
ghost use Rattle.std.specs.Prelude.{◌≡◌};
ghost use Rattle.engine_program.specs.Opening.{steps_of};

use engine_line::Stepping;

/// The start and the step of a line's clock, in milliseconds.
pub fn steps_of(clock: Option<Stepping>) -> Option<(u64, u64)>
    ensures { result ≡ steps_of clock }
{
    match clock {
        None => None,
        Some(stepping) => Some((stepping.start, stepping.step)),
    }
}
