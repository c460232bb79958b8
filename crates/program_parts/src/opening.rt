// How a line's daemon is opened.
ghost use Rattle.std.specs.Prelude.{◌≡◌, ◌≤◌};
ghost use Rattle.machine_model.specs.History.{greatest_moment};
ghost use Rattle.program_parts.specs.Opening.{OpensAt, StartsWithin};

use engine_line::Stepping;
use engine_ports::Clock;
use machine_model::GREATEST_MOMENT;

/// The moment of the opening, in milliseconds: the start of the line's clock, or the moment now.
pub fn opening_by<C: Clock>(stepping: Option<Stepping>, clock: &mut C) -> u64
    requires { StartsWithin stepping }
    ensures opens { OpensAt stepping result (C.times clock.old) (C.times clock.new) }
    ensures moment { result ≤ greatest_moment }
{
    match stepping {
        None => clock.now().min(GREATEST_MOMENT),
        Some(stepping) => stepping.start,
    }
}
