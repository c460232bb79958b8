// The statuses that a run ends with.
ghost use Rattle.std.specs.Prelude.{◌≡◌};
ghost use Rattle.program_parts.specs.Statuses.{status_by};

use session_model::Worst;

/// The status of what the endings of all sessions call for.
pub fn status_by(worst: Worst) -> u8
    ensures { result ≡ status_by worst }
{
    match worst {
        Worst::NoMemory => 6,
        Worst::Fault => 4,
        Worst::Stopped => 5,
        Worst::Refused => 3,
        Worst::Closed => 0,
    }
}
