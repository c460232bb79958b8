// The moment that counts.
ghost use Rattle.std.specs.Prelude.{◌≡◌};
ghost use Rattle.daemon_core.specs.Storing.{moment_of};

use machine_model::{GREATEST_JUMP, GREATEST_MOMENT};

/// The moment that counts of a handed one, by the moment of the last step.
pub fn moment_used(clock: u64, handed: u64) -> u64
    ensures { result ≡ moment_of clock handed }
{
    let latest = clock.saturating_add(GREATEST_JUMP).min(GREATEST_MOMENT);
    clock.max(handed.min(latest))
}
