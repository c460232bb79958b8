// The end of a main process in a step, by its code.
ghost use Rattle.std.specs.Prelude.{◌≡◌};
ghost use Rattle.machine_tables.specs.Settled.{deaths};
ghost use Rattle.machine_events.specs.Fit.{died_of};

use machine_tables::Death;

/// The end of the container's main process with that code, if it ended.
pub fn death_with(number: u64, code: Option<u8>) -> Option<Death>
    ensures { deaths result ≡ died_of number code }
{
    match code {
        None => None,
        Some(code) => Some(Death { number, code }),
    }
}
