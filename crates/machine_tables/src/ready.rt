// When a ticket is ready, and with what.
ghost use Rattle.std.specs.Prelude.{◌≡◌, ℕ, ◌==◌, List, find, option_map};
ghost use Rattle.machine_model.specs.Effects.Settle.{has_died, reply_if};
ghost use Rattle.machine_tables.specs.Held.{reply_in, replies_in};
ghost use Rattle.machine_tables.specs.Settled.{deaths, died_in, code_else};

use crate::death::Death;
use crate::held::Ready;

/// The death, if it is that container's.
pub fn death_of(death: Option<Death>, number: u64) -> Option<Death>
    ensures { option_map died_in result ≡ find (λ d. d.number == number) (deaths death) }
{
    match death {
        None => None,
        Some(d) => { if d.number == number { Some(d) } else { None } }
    }
}

/// Whether there was one.
pub fn has_died(death: Option<Death>) -> bool
    ensures { result ≡ has_died (option_map died_in death) }
{
    match death {
        None => false,
        Some(_) => true,
    }
}

/// Its code, else that one.
pub fn code_of(death: Option<Death>, code: u8) -> u8
    ensures { result ≡ code_else (option_map died_in death) code }
{
    match death {
        None => code,
        Some(d) => d.code,
    }
}

/// Ready with that, where it holds.
pub fn ready_if(holds: bool, ready: Ready) -> Option<Ready>
    ensures { (seed : List ℕ) (n : ℕ) → replies_in seed n result ≡ reply_if holds
        (reply_in seed n ready) }
{
    if holds { Some(ready) } else { None }
}
