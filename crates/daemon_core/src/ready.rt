// Which calls can be made now.
ghost use Rattle.std.specs.Prelude.{◌≡◌};
ghost use Rattle.std.specs.Option.{option_map};
ghost use Rattle.daemon_core.specs.Storing.{drop_of, is_open};

use container_machine::Machine;
use engine_text::Call;

/// The ticket that is dropped, where the call is a drop.
pub fn drop_of(call: Option<&Call>) -> Option<u64>
    ensures { result ≡ drop_of (option_map (λ c. c.now) call.entry) }
{
    match call {
        Some(Call::Drop { ticket }) => Some(*ticket),
        _ => None,
    }
}

/// Whether the call can be made at the moment, where no step acts any more: a take waits for its
/// ticket, and for all that is due; a feed waits for its run, and for room.
pub fn is_open(machine: &Machine, moment: u64, call: &Call) -> bool
    ensures { result ≡ is_open machine.now.memory.state moment call.now }
{
    match call {
        Call::Take { .. } => machine.is_ready(call) && !machine.is_due(moment),
        _ => machine.is_ready(call),
    }
}
