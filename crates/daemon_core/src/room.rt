// Room for a call in the journal.
ghost use Rattle.std.specs.Prelude.{◌≡◌};
ghost use Rattle.machine_model.specs.History.{has_steps};
ghost use Rattle.journal_lines.specs.Room.{places_of, has_room};
ghost use Rattle.daemon_core.specs.Storing.{charter_for};

use container_machine::Machine;
use engine_text::Call;
use machine_model::MOST_STEPS;

/// Whether a step may still be made.
pub fn has_steps(machine: &Machine) -> bool
    ensures { result ≡ has_steps machine.now.memory.state }
{
    machine.steps() < MOST_STEPS
}

/// The places that a call takes in the journal: two where it gives a ticket.
fn places_of(call: &Call) -> u64
    ensures { result ≡ places_of call.now }
{
    match call {
        Call::Stop { .. } | Call::Restart { .. } | Call::Wait { .. } => 2,
        Call::Remove { force, .. } => if *force { 2 } else { 1 },
        _ => 1,
    }
}

/// Whether a journal of at most that many entries has room for the call.
pub fn has_room(machine: &Machine, greatest: u64, call: &Call) -> bool
    ensures { result ≡ has_room (charter_for greatest) machine.now.memory.state call.now }
{
    match call {
        Call::Take { .. } | Call::Drop { .. } => true,
        _ => {
            let entries = u128::from(machine.calls())
                + u128::from(machine.ticket_count())
                + u128::from(places_of(call));
            entries <= u128::from(greatest) && has_steps(machine)
        }
    }
}
