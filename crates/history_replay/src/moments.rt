// Whether a step may be made (own: a call stands where nothing is due at or before its moment).
ghost use Rattle.std.specs.Prelude.{◌≡◌, Decides};
ghost use Rattle.engine_text.specs.declared.step.Step as steps;
ghost use Rattle.journal_lines.specs.Due.{IsMomentFor};
ghost use Rattle.machine_model.specs.History as spec;

use container_machine::Machine;
use engine_text::Call;
use machine_model::{GREATEST_JUMP, GREATEST_MOMENT, MOST_STEPS};

// The last moment to which the clock may go in one step.
fn latest(machine: &Machine) -> u64
    ensures { result ≡ spec.latest machine.now.memory.state }
{
    let week = machine.now() + GREATEST_JUMP;
    week.min(GREATEST_MOMENT)
}

// Whether a step may still be made.
fn has_steps(machine: &Machine) -> bool
    ensures { result ≡ spec.has_steps machine.now.memory.state }
{
    machine.steps() < MOST_STEPS
}

/// Whether a due step may be made.
pub fn can_step(machine: &Machine) -> bool
    ensures { Decides result (spec.IsLawful machine.now.memory.state steps.Step.Due) }
{
    if !has_steps(machine) {
        return false;
    }
    machine.is_due(latest(machine))
}

// Whether nothing is due at or before the moment, to which the clock may go.
fn is_timely(machine: &Machine, moment: u64) -> bool
    ensures { Decides result (spec.IsTimely machine.now.memory.state moment) }
{
    if moment < machine.now() || latest(machine) < moment {
        return false;
    }
    !machine.is_due(moment)
}

/// Whether the moment is one for the call.
pub fn is_moment_for(machine: &Machine, moment: u64, call: &Call) -> bool
    ensures { Decides result (IsMomentFor machine.now.memory.state moment call.now) }
{
    match call {
        Call::Drop { .. } => moment == machine.now(),
        Call::Take { .. } => is_timely(machine, moment),
        _ => has_steps(machine) && is_timely(machine, moment),
    }
}
