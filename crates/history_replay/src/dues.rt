// The due steps before an entry's call (own: as many as the call's moment wants).
ghost use Rattle.std.specs.Prelude.{◌≡◌, ◌+◌, [], ◌∷◌, Decides, IfOk, IsFalse, IsTrue, OnOk, decimal};
ghost use Rattle.machine_model.specs.History.{IsLawful};
ghost use Rattle.engine_text.specs.declared.step.Step as steps;
ghost use Rattle.history_replay.specs.Checking.{IsRun};
ghost use Rattle.history_replay.specs.Counting as spec;
ghost use Rattle.history_replay.specs.Standing.{behind};
ghost use Rattle.journal_lines.specs.Due.{IsMomentFor};

use super::moments::{can_step, is_moment_for};
use super::remaking::Replays;
use container_machine::Machine;
use engine_text::{Entry, NoMemory, Text};
use std::alloc::Global;

/// The due steps that an entry keeps are right, and were made; or they are wrong, and the right
/// count is told.
#[derive(Drop)]
pub enum Dues {
    Made,
    Other { found: Text },
}

// The first of the counts that serve: the one that is known, or else this one, if it serves.
fn first_of(least: Option<u64>, serves: bool, count: u64) -> Option<u64>
    ensures { result ≡ spec.first_of least serves count }
{
    if least.is_none() && serves {
        return Some(count);
    }
    least
}

// Whether the least count is known, and the kept one is reached.
fn is_settled(least: Option<u64>, count: u64, kept: u64) -> bool
    ensures { result ≡ spec.is_settled least count kept }
{
    least.is_some() && kept <= count
}

// Whether the call's moment is one for it.
fn is_timed<M: Replays>(machine: &M, entry: &Entry) -> bool
    ensures { Decides result
        (IsMomentFor (M.standing machine.now).state entry.now.moment entry.now.call) }
{
    is_moment_for(machine.bare(), entry.moment, &entry.call)
}

// Whether no due step brings the call's moment, since the clock is past it or no step can be made.
fn is_past<M: Replays>(machine: &M, entry: &Entry) -> bool
    ensures past { IsTrue result → spec.IsPast (M.standing machine.now).state entry.now }
    ensures on { IsFalse result → IsLawful (M.standing machine.now).state steps.Step.Due }
{
    is_past_on(machine.bare(), entry)
}

// The same of a bare machine.
fn is_past_on(machine: &Machine, entry: &Entry) -> bool
    ensures past { IsTrue result → spec.IsPast machine.now.memory.state entry.now }
    ensures on { IsFalse result → IsLawful machine.now.memory.state steps.Step.Due }
{
    machine.kept();
    if entry.moment < machine.now() {
        return true;
    }
    !can_step(machine)
}

// Makes the step that is due first.
fn step_on<M: Replays>(machine: &mut M, alloc: Global) -> Result<(), NoMemory>
    requires { IsLawful (M.standing machine.old).state steps.Step.Due }
    ensures made { OnOk result
        (M.standing machine.new ≡ behind (M.standing machine.old) (steps.Step.Due ∷ [])) }
    ensures counted { OnOk result ((M.standing machine.new).state.step_count
        ≡ (M.standing machine.old).state.step_count + 1) }
{
    machine.step_due(alloc)?;
    Ok(())
}

// A count in decimal digits, or `none`.
fn count_text(alloc: Global, count: Option<u64>) -> Result<Text, NoMemory>
    ensures { IfOk result (λ text. text ≡ spec.count_text count) }
{
    match count {
        None => Text::of(alloc, "none"),
        Some(count) => spelled(alloc, count),
    }
}

/// A number in decimal digits.
pub fn spelled(alloc: Global, number: u64) -> Result<Text, NoMemory>
    ensures { IfOk result (λ text. text ≡ decimal number) }
{
    let text = format!(in alloc; "{number}")?;
    Ok(Text::from_string(text))
}

/// Makes the due steps before an entry's call, or tells how many there should be.
pub fn run_dues<M: Replays>(machine: &mut M, alloc: Global, entry: &Entry) -> Result<Dues, NoMemory>
    ensures { IfOk result
        (λ d. IsRun (M.standing machine.old) entry.now (M.standing machine.new) d) }
{
    let mut count = 0;
    let mut serves = is_timed(machine, entry);
    let mut least = first_of(None, serves, count);
    'dues: while !is_settled(least, count, entry.dues) && !is_past(machine, entry) {
        step_on(machine, alloc)?;
        count += 1;
        serves = is_timed(machine, entry);
        least = first_of(least, serves, count);
    }
    if serves && count == entry.dues {
        return Ok(Dues::Made);
    }
    let found = count_text(alloc, least)?;
    Ok(Dues::Other { found })
}
