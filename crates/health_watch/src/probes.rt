// One probe: a script run in a kernel of its own, up to its end or the timeout (Moby manual, HEALTHCHECK; own: the room).
ghost use Rattle.std.specs.Prelude.{ℕ, ◌≡◌, ◌≤◌, Some, IfOk};
ghost use Rattle.proc_kernel.specs.Processes.{Process};
ghost use Rattle.proc_kernel.specs.Times.{AreShort, IsTimely};
ghost use Rattle.health_watch.specs.Probes.{late, outcome_of, probe_of};
ghost use Rattle.health_watch.specs.ProbeSteps.{alone, ended_by, StepSays};

use super::outcome::Outcome;
use engine_text::{Effect, HealthSpec, NoMemory, Owner, Script, Signal};
use proc_kernel::{Kernel, program};
use std::alloc::Global;

/// The one process of a probe's kernel.
const PROBE: Owner = Owner::Exec(0);

/// How many bytes a probe may write: what an exec may.
const ROOM: u64 = 1_048_576;

/// The greatest number of a script's ops.
const MOST_OPS: u64 = 2_048;

/// A stop signal, which the kernel passes over.
const TERM: Signal = Signal { number: 15 };

// The code with which an effect ends a process.
fn ended_by(effect: Effect) -> Option<u8>
    ensures { result ≡ ended_by effect }
{
    match effect {
        Effect::Ended(code) => Some(code),
        _ => None,
    }
}

// A probe that is late fails at the timeout.
fn late(timeout: u64) -> Outcome
    ensures { result ≡ late timeout }
{
    Outcome {
        passes: false,
        after: timeout,
    }
}

// Lets the next op take effect: the outcome, once it is known.
fn step(kernel: &mut Kernel, alloc: Global, timeout: u64) -> Result<Option<Outcome>, NoMemory>
    requires { timeout ≤ 3600000 }
    ensures { IfOk result (λ known. (t : ℕ) (p : Process) → IsTimely t p
        → kernel.old.processes ≡ alone p → StepSays timeout t p known kernel.new.processes) }
{
    let Some(moment) = kernel.next_due(PROBE) else {
        return Ok(Some(late(timeout)));
    };
    if moment > timeout {
        return Ok(Some(late(timeout)));
    }
    let bytes = kernel.record_length(PROBE);
    kernel.reserve(alloc, 1, bytes)?;
    match ended_by(kernel.run_due(PROBE, moment)) {
        None => Ok(None),
        Some(code) => Ok(Some(Outcome {
            passes: code == 0,
            after: moment,
        })),
    }
}

// What a probe of that script comes to.
fn outcome_of(alloc: Global, script: Script, timeout: u64) -> Result<Outcome, NoMemory>
    requires time { timeout ≤ 3600000 }
    requires short { AreShort script.ops }
    ensures { IfOk result (λ o. o ≡ outcome_of (Some script) timeout) }
{
    let mut kernel = Kernel::new(alloc);
    kernel.reserve(alloc, 1, 0)?;
    kernel.spawn(PROBE, script, 0, false, TERM, ROOM);
    for _op in 0..MOST_OPS * (timeout + 1) {
        if let Some(known) = step(&mut kernel, alloc, timeout)? {
            return Ok(known);
        }
    }
    Ok(late(timeout))
}

/// What the probe of a check comes to that has that number in its run, from 1.
pub fn probe(alloc: Global, spec: &HealthSpec, number: u64) -> Result<Outcome, NoMemory>
    requires { spec.now.timeout ≤ 3600000 }
    ensures { IfOk result (λ o. o ≡ probe_of spec.now number) }
{
    match program(alloc, &spec.words, number)? {
        None => Ok(Outcome {
            passes: false,
            after: 0,
        }),
        Some(script) => outcome_of(alloc, script, spec.timeout),
    }
}
