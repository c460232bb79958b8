// The steps of a bare machine, made again.
ghost use Rattle.std.specs.Prelude.{◌≡◌, IfOk, None, OnOk, OnErr};
ghost use Rattle.engine_text.specs.declared.step.Step as steps;
ghost use Rattle.machine_model.specs.History.{IsLawful, after_step, reply_of};

use super::remaking::Replays;
use container_machine::Machine;
use engine_text::{Call, NoMemory, Reply};
use std::alloc::Global;

// Makes the step that is due first.
fn step_due(machine: &mut Machine, alloc: Global) -> Result<(), NoMemory>
    requires { IsLawful machine.old.memory.state steps.Step.Due }
    ensures made { OnOk result
        (machine.new.memory.state ≡ after_step machine.old.memory.state steps.Step.Due) }
    ensures stays { OnErr result (machine.new.memory.state ≡ machine.old.memory.state) }
{
    let prepared = machine.prepare_due(alloc)?;
    machine.commit_due(prepared);
    Ok(())
}

// Makes a lawful call, and gives its reply.
fn ask(
    machine: &mut Machine,
    alloc: Global,
    conn: u32,
    moment: u64,
    call: &Call,
) -> Result<Reply, NoMemory>
    requires { IsLawful machine.old.memory.state (steps.Step.Call conn moment call.now) }
    ensures reply { IfOk result (λ r. r ≡ reply_of machine.old.memory.state conn moment call.now) }
    ensures made { OnOk result (machine.new.memory.state
        ≡ after_step machine.old.memory.state (steps.Step.Call conn moment call.now)) }
    ensures stays { OnErr result (machine.new.memory.state ≡ machine.old.memory.state) }
{
    let prepared = machine.prepare(alloc, conn, moment, call)?;
    Ok(machine.commit(prepared))
}

impl Replays for Machine {
    ghost standing = { λ m. record { state = m.memory.state; kept = None } };

    fn bare(&self) -> &Machine {
        self
    }

    fn step_due(&mut self, alloc: Global) -> Result<(), NoMemory> {
        step_due(self, alloc)
    }

    fn make(
        &mut self,
        alloc: Global,
        conn: u32,
        moment: u64,
        call: &Call,
    ) -> Result<Reply, NoMemory> {
        ask(self, alloc, conn, moment, call)
    }
}
