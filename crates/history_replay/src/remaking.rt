// Machines on which a journal's steps are made again.
ghost use Rattle.std.specs.Prelude.{◌≡◌, [], ◌∷◌, IfOk, OnOk, OnErr};
ghost use Rattle.engine_text.specs.declared.step.Step as steps;
ghost use Rattle.machine_model.specs.History.{IsLawful, reply_of};
ghost use Rattle.history_replay.specs.Standing.{Standing, behind};

use container_machine::Machine;
use engine_text::{Call, NoMemory, Reply};
use std::alloc::Global;

/// A machine on which a journal's steps are made again: bare, or with what keeps them. A call's reply
/// is the machine's own; what a line tells of it is for who compares.
pub trait Replays: Sized {
    ghost standing: { Self → Standing };

    /// The machine by itself, which can be asked.
    fn bare(&self) -> &Machine
        ensures { result.now.memory.state ≡ (standing self.now).state };

    /// Makes the step that is due first.
    fn step_due(&mut self, alloc: Global) -> Result<(), NoMemory>
        requires { IsLawful (standing self.old).state steps.Step.Due }
        ensures made { OnOk result
            (standing self.new ≡ behind (standing self.old) (steps.Step.Due ∷ [])) }
        ensures stays { OnErr result (standing self.new ≡ standing self.old) };

    /// Makes a lawful call, and gives its reply.
    fn make(
        &mut self,
        alloc: Global,
        conn: u32,
        moment: u64,
        call: &Call,
    ) -> Result<Reply, NoMemory>
        requires { IsLawful (standing self.old).state (steps.Step.Call conn moment call.now) }
        ensures reply { IfOk result
            (λ r. r ≡ reply_of (standing self.old).state conn moment call.now) }
        ensures made { OnOk result (standing self.new
            ≡ behind (standing self.old) (steps.Step.Call conn moment call.now ∷ [])) }
        ensures stays { OnErr result (standing self.new ≡ standing self.old) };
}
