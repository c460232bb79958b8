// The steps of a written history, made again one by one.
ghost use Rattle.std.specs.Prelude.{◌≡◌, [], ◌∷◌, ◌++◌, IfOk, OnErr, OnOk};
ghost use Rattle.engine_text.specs.declared.step.Step as steps;
ghost use Rattle.machine_model.specs.History.{IsLawful, reply_of, state_after};
ghost use Rattle.daemon_core.specs.Keeping.{history_of};
ghost use Rattle.daemon_core.specs.Passing.{charter, whole_pass};
ghost use Rattle.daemon_core.specs.Storing.{pass_of};

use crate::daemon::Daemon;
use container_machine::Machine;
use engine_text::{Call, NoMemory, Reply};
use std::alloc::Global;

impl Daemon {
    /// The machine by itself, which can be asked.
    pub fn machine(&self) -> &Machine
        ensures { result.now.memory.state
            ≡ state_after (charter self.now) (history_of self.now.stored.journal) }
    {
        &self.stored.machine
    }

    /// Makes the step that is due first, and no other.
    pub fn make_due(&mut self, alloc: Global) -> Result<(), NoMemory>
        requires { IsLawful (state_after (charter self.old) (history_of self.old.stored.journal))
            steps.Step.Due }
        ensures made { OnOk result (whole_pass self.new ≡ pass_of (charter self.old)
            (history_of self.old.stored.journal ++ steps.Step.Due ∷ [])) }
        ensures stays { OnErr result (whole_pass self.new ≡ whole_pass self.old) }
    {
        self.stored.step_due(alloc)
    }

    /// Makes a lawful call, and nothing before it, whether its journal has room or not.
    pub fn make_call(
        &mut self,
        alloc: Global,
        conn: u32,
        moment: u64,
        call: &Call,
    ) -> Result<Reply, NoMemory>
        requires { IsLawful (state_after (charter self.old) (history_of self.old.stored.journal))
            (steps.Step.Call conn moment call.now) }
        ensures reply { IfOk result (λ r. r ≡ reply_of
            (state_after (charter self.old) (history_of self.old.stored.journal))
            conn moment call.now) }
        ensures made { OnOk result (whole_pass self.new ≡ pass_of (charter self.old)
            (history_of self.old.stored.journal ++ steps.Step.Call conn moment call.now ∷ [])) }
        ensures stays { OnErr result (whole_pass self.new ≡ whole_pass self.old) }
    {
        let made = call.copy(alloc)?;
        self.stored.make(alloc, conn, moment, made)
    }
}
