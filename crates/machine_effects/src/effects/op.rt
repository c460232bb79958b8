// The next op of a process.
ghost use Rattle.std.specs.Prelude.{◌≡◌, ℕ, ◌+◌, ◌<◌, ◌≤◌, Some};
ghost use Rattle.engine_text.specs.declared.script.Effect as effects;
ghost use Rattle.proc_kernel.specs.Processes.{run_due};
ghost use Rattle.proc_kernel.specs.Tables.{due_at, length_at, process_of};
ghost use Rattle.machine_model.specs.State.{owner_number};
ghost use Rattle.machine_model.specs.Effects.Meet.{step_process, by_effect, end_of, write_record};
ghost use Rattle.machine_events.specs.Fit.{died_of};
ghost use Rattle.machine_events.specs.Ops.{HasRecordRoom, CanEnd};

use crate::tables::Tables;
use engine_text::{Bytes, Effect, Owner, Stream};
use machine_events::EndMemory;
use machine_model::GREATEST_MOMENT;

impl Tables {
    // What the owner's process has written is kept.
    fn write(&mut self, owner: Owner, stream: Stream, payload: Bytes)
        requires { HasRecordRoom owner self.old }
        ensures state { self.new.state ≡ (write_record owner stream payload self.old.state).state }
        ensures room { self.new.room ≡ self.old.room }
    {
        match owner {
            Owner::Container(number) => self.write_log(number, stream, payload),
            Owner::Exec(number) => self.write_output(number, stream, payload),
        }
    }

    // The owner's process has ended with that code.
    fn end_owner(&mut self, owner: Owner, code: u8, brought: EndMemory) -> Option<u8>
        requires { CanEnd (by_effect (effects.Effect.Ended code)) owner brought self.old }
        ensures state { self.new.state ≡ (end_of owner code self.old.state).state }
        ensures died { died_of (owner_number owner) result
            ≡ (end_of owner code self.old.state).died }
        ensures room { self.new.room ≡ self.old.room }
    {
        match owner {
            Owner::Container(number) => {
                self.end_main(code, number, brought);
                Some(code)
            }
            Owner::Exec(number) => {
                self.end_exec(code, number);
                None
            }
        }
    }

    // What a step of the owner's process does beyond the process.
    fn owner_effect(&mut self, effect: Effect, owner: Owner, brought: EndMemory) -> Option<u8>
        requires kept { HasRecordRoom owner self.old }
        requires end { CanEnd (by_effect effect) owner brought self.old }
        ensures state { self.new.state ≡ (by_effect effect owner self.old.state).state }
        ensures died { died_of (owner_number owner) result
            ≡ (by_effect effect owner self.old.state).died }
        ensures room { self.new.room ≡ self.old.room }
    {
        match effect {
            Effect::Lives => None,
            Effect::Wrote(stream, payload) => {
                self.write(owner, stream, payload);
                None
            }
            Effect::Ended(code) => self.end_owner(owner, code, brought),
        }
    }

    /// The next op of the owner's process, and what it does to the machine.
    pub fn run_op(&mut self, owner: Owner, brought: EndMemory) -> Option<u8>
        requires due { due_at (process_of owner self.old.state.processes)
            ≡ Some self.old.state.clock }
        requires clock { self.old.state.clock ≤ GREATEST_MOMENT }
        requires length { length_at (process_of owner self.old.state.processes) ≤ self.old.bytes }
        requires kept { HasRecordRoom owner self.old }
        requires end { CanEnd (step_process run_due) owner brought self.old }
        requires spare { 1 < self.old.spare }
        ensures state { self.new.state ≡ (step_process run_due owner self.old.state).state }
        ensures died { died_of (owner_number owner) result
            ≡ (step_process run_due owner self.old.state).died }
        ensures room { self.new.room ≡ self.old.room }
    {
        let effect = self.run_process(owner);
        self.owner_effect(effect, owner, brought)
    }
}
