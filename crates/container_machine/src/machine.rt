// The machine over its tables.
ghost use Rattle.std.specs.Prelude.{◌≡◌, ℕ, ◌≤◌, IfOk, OnErr, OnOk, IsFalse};
ghost use Rattle.engine_text.specs.declared.step.Step as steps;
ghost use Rattle.machine_model.specs.Call.{outcome_of};
ghost use Rattle.machine_model.specs.History.{IsLawful, is_drop, is_due, reply_of};
ghost use Rattle.machine_model.specs.State.{initial_state};
ghost use Rattle.engine_text.specs.Soundness.{IsSound};
ghost use Rattle.container_machine.specs.DuePlans.{HasDueRoom};
ghost use Rattle.container_machine.specs.Dues.{IsForDue};
ghost use Rattle.call_plans.specs.Making.{Makes};
ghost use Rattle.call_plans.specs.Needs.{HasSpace};
ghost use Rattle.call_plans.specs.Parts.{IsStep};
ghost use Rattle.machine_model.specs.Consistency.{IsConsistent};
ghost use Rattle.call_plans.specs.Prepared.{Asked, asked_by, IsFor, IsForSome, step_of_call};

use crate::due;
use crate::due::{DuePlan, PreparedDue};
use crate::found::prepare_at;
use crate::performing::perform;
use call_plans::{Prepared, Space, space_of};
use engine_text::{Call, NoMemory, Reply};
use machine_effects::Tables;
use machine_model::{GREATEST_MOMENT, KEPT_EVENTS};
use std::alloc::Global;
use std::marker::Model;

/// The machine.
#[derive(Drop)]
pub struct Machine {
    pub(super) tables: Tables,
}

impl Model for Machine {
    ghost use Rattle.call_plans.specs.Parts.{MachineParts};

    ghost Value = { MachineParts };

    ghost use Rattle.container_machine.specs.Views.{parts_of, IsSoundInside};

    ghost view = { parts_of };

    ghost invariant = { IsSoundInside };
}

impl Machine {
    /// No container. The moment is at most the greatest one.
    pub fn new(alloc: Global, seed: [u8; 32], moment: u64) -> Result<Machine, NoMemory>
        requires { moment ≤ GREATEST_MOMENT }
        ensures { IfOk result (λ m. m.memory.state ≡ initial_state seed moment) }
    {
        let tables = Tables::new(alloc, seed, moment)?;
        Ok(Machine { tables })
    }

    // The call as it is answered in this state.
    fn prepare_call(
        &self,
        alloc: Global,
        conn: u32,
        moment: u64,
        call: &Call,
    ) -> Result<Prepared, NoMemory>
        requires sound { IsSound call.now }
        requires until { moment ≤ GREATEST_MOMENT }
        requires heard { IsFalse (is_drop call.now) }
        ensures { IfOk result
            (λ p. Makes p moment self.now.memory.state (outcome_of call.now conn)) }
    {
        self.kept();
        match call {
            Call::Attach { target, .. }
            | Call::ExecCreate { target, .. }
            | Call::Kill { target, .. }
            | Call::Inspect { target }
            | Call::Logs { target, .. }
            | Call::Pause { target }
            | Call::Remove { target, .. }
            | Call::Rename { target, .. }
            | Call::Restart { target, .. }
            | Call::Start { target }
            | Call::Stop { target, .. }
            | Call::Unpause { target }
            | Call::Update { target, .. }
            | Call::Wait { target, .. } => {
                prepare_at(&self.tables, alloc, conn, moment, target.as_str(), call)
            }
            Call::Create(asked) => changing_calls::create::prepare(
                &self.tables,
                alloc,
                moment,
                asked,
            ),
            Call::Events {
                since,
                until,
                filter,
            } => reading_calls::events::prepare(
                &self.tables,
                alloc,
                moment,
                *since,
                *until,
                filter,
            ),
            Call::ExecInspect { id } => {
                reading_calls::execs::inspect::prepare(&self.tables, alloc, moment, id.as_str())
            }
            Call::ExecStart { id, detach } => {
                changing_calls::execs::start::prepare(
                    &self.tables,
                    alloc,
                    moment,
                    id.as_str(),
                    *detach,
                )
            }
            Call::Feed { owner, run, bytes } => {
                changing_calls::feed::prepare(&self.tables, alloc, moment, *owner, *run, bytes)
            }
            Call::FeedEnd { owner, run } => Ok(changing_calls::feed::prepare_end(
                &self.tables,
                alloc,
                moment,
                *owner,
                *run,
            )),
            Call::JournalRead => reading_calls::events::prepare_journal(
                &self.tables,
                alloc,
                moment,
            ),
            Call::List { all, limit, filter } => {
                reading_calls::list::prepare(&self.tables, alloc, moment, *all, *limit, filter)
            }
            Call::Take { ticket } => reading_calls::take::prepare(
                &self.tables,
                alloc,
                moment,
                *ticket,
            ),
            Call::VolumeCreate { name, labels } => {
                changing_calls::volumes::create::prepare(
                    &self.tables,
                    alloc,
                    moment,
                    name.as_str(),
                    labels,
                )
            }
            Call::VolumeInspect { name } => {
                reading_calls::volumes::inspect::prepare(&self.tables, alloc, moment, name.as_str())
            }
            Call::VolumeList { filter } => {
                reading_calls::volumes::list::prepare(&self.tables, alloc, moment, filter)
            }
            Call::VolumeRemove { name } => {
                changing_calls::volumes::remove::prepare(&self.tables, alloc, moment, name.as_str())
            }
            Call::Drop { .. } => unreachable!(),
        }
    }

    /// The state is one that a machine can have.
    pub fn kept(&self)
        ensures state { IsConsistent self.now.memory.state }
        ensures moments { KEPT_EVENTS ≤ self.now.memory.room.moments }
    {
        let _ = &self.tables;
    }

    // So much room.
    fn make_space(&mut self, alloc: Global, space: Space) -> Result<(), NoMemory>
        ensures state { self.new.memory.state ≡ self.old.memory.state }
        ensures room { OnOk result (HasSpace space self.new.memory) }
    {
        match space {
            Space::Nothing => Ok(()),
            Space::End => self.tables.make_room(alloc),
            Space::TicketEnd => self.tables.make_halt_room(alloc),
            Space::Removal => self.tables.make_removal_room(),
            Space::Ticket => self.tables.make_ticket_room(),
            Space::Process => self.tables.make_process_room(alloc),
            Space::Container { mounts } => self.tables.make_add_room(alloc, mounts),
            Space::Exec => self.tables.make_exec_room(alloc),
            Space::Volume => self.tables.make_volume_room(alloc),
        }
    }

    /// Makes a lawful call ready: its reply, its events, and all the memory that its commit wants.
    /// A drop takes no memory.
    pub fn prepare(
        &mut self,
        alloc: Global,
        conn: u32,
        moment: u64,
        call: &Call,
    ) -> Result<Prepared, NoMemory>
        requires lawful { IsLawful self.old.memory.state (steps.Step.Call conn moment call.now) }
        ensures state { self.new.memory.state ≡ self.old.memory.state }
        ensures ready { IfOk result (λ p. IsFor p self.new (asked_by conn moment call.now)) }
        ensures drop { OnErr result (IsFalse (is_drop call.now)) }
    {
        self.kept();
        if let Call::Drop { ticket } = call {
            return Ok(reading_calls::take::prepare_drop(alloc, moment, *ticket));
        }
        let prepared = self.prepare_call(alloc, conn, moment, call)?;
        self.make_space(alloc, space_of(&prepared.plan))?;
        Ok(prepared)
    }

    /// Makes the call that was prepared on this machine, unchanged since. It takes no memory.
    pub fn commit(&mut self, prepared: Prepared) -> Reply
        requires { IsForSome prepared self.old }
        ensures step { (asked : Asked) → IsFor prepared self.old asked
            → IsStep (step_of_call asked) self.old self.new }
        ensures reply { (asked : Asked) → IsFor prepared self.old asked → result
            ≡ reply_of self.old.memory.state asked.connection asked.moment asked.call }
    {
        let Prepared {
            moment,
            reply,
            events,
            plan,
        } = prepared;
        self.tables.stand_at(moment);
        let death = perform(&mut self.tables, plan);
        self.tables.settle(death);
        self.tables.count(events.as_slice(), 1);
        reply
    }

    /// Whether something is due at or before the moment.
    pub fn is_due(&self, moment: u64) -> bool
        ensures { result ≡ is_due self.now.memory.state moment }
    {
        match self.tables.least_due() {
            Some(action) => action.moment <= moment,
            None => false,
        }
    }

    // Room for that.
    fn make_due_room(&mut self, alloc: Global, plan: &DuePlan) -> Result<(), NoMemory>
        ensures state { self.new.memory.state ≡ self.old.memory.state }
        ensures room { OnOk result (HasDueRoom plan.now self.new.memory) }
    {
        match plan {
            DuePlan::Op { owner, .. } => self.tables.make_op_room(alloc, *owner),
            DuePlan::StopDeadline { .. } => self.tables.make_room(alloc),
            DuePlan::RemovalDeadline { .. } => Ok(()),
            DuePlan::RestartTimer { .. } => self.tables.make_room(alloc),
        }
    }

    /// Makes the least due action ready: its events, and all the memory that its commit wants.
    pub fn prepare_due(&mut self, alloc: Global) -> Result<PreparedDue, NoMemory>
        requires { IsLawful self.old.memory.state steps.Step.Due }
        ensures state { self.new.memory.state ≡ self.old.memory.state }
        ensures ready { IfOk result (λ p. IsForDue p self.new) }
    {
        self.kept();
        let Some(action) = self.tables.least_due() else {
            unreachable!()
        };
        let prepared = due::prepare(&self.tables, alloc, action)?;
        self.make_due_room(alloc, &prepared.plan)?;
        Ok(prepared)
    }

    /// Makes the due step that was prepared on this machine, unchanged since. It takes no memory.
    pub fn commit_due(&mut self, prepared: PreparedDue)
        requires { IsForDue prepared self.old }
        ensures { IsStep steps.Step.Due self.old self.new }
    {
        let PreparedDue {
            moment,
            events,
            plan,
        } = prepared;
        self.tables.stand_at(moment);
        let death = due::perform(&mut self.tables, plan);
        self.tables.settle(death);
        self.tables.count(events.as_slice(), 0);
    }
}
