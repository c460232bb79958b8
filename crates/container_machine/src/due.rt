// Due steps: the next op of a process, a deadline or a timer that has come.
ghost use Rattle.std.specs.Prelude.{◌≡◌, ℕ, ◌+◌, ◌<◌, ◌^◌, [], Some, IfOk, IsTrue};
ghost use Rattle.machine_model.specs.State.{State, container_numbered};
ghost use Rattle.machine_model.specs.Consistency.{HasOwner, IsConsistent, is_there};
ghost use Rattle.machine_model.specs.Due.{least_due};
ghost use Rattle.container_table.specs.Logs.{container_in};
ghost use Rattle.machine_tables.specs.Settled.{deaths};
ghost use Rattle.container_machine.specs.DuePlans.{due_plan_effect, FitsDue};
ghost use Rattle.container_machine.specs.Dues.{MakesDue};
ghost use Rattle.call_plans.specs.RunEnds.{IsOwnerMemory};

use call_plans::{empty_memory, end_memory};
use container_table::{Held, Rank};
use engine_text::{DueAction, Event, NoMemory, Owner, Script, Signal};
use machine_effects::{Tables, death_with};
use machine_events::{EndMemory, tell_launch};
use machine_tables::{Death, number_of};
use proc_kernel::program;
use std::alloc::Global;

/// What a due step does.
#[derive(Drop)]
pub enum DuePlan {
    Op { owner: Owner, brought: EndMemory },
    StopDeadline { number: u64, brought: EndMemory },
    RemovalDeadline { number: u64 },
    RestartTimer { number: u64, script: Option<Script> },
}

/// A due step that is ready to be committed.
#[derive(Drop)]
pub struct PreparedDue {
    pub(super) moment: u64,
    pub(super) events: Vec<Event>,
    pub(super) plan: DuePlan,
}

impl PreparedDue {
    /// The events that the commit will have.
    pub fn events(&self) -> &[Event]
        ensures { result.now ≡ self.now.events.items }
    {
        self.events.as_slice()
    }
}

/// Makes it. It takes no memory.
pub fn perform(tables: &mut Tables, plan: DuePlan) -> Option<Death>
    requires { FitsDue plan tables.old }
    ensures state { tables.new.state ≡ (due_plan_effect plan tables.old.state).state }
    ensures died { deaths result ≡ (due_plan_effect plan tables.old.state).died }
    ensures room { tables.new.room ≡ tables.old.room }
{
    match plan {
        DuePlan::Op { owner, brought } => {
            let code = tables.run_op(owner, brought);
            death_with(number_of(owner), code)
        }
        DuePlan::StopDeadline { number, brought } => {
            let code = tables.stop_deadline(number, brought);
            death_with(number, code)
        }
        DuePlan::RemovalDeadline { number } => {
            tables.removal_deadline(number);
            None
        }
        DuePlan::RestartTimer { number, script } => {
            tables.restart_timer(number, script);
            None
        }
    }
}

// The container with that number, which stands.
fn standing(tables: &Tables, number: u64) -> &Held
    requires { IsTrue (is_there (container_numbered number tables.now.state)) }
    ensures { container_numbered number tables.now.state ≡ Some (container_in result.now) }
{
    match tables.numbered(number) {
        Some(h) => h,
        None => unreachable!(),
    }
}

// What the end of the owner's process with that code wants: that of an exec wants nothing.
fn owner_memory(
    tables: &Tables,
    alloc: Global,
    code: Option<u8>,
    owner: Owner,
) -> Result<EndMemory, NoMemory>
    requires stands { HasOwner tables.now.state owner }
    requires kept { IsConsistent tables.now.state }
    ensures { IfOk result (λ k. IsOwnerMemory code owner tables.now.state k) }
{
    match owner {
        Owner::Container(number) => {
            let h = standing(tables, number);
            end_memory(tables, alloc, code, h.container.life.goal, number, h)
        }
        Owner::Exec(_) => Ok(empty_memory(alloc)),
    }
}

// The next op of the process of that number.
fn prepare_op(tables: &Tables, alloc: Global, due: DueAction) -> Result<PreparedDue, NoMemory>
    requires kept { IsConsistent tables.now.state }
    requires least { least_due tables.now.state ≡ Some due }
    requires rank { due.rank ≡ 0 }
    ensures { IfOk result (λ p. MakesDue p due tables.now.state) }
{
    let moment = due.moment;
    let owner = tables.owner_at(due.number);
    let code = tables.due_code(owner);
    let brought = owner_memory(tables, alloc, code, owner)?;
    let mut events = Vec::new(alloc);
    tables.tell_op(alloc, owner, code, &brought.script, moment, &mut events)?;
    Ok(PreparedDue {
        moment,
        events,
        plan: DuePlan::Op { owner, brought },
    })
}

// The stop deadline of the container of that number.
fn prepare_stop_deadline(
    tables: &Tables,
    alloc: Global,
    due: DueAction,
) -> Result<PreparedDue, NoMemory>
    requires kept { IsConsistent tables.now.state }
    requires least { least_due tables.now.state ≡ Some due }
    requires rank { due.rank ≡ 1 }
    ensures { IfOk result (λ p. MakesDue p due tables.now.state) }
{
    let moment = due.moment;
    let number = due.number;
    let h = standing(tables, number);
    let code = tables.signal_code(number, Signal { number: 9 }, true);
    let brought = end_memory(tables, alloc, code, h.container.life.goal, number, h)?;
    let mut events = Vec::new(alloc);
    tables.tell_deadline(alloc, code, h, &brought.script, moment, &mut events)?;
    Ok(PreparedDue {
        moment,
        events,
        plan: DuePlan::StopDeadline { number, brought },
    })
}

// The removal deadline of the container of that number.
fn removal_deadline(alloc: Global, due: DueAction) -> PreparedDue
    requires { due.rank ≡ 2 }
    ensures { (s : State) → MakesDue result due s }
{
    PreparedDue {
        moment: due.moment,
        events: Vec::new(alloc),
        plan: DuePlan::RemovalDeadline { number: due.number },
    }
}

// The restart timer of the container of that number.
fn prepare_restart_timer(
    tables: &Tables,
    alloc: Global,
    due: DueAction,
) -> Result<PreparedDue, NoMemory>
    requires kept { IsConsistent tables.now.state }
    requires least { least_due tables.now.state ≡ Some due }
    requires rank { due.rank ≡ 3 }
    ensures { IfOk result (λ p. MakesDue p due tables.now.state) }
{
    let moment = due.moment;
    let number = due.number;
    let h = standing(tables, number);
    let life = &h.container.life;
    let script = program(alloc, &life.words, life.starts + 1)?;
    let mut events = Vec::new(alloc);
    tell_launch(alloc, &script, h, moment, &mut events)?;
    Ok(PreparedDue {
        moment,
        events,
        plan: DuePlan::RestartTimer { number, script },
    })
}

/// Makes the least due action ready.
pub fn prepare(tables: &Tables, alloc: Global, due: DueAction) -> Result<PreparedDue, NoMemory>
    requires kept { IsConsistent tables.now.state }
    requires least { least_due tables.now.state ≡ Some due }
    ensures { IfOk result (λ p. MakesDue p due tables.now.state) }
{
    match Rank::numbered(due.rank) {
        Rank::Op => prepare_op(tables, alloc, due),
        Rank::StopDeadline => prepare_stop_deadline(tables, alloc, due),
        Rank::RemovalDeadline => Ok(removal_deadline(alloc, due)),
        Rank::RestartTimer => prepare_restart_timer(tables, alloc, due),
    }
}
