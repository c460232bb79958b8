// Update: by the container's status, and then by whether it is removed by itself.
ghost use Rattle.std.specs.Prelude.{◌≡◌, [], Some, IfOk};
ghost use Rattle.engine_text.specs.declared.reply.Reply.TheVariants as replies;
ghost use Rattle.machine_model.specs.Outcome as outcome;
ghost use Rattle.machine_model.specs.State.{container_numbered};
ghost use Rattle.machine_model.specs.Calls.Update as spec;
ghost use Rattle.container_table.specs.Logs.{container_in};
ghost use Rattle.call_plans.specs.Calls.Update.{update_effect};
ghost use Rattle.call_plans.specs.Making.{Makes};

use call_plans::refusals::{auto_remove_excludes, being_removed, dead};
use call_plans::{Plan, Prepared, refuse};
use container_table::{Held, LifeChange};
use engine_text::{Action, NoMemory, Policy, Reply, Status, Text};
use machine_effects::Tables;
use machine_events::{add, plain_event};
use std::alloc::Global;

/// The container has the given policy, if one is given.
pub fn perform(tables: &mut Tables, number: u64, policy: Option<Policy>)
    ensures state { tables.new.state ≡ (update_effect number policy tables.old.state).state }
    ensures died { [] ≡ (update_effect number policy tables.old.state).died }
    ensures room { tables.new.room ≡ tables.old.room }
{
    tables.renew(number, LifeChange::Governed(policy));
}

// With a policy that the container may have.
fn prepare_given(
    tables: &Tables,
    alloc: Global,
    moment: u64,
    h: &Held,
    policy: Option<Policy>,
) -> Result<Prepared, NoMemory>
    requires { container_numbered h.now.container.number tables.now.state
        ≡ Some (container_in h.now) }
    ensures { IfOk result (λ p. Makes p moment tables.now.state
        (outcome.replies (replies.Answer 200 spec.updated)
        (spec.update policy (container_in h.now)))) }
{
    let mut events = Vec::new(alloc);
    let event = plain_event(alloc, Action::Update, &h.container, moment)?;
    add(&mut events, event)?;
    let number = h.container.number;
    let body = Text::of(alloc, "{\"Warnings\":[]}")?;
    Ok(Prepared {
        moment,
        reply: Reply::Answer { status: 200, body },
        events,
        plan: Plan::Update { number, policy },
    })
}

// Whether the container is removed by itself, and would be restarted by the policy.
fn is_excluded(auto_remove: bool, policy: Option<Policy>) -> bool
    ensures { result ≡ spec.is_excluded auto_remove policy }
{
    match policy {
        None => false,
        Some(policy) => auto_remove && !policy.is_no(),
    }
}

// Of a container that isn't on its way out.
fn prepare_standing(
    tables: &Tables,
    alloc: Global,
    moment: u64,
    h: &Held,
    policy: Option<Policy>,
) -> Result<Prepared, NoMemory>
    requires { container_numbered h.now.container.number tables.now.state
        ≡ Some (container_in h.now) }
    ensures { IfOk result (λ p. Makes p moment tables.now.state
        (spec.update_standing policy (container_in h.now))) }
{
    if is_excluded(h.container.life.auto_remove, policy) {
        let text = auto_remove_excludes(alloc)?;
        return refuse(alloc, moment, 409, &text);
    }
    prepare_given(tables, alloc, moment, h, policy)
}

/// Makes an update ready; the policy stands where none is given.
pub fn prepare(
    tables: &Tables,
    alloc: Global,
    moment: u64,
    h: &Held,
    policy: Option<Policy>,
) -> Result<Prepared, NoMemory>
    requires { container_numbered h.now.container.number tables.now.state
        ≡ Some (container_in h.now) }
    ensures { IfOk result (λ p. Makes p moment tables.now.state
        (spec.by_status h.now.container.life.status policy (container_in h.now))) }
{
    match h.container.life.status {
        Status::Created | Status::Running | Status::Paused | Status::Restarting | Status::Exited =>
            prepare_standing(tables, alloc, moment, h, policy),
        Status::Removing => {
            let text = being_removed(alloc, h.container.id.as_str())?;
            refuse(alloc, moment, 409, &text)
        }
        Status::Dead => {
            let text = dead(alloc, h.container.id.as_str())?;
            refuse(alloc, moment, 409, &text)
        }
    }
}
