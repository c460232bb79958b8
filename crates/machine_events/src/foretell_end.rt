// The events of the end of a main process, told of the container as it ends.
ghost use Rattle.std.specs.Prelude.{◌≡◌, ◌++◌, OnOk};
ghost use Rattle.engine_text.specs.declared.event.Action as actions;
ghost use Rattle.machine_model.specs.Effects.EndMain.{ended, decision_at};
ghost use Rattle.machine_model.specs.EventTexts as texts;
ghost use Rattle.machine_events.specs.Foretold.{ending_as, told_follow, told_goal, told_gone, told_status};
ghost use Rattle.container_table.specs.Logs.{container_in};
ghost use Rattle.machine_events.specs.ChangedLives.{renewed};
ghost use Rattle.machine_events.specs.ToldKill.{aimed};
ghost use Rattle.machine_model.specs.Calls.Kill.{by_hand};

use crate::events::plain_event;
use crate::foretell::{add, tell_restart};
use crate::lives;
use crate::statuses::is_dead;
use container_table::Held;
use engine_text::{Action, Event, Goal, NoMemory, Script};
use restart_policy::Decision;
use std::alloc::Global;

/// What is wanted at the end of a main process, and whether it was stopped by hand: by a call that
/// ends it what the call says, and else what the container's life says.
#[derive(Clone, Copy, Drop)]
pub struct Ending {
    goal: Goal,
    manual: bool,
}

impl Ending {
    /// As the container's life says.
    pub fn of(h: &Held) -> Ending
        ensures { ending_as result (container_in h.now) ≡ container_in h.now }
    {
        Ending {
            goal: h.container.life.goal,
            manual: h.container.life.manual,
        }
    }

    /// By a call with that goal.
    pub fn aimed(goal: Goal, h: &Held) -> Ending
        ensures { ending_as result (container_in h.now) ≡ aimed goal (container_in h.now) }
    {
        Ending {
            goal,
            manual: h.container.life.manual,
        }
    }

    /// By hand.
    pub fn by_hand(h: &Held) -> Ending
        ensures { ending_as result (container_in h.now) ≡ renewed by_hand (container_in h.now) }
    {
        Ending {
            goal: h.container.life.goal,
            manual: true,
        }
    }
}

// The destroy of one that is removed by itself.
fn tell_gone(alloc: Global, h: &Held, moment: u64, out: &mut Vec<Event>) -> Result<(), NoMemory>
    ensures { OnOk result (out.new.items ≡ out.old.items
        ++ told_gone h.now.container.life.auto_remove
        (texts.plain_event actions.Action.Destroy (container_in h.now) moment)) }
{
    if !h.container.life.auto_remove {
        return Ok(());
    }
    let event = plain_event(alloc, Action::Destroy, &h.container, moment)?;
    add(out, event)
}

// So it is where it stays exited.
fn tell_follow(
    alloc: Global,
    ending: Ending,
    code: u8,
    h: &Held,
    moment: u64,
    out: &mut Vec<Event>,
) -> Result<(), NoMemory>
    ensures { OnOk result (out.new.items ≡ out.old.items
        ++ told_follow
        (decision_at moment
        (renewed (ended code moment) (ending_as ending (container_in h.now))).life)
        h.now.container.life.auto_remove
        (texts.plain_event actions.Action.Destroy (container_in h.now) moment)) }
{
    match lives::decision_of(&h.container.life, code, ending.manual, moment) {
        Decision::Stay => tell_gone(alloc, h, moment, out),
        Decision::Again(_) => Ok(()),
    }
}

// What the goal wants after an end.
#[tactic(auto, using(crate::proofs::ToldLemmas::restart_ended))]
fn tell_goal(
    alloc: Global,
    ending: Ending,
    code: u8,
    script: &Option<Script>,
    h: &Held,
    moment: u64,
    out: &mut Vec<Event>,
) -> Result<(), NoMemory>
    ensures { OnOk result (out.new.items ≡ out.old.items
        ++ told_goal ending.goal script.now
        (renewed (ended code moment) (ending_as ending (container_in h.now))) moment) }
{
    match ending.goal {
        Goal::Remove => {
            let event = plain_event(alloc, Action::Destroy, &h.container, moment)?;
            add(out, event)
        }
        Goal::Stop => {
            let event = plain_event(alloc, Action::Stop, &h.container, moment)?;
            add(out, event)?;
            tell_gone(alloc, h, moment, out)
        }
        Goal::Restart => tell_restart(alloc, script, h, moment, out),
        Goal::None => tell_follow(alloc, ending, code, h, moment, out),
    }
}

/// What follows an end: in a dead container nothing.
pub fn tell_status(
    alloc: Global,
    ending: Ending,
    code: u8,
    script: &Option<Script>,
    h: &Held,
    moment: u64,
    out: &mut Vec<Event>,
) -> Result<(), NoMemory>
    ensures { OnOk result (out.new.items ≡ out.old.items
        ++ told_status h.now.container.life.status script.now
        (renewed (ended code moment) (ending_as ending (container_in h.now))) moment) }
{
    if is_dead(h.container.life.status) {
        return Ok(());
    }
    tell_goal(alloc, ending, code, script, h, moment, out)
}
