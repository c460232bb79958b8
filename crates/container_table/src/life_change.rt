// The changes of a container's life that a step makes.
ghost use Rattle.std.specs.Prelude.{◌≡◌, ◌<◌, ◌^◌};
ghost use Rattle.container_table.specs.LifeChanges.{changed, launched};

use engine_text::{Goal, Life, Policy, Status};

/// What a step changes of a container's life.
#[derive(Clone, Copy, Drop)]
pub enum LifeChange {
    ByHand,
    Running,
    Paused,
    Exited,
    Cancelled,
    Died,
    Removing,
    Stopping,
    ToRestart,
    Afresh,
    NoGoal,
    ToRemove,
    Restarted(u64),
    Waiting(u64),
    Ended(u8, u64),
    Governed(Option<Policy>),
}

/// It begins anew, with that process id and at that moment.
pub fn launch(life: &mut Life, pid: u64, moment: u64)
    requires { life.old.starts < 2 ^ 63 }
    ensures { life.new ≡ launched pid moment life.old }
{
    life.starts += 1;
    life.status = Status::Running;
    life.code = 0;
    life.started = Some(moment);
    life.pid = pid;
}

/// Makes the change.
pub fn change(life: &mut Life, change: LifeChange)
    ensures { life.new ≡ changed change life.old }
{
    match change {
        LifeChange::ByHand => life.manual = true,
        LifeChange::Running => life.status = Status::Running,
        LifeChange::Paused => life.status = Status::Paused,
        LifeChange::Exited => life.status = Status::Exited,
        LifeChange::Cancelled => {
            life.status = Status::Exited;
            life.manual = true;
        }
        LifeChange::Died => life.status = Status::Dead,
        LifeChange::Removing => life.status = Status::Removing,
        LifeChange::Stopping => {
            life.manual = true;
            life.goal = Goal::Stop;
        }
        LifeChange::ToRestart => life.goal = Goal::Restart,
        LifeChange::Afresh => {
            life.restarts = 0;
            life.delay = 0;
            life.manual = false;
            life.goal = Goal::None;
        }
        LifeChange::NoGoal => life.goal = Goal::None,
        LifeChange::ToRemove => life.goal = Goal::Remove,
        LifeChange::Restarted(count) => life.restarts = count,
        LifeChange::Waiting(delay) => {
            life.status = Status::Restarting;
            life.delay = delay;
        }
        LifeChange::Ended(code, moment) => {
            life.code = code;
            life.finished = Some(moment);
            life.pid = 0;
        }
        LifeChange::Governed(policy) => life.policy = policy.unwrap_or(life.policy),
    }
}
