// How much room in the tables a plan wants.
ghost use Rattle.std.specs.Prelude.{◌≡◌};
ghost use Rattle.call_plans.specs.Needs as needs;
ghost use Rattle.call_plans.specs.Plans.{need_of};

use crate::plan::Plan;

/// What a step makes longer: nothing, what the end of a main process with what may follow it makes so,
/// the same behind a ticket and a deadline, a removal, a ticket, a process or its input, a container with
/// so many mounts, an exec, a volume.
#[derive(Clone, Copy, Drop)]
pub enum Space {
    Nothing,
    End,
    TicketEnd,
    Removal,
    Ticket,
    Process,
    Container { mounts: usize },
    Exec,
    Volume,
}

/// How much the plan wants.
pub fn space_of(plan: &Plan) -> Space
    ensures { result ≡ needs.space_of (need_of plan.now) }
{
    match plan {
        Plan::Nothing => Space::Nothing,
        Plan::Attach { .. } => Space::Nothing,
        Plan::Create { held, .. } => Space::Container {
            mounts: held.container.life.mounts.len(),
        },
        Plan::EndTicket { .. } => Space::Nothing,
        Plan::ExecCreate { .. } => Space::Exec,
        Plan::ExecStart { .. } => Space::Process,
        Plan::Feed { .. } => Space::Process,
        Plan::FeedEnd { .. } => Space::Nothing,
        Plan::Halt { .. } => Space::TicketEnd,
        Plan::Kill { .. } => Space::End,
        Plan::KillRestarting { .. } => Space::Nothing,
        Plan::Pause { .. } => Space::End,
        Plan::Remove { .. } => Space::Removal,
        Plan::RemoveForced { .. } => Space::TicketEnd,
        Plan::RemoveRestarting { .. } => Space::Removal,
        Plan::Rename { .. } => Space::Nothing,
        Plan::Restart { .. } => Space::End,
        Plan::RestartRestarting { .. } => Space::End,
        Plan::Start { .. } => Space::End,
        Plan::StopRestarting { .. } => Space::Nothing,
        Plan::Unpause { .. } => Space::End,
        Plan::Update { .. } => Space::Nothing,
        Plan::VolumeCreate { .. } => Space::Volume,
        Plan::VolumeRemove { .. } => Space::Nothing,
        Plan::Wait { .. } => Space::Ticket,
    }
}
