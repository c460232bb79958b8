// What a prepared call does, made: each plan by its call.
ghost use Rattle.std.specs.Prelude.{◌≡◌};
ghost use Rattle.call_plans.specs.Needs.{Fits};
ghost use Rattle.call_plans.specs.Plans.{need_of, plan_effect};
ghost use Rattle.machine_tables.specs.Settled.{deaths};

use call_plans::Plan;
use machine_effects::Tables;
use machine_tables::Death;

/// Makes it. It takes no memory.
#[tactic(auto, using(crate::proofs::AttachedLemmas::attached_state, crate::proofs::AttachedLemmas::none_attached))]
pub fn perform(tables: &mut Tables, plan: Plan) -> Option<Death>
    requires { Fits (need_of plan) tables.old }
    ensures state { tables.new.state ≡ (plan_effect plan tables.old.state).state }
    ensures died { deaths result ≡ (plan_effect plan tables.old.state).died }
    ensures room { tables.new.room ≡ tables.old.room }
{
    match plan {
        Plan::Nothing => None,
        Plan::Attach { .. } => None,
        Plan::Create { held, volumes } => {
            changing_calls::create::perform(tables, held, volumes);
            None
        }
        Plan::EndTicket { ticket } => {
            reading_calls::take::perform(tables, ticket);
            None
        }
        Plan::ExecCreate { exec } => {
            changing_calls::execs::create::perform(tables, exec);
            None
        }
        Plan::ExecStart {
            number,
            script,
            detach,
        } => {
            changing_calls::execs::start::perform(tables, number, script, detach);
            None
        }
        Plan::Feed { owner, piece } => {
            tables.feed(owner, piece);
            None
        }
        Plan::FeedEnd { owner } => {
            tables.end_input(owner);
            None
        }
        Plan::Halt {
            conn,
            number,
            halting,
            sent,
            seconds,
            brought,
        } => changing_calls::halts::perform(tables, conn, number, halting, sent, seconds, brought),
        Plan::Kill {
            number,
            sent,
            last,
            brought,
        } => changing_calls::kill::perform(tables, number, sent, last, brought),
        Plan::KillRestarting { number, sent } => {
            changing_calls::kill::perform_restarting(tables, number, sent);
            None
        }
        Plan::Pause { number } => {
            changing_calls::pause::perform(tables, number);
            None
        }
        Plan::Remove { number, brought } => {
            changing_calls::remove::perform(tables, number, brought);
            None
        }
        Plan::RemoveForced {
            conn,
            number,
            brought,
        } => { changing_calls::remove::perform_forced(tables, conn, number, brought) }
        Plan::RemoveRestarting { number, brought } => {
            changing_calls::remove::perform_given_up(tables, number, brought);
            None
        }
        Plan::Rename { number, name } => {
            changing_calls::rename::perform(tables, number, name);
            None
        }
        Plan::Restart { number, script } => {
            changing_calls::restart::perform(tables, number, script);
            None
        }
        Plan::RestartRestarting { number, script } => {
            changing_calls::restart::perform_restarting(tables, number, script);
            None
        }
        Plan::Start { number, script } => {
            changing_calls::start::perform(tables, number, script);
            None
        }
        Plan::StopRestarting { number } => {
            changing_calls::stop::perform_restarting(tables, number);
            None
        }
        Plan::Unpause { number, brought } => changing_calls::unpause::perform(
            tables, number, brought,
        ),
        Plan::Update { number, policy } => {
            changing_calls::update::perform(tables, number, policy);
            None
        }
        Plan::VolumeCreate { name, labels } => {
            changing_calls::volumes::create::perform(tables, name, labels);
            None
        }
        Plan::VolumeRemove { name } => {
            changing_calls::volumes::remove::perform(tables, name);
            None
        }
        Plan::Wait {
            conn,
            number,
            until,
        } => {
            reading_calls::wait::perform(tables, conn, number, until);
            None
        }
    }
}
