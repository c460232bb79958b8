// A plan, followed call by call.
ghost use Rattle.std.specs.Prelude.{◌≡◌, ℕ, IsTrue};
ghost use Rattle.engine_text.specs.Soundness.{is_full};
ghost use Rattle.machine_model.specs.History.{has_ticket, state_after};
ghost use Rattle.daemon_core.specs.Keeping.{history_of};
ghost use Rattle.daemon_core.specs.Passing.{charter, whole_pass};
ghost use Rattle.engine_reboot.specs.Following as spec;
ghost use Rattle.engine_reboot.specs.declared.planning.Planned as planned;

use crate::planning::Planned;
use daemon_core::Daemon;
use engine_text::{Call, NoMemory, Signal, Text};
use session_model::Turned;
use std::alloc::Global;

/// How far a plan was followed.
#[derive(Clone, Copy, Drop)]
pub enum Followed {
    Whole,
    /// There is no room for the next call.
    Full,
    NoMemory,
}

/// The connection that kills and starts.
const OWN: u32 = 4_294_967_294;

// How far a plan of one call was followed, by what its turn came to.
fn how_far(turned: Turned) -> Followed
    requires { spec.IsEnded turned }
    ensures { result ≡ spec.how_far turned }
{
    match turned {
        Turned::Replied(_) => Followed::Whole,
        Turned::Begun { .. } => Followed::Whole,
        Turned::JournalFull => Followed::Full,
        Turned::NoMemory => Followed::NoMemory,
        Turned::NotYet => unreachable!(),
        Turned::Nothing => unreachable!(),
    }
}

// Drops a ticket at once.
fn drop_ticket(daemon: &mut Daemon, alloc: Global, ticket: u64, connection: u32) -> Followed
    requires { IsTrue (has_ticket
        (state_after (charter daemon.old) (history_of daemon.old.stored.journal))
        connection ticket) }
    ensures { (handed : ℕ) → spec.StepSays handed (planned.Planned.Drop ticket connection) result
        (whole_pass daemon.old) (whole_pass daemon.new) }
{
    let moment = daemon.machine().now();
    match daemon.make_call(alloc, connection, moment, &Call::Drop { ticket }) {
        Ok(_) => Followed::Whole,
        Err(NoMemory) => Followed::NoMemory,
    }
}

// Kills a container, behind what is due by the last step's moment: the one that counts of 0.
fn kill(daemon: &mut Daemon, alloc: Global, id: &Text) -> Followed
    requires { IsTrue (is_full id.now) }
    ensures { (handed : ℕ) → spec.StepSays handed (planned.Planned.Kill id.now) result
        (whole_pass daemon.old) (whole_pass daemon.new) }
{
    let Ok(target) = id.copy(alloc) else {
        return Followed::NoMemory;
    };
    let signal = Signal { number: 9 };
    let turned = daemon.turn(alloc, OWN, 0, Some(&Call::Kill { target, signal }));
    how_far(turned)
}

// Starts one, behind what is due by the moment that counts.
fn start(daemon: &mut Daemon, alloc: Global, handed: u64, id: &Text) -> Followed
    requires { IsTrue (is_full id.now) }
    ensures { spec.StepSays handed (planned.Planned.Start id.now) result
        (whole_pass daemon.old) (whole_pass daemon.new) }
{
    let Ok(target) = id.copy(alloc) else {
        return Followed::NoMemory;
    };
    let turned = daemon.turn(alloc, OWN, handed, Some(&Call::Start { target }));
    how_far(turned)
}

// Makes one call of a plan.
fn follow_one(daemon: &mut Daemon, alloc: Global, handed: u64, planned: &Planned) -> Followed
    requires { spec.CanBeMade
        (state_after (charter daemon.old) (history_of daemon.old.stored.journal)) planned.now }
    ensures { spec.StepSays handed planned.now result
        (whole_pass daemon.old) (whole_pass daemon.new) }
{
    match planned {
        Planned::Drop { ticket, connection } => drop_ticket(daemon, alloc, *ticket, *connection),
        Planned::Kill(id) => kill(daemon, alloc, id),
        Planned::Start(id) => start(daemon, alloc, handed, id),
    }
}

/// Follows a plan, up to the first call for which there is no room or no memory.
pub fn follow(daemon: &mut Daemon, alloc: Global, handed: u64, plan: &[Planned]) -> Followed
    requires { spec.CanFollow
        (state_after (charter daemon.old) (history_of daemon.old.stored.journal)) plan.now }
    ensures { spec.FollowSays handed plan.now result
        (whole_pass daemon.old) (whole_pass daemon.new) }
{
    'calls: for planned in plan {
        match follow_one(daemon, alloc, handed, planned) {
            Followed::Whole => {}
            Followed::Full => return Followed::Full,
            Followed::NoMemory => return Followed::NoMemory,
        }
    }
    Followed::Whole
}
