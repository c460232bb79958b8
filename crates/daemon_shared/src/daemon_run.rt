// The shared daemon: one thread for each connection of a door.
ghost use Rattle.std.specs.Prelude.{◌≡◌, ◌≤◌, IfSome, IfNone};
ghost use Rattle.machine_model.specs.History.{greatest_moment};
ghost use Rattle.session_model.specs.declared.ending.Worst as Worst;
ghost use Rattle.std.specs.Thread.{IsSend};
ghost use Rattle.daemon_shared.specs.Sharing.{charter_by};
ghost use Rattle.daemon_shared.specs.Sessions.{told_by, CanServe, Served};
ghost use Rattle.daemon_shared.specs.Running.{RunsDaemon};
ghost use Rattle.door_model.specs.Connections.{most_from};

use crate::admission::{Begun, Ended};
use crate::lending::LentDoor;
use crate::one_daemon::{OneDaemon, Opening};
use crate::serving::serve_all;
use crate::sharing::{SharedDaemon, session};
use daemon_core::Daemon;
use door_model::most_from;
use engine_ports::Door;
use engine_serve::Routing;
use session_model::Worst;
use std::alloc::Global;
use std::sync::Wait;
use std::thread::Threads;
use turnstile::Pass;

/// Serves the connections of a bound door, each in a thread of its own, by one new daemon, whose
/// moment is at most the greatest one, and by one table of routes, which all share. It takes in
/// `limit` connections at most; by `steps`, a moment and a step in milliseconds, each has a clock of
/// its own. The daemon comes back once all sessions have ended.
pub fn run_daemon<R: Threads + Wait + Sync, N: Routing, D: Door>(
    rt: &R,
    alloc: Global,
    routes: &N,
    opening: Opening,
    limit: Option<u32>,
    steps: Option<(u64, u64)>,
    door: &mut D,
) -> (Worst, Option<Daemon>)
    requires { opening.moment ≤ greatest_moment }
    ensures none { IfNone result.1
        ((result.0 ≡ Worst.NoMemory) × (D.opens door.new ≡ D.opens door.old)) }
    ensures some { IfSome result.1
        (λ d. RunsDaemon (charter_by opening) steps (most_from 0 limit)
        result.0 d (D.opens door.old) (D.opens door.new)) }
{
    match SharedDaemon::open(rt, alloc, opening) {
        Err(_) => (Worst::NoMemory, None),
        Ok((shared, root)) => {
            let serve = |begun: Begun<Pass<OneDaemon>, D::From, D::Into, D::Time>| -> Ended<
                Pass<OneDaemon>,
                D::Past,
            >
                requires send { IsSend D.From.row × IsSend D.Into.row × IsSend D.Time.row }
                requires may { CanServe (λ p. p) shared.lock.table.shared.table_id begun }
                ensures { Served (λ p. p) (told_by D.From.gives D.Into.takes D.Time.times)
                    D.Past.tells steps begun result }
            { session(&shared, routes, alloc, steps, begun) };
            let held = LentDoor { door };
            let (worst, root, LentDoor { door: back }) = serve_all(
                rt,
                alloc,
                &shared,
                &serve,
                root,
                held,
                steps,
                most_from(0, limit),
            );
            let _ = back;
            let OneDaemon { daemon } = shared.close(root);
            (worst, Some(Box::into_inner(daemon)))
        }
    }
}
