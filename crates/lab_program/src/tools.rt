// The daemon's door, through which tools come.
ghost use Rattle.std.specs.Prelude.{◌≡◌, ◌≤◌};
ghost use Rattle.machine_model.specs.History.{greatest_moment};
ghost use Rattle.front_session.specs.Sharing.{untold};
ghost use Rattle.lab_program.specs.Serving.{RunsOver};

use api_routes::Routes;
use daemon_core::Daemon;
use daemon_shared::{Opening, run_daemon};
use engine_ports::Door;
use engine_serve::law_routes_are_shared;
use front_session::FrontDoor;
use lab_line::Lab;
use manual_clock::{ManualDoor, SharedTime};
use session_model::Worst;
use std::alloc::Global;
use std::sync::Wait;
use std::thread::Threads;
use std::time;

/// A daemon comes to its end.
fn end_daemon(daemon: Option<Daemon>) {
    match daemon {
        Some(daemon) => daemon.end(),
        None => {}
    }
}

/// Serves the connections of a bound door by a new daemon, as the line sets it.
fn run_over<R: Threads + Wait + Sync, D: Door>(
    rt: &R,
    alloc: Global,
    lab: Lab,
    moment: u64,
    door: &mut D,
) -> Worst
    requires { moment ≤ greatest_moment }
    ensures { RunsOver lab moment result (D.opens door.old) (D.opens door.new) }
{
    let Ok(routes) = Routes::new(alloc) else {
        return Worst::NoMemory;
    };
    law_routes_are_shared(&routes);
    let seed = lab.seed;
    let opening = Opening {
        seed,
        moment,
        greatest: u64::from(lab.entries),
    };
    let (worst, daemon) = run_daemon(rt, alloc, &routes, opening, None, None, door);
    end_daemon(daemon);
    worst
}

/// Serves the connections of a bound door, each behind a front, by the shared time, or else by the clocks that come
/// with them, and answers the worst that their sessions call for, with the door.
pub(crate) fn serve_tools<R: Threads + Wait + time::Clock + Sync, D: Door + Drop>(
    rt: &R,
    alloc: Global,
    lab: Lab,
    moment: u64,
    shared: Option<&SharedTime>,
    door: D,
) -> (Worst, D)
    requires { moment ≤ greatest_moment }
    ensures { RunsOver lab moment result.0 (untold (D.opens door)) (untold (D.opens result.1)) }
{
    let mut front = FrontDoor::new(rt, alloc, door);
    match shared {
        None => {
            let worst = run_over(rt, alloc, lab, moment, &mut front);
            (worst, front.into_door())
        }
        Some(time) => {
            let mut timed = ManualDoor::new(rt, time, front);
            let worst = run_over(rt, alloc, lab, moment, &mut timed);
            (worst, timed.into_door().into_door())
        }
    }
}
