// The daemon's side.
use api_routes::Routes;
use daemon_shared::{Opening, run_daemon};
use engine_ports::Door;
use engine_serve::law_routes_are_shared;
use session_model::Worst;
use std::alloc::Global;
use std::sync::Wait;
use std::thread::Threads;

/// The moment of the opening, in milliseconds since 1970. The clock stands still there.
const MOMENT: u64 = 1_700_000_000_000;

/// The most entries of the journal: as many as of `engined` without `--journal`.
const ENTRIES: u64 = 4_194_304;

/// The worst ending of the sessions of a new daemon that takes in so many connections at this door.
pub fn serve<R: Threads + Wait + Sync, D: Door>(
    rt: &R,
    alloc: Global,
    most: u32,
    door: &mut D,
) -> Worst {
    let Ok(routes) = Routes::new(alloc) else {
        return Worst::NoMemory;
    };
    law_routes_are_shared(&routes);
    let seed = [0; 32];
    let opening = Opening {
        seed,
        moment: MOMENT,
        greatest: ENTRIES,
    };
    let steps = Some((MOMENT, 0));
    let (worst, daemon) = run_daemon(rt, alloc, &routes, opening, Some(most), steps, door);
    drop(daemon);
    worst
}
