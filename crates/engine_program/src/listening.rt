// A line that listens.
ghost use Rattle.program_parts.specs.Opening.{StartsWithin};
ghost use Rattle.engine_program.specs.Listening.{ServesDoor, Listens};

use crate::opening::steps_of;
use api_routes::Routes;
use daemon_shared::{Opening, run_daemon};
use engine_line::Line;
use engine_ports::{Clock, Door};
use engine_serve::law_routes_are_shared;
use program_parts::{opening_by, status_by};
use session_model::Worst;
use std::alloc::Global;
use std::sync::Wait;
use std::thread::Threads;

/// Serves the connections of a bound door by a new daemon, as the line sets it.
fn serve_door<R: Threads + Wait + Sync, C: Clock, D: Door>(
    rt: &R,
    alloc: Global,
    line: Line,
    clock: &mut C,
    door: &mut D,
) -> u8
    requires { StartsWithin line.clock }
    ensures { ServesDoor line result (C.times clock.old) (C.times clock.new)
        (D.opens door.old) (D.opens door.new) }
{
    let moment = opening_by(line.clock, clock);
    let Ok(routes) = Routes::new(alloc) else {
        return status_by(Worst::NoMemory);
    };
    law_routes_are_shared(&routes);
    let seed = line.seed;
    let opening = Opening {
        seed,
        moment,
        greatest: u64::from(line.entries),
    };
    let steps = steps_of(line.clock);
    let (worst, daemon) = run_daemon(rt, alloc, &routes, opening, line.connections, steps, door);
    drop(daemon);
    status_by(worst)
}

/// Binds a door to an address, and serves the connections that come to it.
pub fn listen<R: Threads + Wait + Sync, C: Clock, D: Door>(
    rt: &R,
    alloc: Global,
    line: Line,
    addr: &str,
    clock: &mut C,
    door: &mut D,
) -> u8
    requires { StartsWithin line.clock }
    ensures { Listens addr.now line result (C.times clock.old) (C.times clock.new)
        (D.opens door.old) (D.opens door.new) }
{
    match door.bind(addr) {
        Ok(()) => serve_door(rt, alloc, line, clock, door),
        Err(_) => status_by(Worst::Fault),
    }
}
