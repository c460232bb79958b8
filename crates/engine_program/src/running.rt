// A line that serves one connection.
ghost use Rattle.std.specs.Prelude.{◌≡◌, ◌≤◌, [], IfOk};
ghost use Rattle.machine_model.specs.History.{greatest_moment};
ghost use Rattle.engine_ports.specs.Door.{outside};
ghost use Rattle.daemon_core.specs.Passing.{whole_pass};
ghost use Rattle.daemon_core.specs.Storing.{pass_of};
ghost use Rattle.program_parts.specs.Opening.{StartsWithin};
ghost use Rattle.engine_program.specs.Opening.{charter_by};
ghost use Rattle.engine_program.specs.Running.{RunsSession};

use crate::opening::steps_of;
use api_routes::Routes;
use daemon_core::{Alone, Daemon};
use daemon_shared::serve_by;
use door_model::called_by;
use engine_line::Line;
use engine_ports::{Clock, Sink, Source};
use engine_serve::law_routes_are_shared;
use engine_text::NoMemory;
use program_parts::{opening_by, status_by};
use session_model::Worst;
use std::alloc::Global;
use std::sync::Wait;
use std::thread::Threads;

/// A daemon without history, as the line sets it, opened at a moment, and the API's routes.
fn daemon_of(alloc: Global, line: Line, opening: u64) -> Result<(Daemon, Routes), NoMemory>
    requires { opening ≤ greatest_moment }
    ensures { IfOk result (λ r. whole_pass r.0 ≡ pass_of (charter_by line opening) []) }
{
    let routes = Routes::new(alloc)?;
    let daemon = Daemon::new(alloc, line.seed, opening, u64::from(line.entries))?;
    Ok((daemon, routes))
}

/// Serves one connection with a new daemon, by the line's clock or by the handed one.
pub fn run_session<R: Threads + Wait + Sync, S: Source, K: Sink, C: Clock>(
    rt: &R,
    alloc: Global,
    line: Line,
    source: &mut S,
    sink: &mut K,
    clock: &mut C,
) -> u8
    requires { StartsWithin line.clock }
    ensures { RunsSession line result
        (outside (S.gives source.old) (K.takes sink.old) (C.times clock.old))
        (outside (S.gives source.new) (K.takes sink.new) (C.times clock.new)) }
{
    let opening = opening_by(line.clock, clock);
    let Ok((daemon, routes)) = daemon_of(alloc, line, opening) else {
        return status_by(Worst::NoMemory);
    };
    law_routes_are_shared(&routes);
    let mut turns = Alone::new(daemon);
    let steps = steps_of(line.clock);
    let ending = serve_by(
        rt, &mut turns, alloc, 0, &routes, steps, source, sink, clock,
    );
    status_by(called_by(ending))
}
