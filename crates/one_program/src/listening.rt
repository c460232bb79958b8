// The connections of a line's address.
ghost use Rattle.std.specs.Prelude.{◌≡◌, IfNone, IfSome};
ghost use Rattle.engine_ports.specs.Rose.{Rose};
ghost use Rattle.session_model.specs.declared.ending.Worst.TheVariants as worst;
ghost use Rattle.daemon_core.specs.Passing.{whole_pass};
ghost use Rattle.door_model.specs.Connections.{most_from};
ghost use Rattle.program_parts.specs.Opening.{StartsWithin};
ghost use Rattle.one_program.specs.Listening.{Listens, RunsBy, ServesDoor, ServesNew};

use api_routes::Routes;
use daemon_core::Daemon;
use engine_line::{OneLine, Stepping};
use engine_loop::run_loop;
use engine_ports::Clock;
use engine_serve::OwnClock;
use polled_ports::{PollDoor, Runner};
use program_parts::{opening_by, status_by};
use session_model::Worst;
use std::alloc::Global;

/// Serves the connections of a bound door, numbered from the first on, by the line's clock or by the handed one.
fn run_by<C: Clock, D: PollDoor, R: Runner>(
    alloc: Global,
    routes: &Routes,
    daemon: Daemon,
    first: u32,
    line: OneLine,
    clock: &mut C,
    door: &mut D,
    runner: &mut R,
) -> (Worst, Option<Daemon>)
    ensures some { IfSome result.1 (λ d. RunsBy line.clock first
        (most_from first line.connections) result.0 (whole_pass daemon) (whole_pass d)
        (D.opens door.old) (D.opens door.new) (C.times clock.old) (C.times clock.new)) }
    ensures none { IfNone result.1
        ((result.0 ≡ worst.Fault) × Rose (R.faults runner.old) (R.faults runner.new)) }
{
    let limit = line.connections;
    match line.clock {
        None => run_loop(alloc, routes, daemon, first, limit, door, clock, runner),
        Some(Stepping { start, step }) => {
            let mut own = OwnClock {
                moment: start,
                step,
            };
            run_loop(alloc, routes, daemon, first, limit, door, &mut own, runner)
        }
    }
}

/// A daemon that a loop may have left comes to its end.
fn end(daemon: Option<Daemon>) {
    let Some(daemon) = daemon else {
        return;
    };
    daemon.end();
}

/// Serves the connections of a bound door by a daemon.
fn serve_door<C: Clock, D: PollDoor, R: Runner>(
    alloc: Global,
    line: OneLine,
    daemon: Daemon,
    first: u32,
    clock: &mut C,
    door: &mut D,
    runner: &mut R,
) -> u8
    ensures { ServesDoor line first (whole_pass daemon) result
        (C.times clock.old) (C.times clock.new) (D.opens door.old) (D.opens door.new)
        (R.faults runner.old) (R.faults runner.new) }
{
    let Ok(routes) = Routes::new(alloc) else {
        daemon.end();
        return status_by(Worst::NoMemory);
    };
    let (worst, left) = run_by(alloc, &routes, daemon, first, line, clock, door, runner);
    end(left);
    status_by(worst)
}

/// Serves the connections of a bound door by a new daemon of this seed of ids.
fn serve_new<C: Clock, D: PollDoor, R: Runner>(
    alloc: Global,
    line: OneLine,
    seed: [u8; 32],
    clock: &mut C,
    door: &mut D,
    runner: &mut R,
) -> u8
    requires { StartsWithin line.clock }
    ensures { ServesNew line seed result (C.times clock.old) (C.times clock.new)
        (D.opens door.old) (D.opens door.new) (R.faults runner.old) (R.faults runner.new) }
{
    let moment = opening_by(line.clock, clock);
    let Ok(daemon) = Daemon::new(alloc, seed, moment, u64::from(line.entries)) else {
        return status_by(Worst::NoMemory);
    };
    serve_door(alloc, line, daemon, 0, clock, door, runner)
}

/// Binds a door to an address, and serves the connections that come to it by a new daemon of this seed of ids.
pub(crate) fn listen_new<C: Clock, D: PollDoor, R: Runner>(
    alloc: Global,
    line: OneLine,
    seed: [u8; 32],
    addr: &str,
    clock: &mut C,
    door: &mut D,
    runner: &mut R,
) -> u8
    requires { StartsWithin line.clock }
    ensures { Listens addr.now result (C.times clock.old) (C.times clock.new)
        (D.opens door.old) (D.opens door.new) (R.faults runner.old) (R.faults runner.new)
        (λ bound. ServesNew line seed result (C.times clock.old) (C.times clock.new)
        bound (D.opens door.new) (R.faults runner.old) (R.faults runner.new)) }
{
    match door.bind(addr) {
        Ok(()) => serve_new(alloc, line, seed, clock, door, runner),
        Err(_) => status_by(Worst::Fault),
    }
}

/// Binds a door to an address, and serves the connections that come to it by a daemon, numbered from the first on.
pub(crate) fn listen_on<C: Clock, D: PollDoor, R: Runner>(
    alloc: Global,
    line: OneLine,
    daemon: Daemon,
    first: u32,
    addr: &str,
    clock: &mut C,
    door: &mut D,
    runner: &mut R,
) -> u8
    ensures { Listens addr.now result (C.times clock.old) (C.times clock.new)
        (D.opens door.old) (D.opens door.new) (R.faults runner.old) (R.faults runner.new)
        (λ bound. ServesDoor line first (whole_pass daemon) result
        (C.times clock.old) (C.times clock.new) bound (D.opens door.new)
        (R.faults runner.old) (R.faults runner.new)) }
{
    let Ok(()) = door.bind(addr) else {
        daemon.end();
        return status_by(Worst::Fault);
    };
    serve_door(alloc, line, daemon, first, clock, door, runner)
}
