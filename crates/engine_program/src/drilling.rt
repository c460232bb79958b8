// A line that drills.
ghost use Rattle.std.specs.Prelude.{◌≡◌, ◌≤◌};
ghost use Rattle.machine_model.specs.History.{greatest_moment};
ghost use Rattle.drill_session.specs.Running as spec;
ghost use Rattle.program_parts.specs.Opening.{StartsWithin};
ghost use Rattle.engine_program.specs.Drilling.{DrillsBy, RunsDrill, TellsDrilled, status_written};

use crate::opening::steps_of;
use door_model::called_by;
use drill_session::{Drill, Drilled, drilled};
use engine_line::Line;
use engine_ports::{Clock, Failed, Sink};
use engine_serve::OwnClock;
use engine_text::NoMemory;
use program_parts::{opening_by, status_by};
use session_model::Worst;
use std::alloc::Global;
use std::sync::Wait;
use std::thread::Threads;

/// Runs a drill by its own clock, of this start and step, or by the handed one.
fn drill_by<R: Threads + Wait + Sync, C: Clock>(
    rt: &R,
    alloc: Global,
    drill: Drill,
    steps: Option<(u64, u64)>,
    clock: &mut C,
) -> Result<Drilled, NoMemory>
    requires { drill.opening ≤ greatest_moment }
    ensures { DrillsBy steps (spec.charter_by drill) drill.requests result
        (C.times clock.old) (C.times clock.new) }
{
    match steps {
        Some((moment, step)) => {
            let mut own = OwnClock { moment, step };
            drilled(rt, alloc, drill, &mut own)
        }
        None => drilled(rt, alloc, drill, clock),
    }
}

/// The status by whether the report was written.
fn status_written(written: Result<(), Failed>) -> u8
    ensures { result ≡ status_written written }
{
    match written {
        Ok(()) => status_by(Worst::Closed),
        Err(Failed) => status_by(Worst::Fault),
    }
}

/// Writes the report, where there is one, and answers the status.
fn tell_drilled<K: Sink>(sink: &mut K, drilled: Result<Drilled, NoMemory>) -> u8
    ensures { TellsDrilled drilled result (K.takes sink.old) (K.takes sink.new) }
{
    match drilled {
        Ok(Drilled::Reported(text)) => status_written(sink.write(text.as_str().as_bytes())),
        Ok(Drilled::Ended(ending)) => status_by(called_by(ending)),
        Err(NoMemory) => status_by(Worst::NoMemory),
    }
}

/// Runs a drill of so many requests, as the line sets it, and writes its report.
pub fn run_line_drill<R: Threads + Wait + Sync, K: Sink, C: Clock>(
    rt: &R,
    alloc: Global,
    line: Line,
    requests: u32,
    sink: &mut K,
    clock: &mut C,
) -> u8
    requires { StartsWithin line.clock }
    ensures { RunsDrill line requests result (K.takes sink.old) (K.takes sink.new)
        (C.times clock.old) (C.times clock.new) }
{
    let opening = opening_by(line.clock, clock);
    let seed = line.seed;
    let drill = Drill {
        seed,
        requests,
        opening,
        entries: u64::from(line.entries),
    };
    let drilled = drill_by(rt, alloc, drill, steps_of(line.clock), clock);
    tell_drilled(sink, drilled)
}
