// A drill, and what it came to.
ghost use Rattle.std.specs.Prelude.{◌≡◌, ◌≤◌, IfOk};
ghost use Rattle.engine_ports.specs.Clock.{ClockView};
ghost use Rattle.machine_model.specs.History.{greatest_moment};
ghost use Rattle.daemon_core.specs.Keeping.{history_of};
ghost use Rattle.daemon_core.specs.Passing.{charter};
ghost use Rattle.drill_model.specs.Source.{empty_sink};
ghost use Rattle.drill_session.specs.Running.{charter_by, Drills, IsReport, Session};

use super::drill::{Drill, Drilled};
use super::judging::journal_text;
use daemon_core::{Alone, Daemon};
use engine_drill::{Given, report, requests, tally};
use engine_ports::{Clock, MemSink, Sink};
use engine_serve::{Ending, serve};
use engine_text::{NoMemory, Text};
use history_replay::{check, law_complete, law_one_verdict};
use journal_lines::seed_bytes;
use std::alloc::Global;
use std::sync::Wait;
use std::thread::Threads;

/// The report of a daemon that was opened for the drill, and answered by these bytes.
fn report_of(alloc: Global, daemon: &Daemon, drill: Drill, written: &[u8]) -> Result<Text, NoMemory>
    requires opening { drill.opening ≤ greatest_moment }
    requires charter { charter daemon.now ≡ charter_by drill }
    ensures { IfOk result (λ text. IsReport (charter_by drill) drill.requests written.now
        (history_of daemon.now.stored.journal) text) }
{
    law_complete();
    law_one_verdict();
    daemon.texts();
    seed_bytes(&drill.seed);
    let journal = journal_text(alloc, daemon)?;
    let verdict = check(alloc, &journal, drill.seed, drill.opening)?;
    let counts = tally(alloc, written)?;
    let (events, containers) = daemon.counts();
    let text = report(alloc, drill.requests, &counts, events, containers, &verdict)?;
    Ok(Text::from_string(text))
}

/// A sink that keeps what it takes, and fails for want of memory alone.
fn memory_sink(alloc: Global) -> Result<MemSink, NoMemory>
    ensures { IfOk result (λ k. ⟦<MemSink as Sink>⟧.takes k ≡ empty_sink) }
{
    match MemSink::new(alloc, &[]) {
        Ok(sink) => Ok(sink),
        Err(_) => Err(NoMemory),
    }
}

/// What a drill comes to whose session ended so, with these bytes written on it: where it was closed, a report. The sink
/// in memory fails for want of memory alone.
fn outcome(
    alloc: Global,
    ending: Ending,
    daemon: &Daemon,
    drill: Drill,
    bytes: &[u8],
) -> Result<Drilled, NoMemory>
    requires opening { drill.opening ≤ greatest_moment }
    requires charter { charter daemon.now ≡ charter_by drill }
    ensures { (from to : ClockView) (s : Session (charter_by drill) drill.requests ending from to)
        → s.written ≡ bytes.now → s.history ≡ history_of daemon.now.stored.journal
        → Drills (charter_by drill) drill.requests result from to }
{
    match ending {
        Ending::Closed => {
            let text = report_of(alloc, daemon, drill, bytes)?;
            Ok(Drilled::Reported(text))
        }
        Ending::WriteFault => Err(NoMemory),
        ending => Ok(Drilled::Ended(ending)),
    }
}

/// Runs a drill: its requests are served on one connection by a new daemon, the daemon's journal is checked, and what
/// they came to is reported. It may wait.
pub fn drilled<R: Threads + Wait + Sync, C: Clock>(
    rt: &R,
    alloc: Global,
    drill: Drill,
    clock: &mut C,
) -> Result<Drilled, NoMemory>
    requires { drill.opening ≤ greatest_moment }
    ensures { Drills (charter_by drill) drill.requests result
        (C.times clock.old) (C.times clock.new) }
{
    let bytes = requests(alloc, drill.seed, drill.requests)?;
    let mut source = Given::new(bytes);
    let mut sink = memory_sink(alloc)?;
    let daemon = Daemon::new(alloc, drill.seed, drill.opening, drill.entries)?;
    let mut turns = Alone::new(daemon);
    let ending = serve(rt, &mut turns, alloc, 0, &mut source, &mut sink, clock);
    let drilled = outcome(alloc, ending, turns.daemon(), drill, sink.bytes());
    turns.end();
    drilled
}
