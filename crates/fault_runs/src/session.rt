// A session of which turns are refused, or whose clock stops.
use crate::line::Line;
use crate::serving::{Answered, CUT, Faults, NO_FAULTS, new_turns, served};
use daemon_core::Alone;
use engine_ports::NoMemory;
use scarce_turns::{Scarce, Scarcity};
use std::fs;
use std::io::{self, Write};
use std::rt::Files;
use std::sync::Wait;
use std::thread::Threads;

/// The number of the session.
const OWN: u32 = 0;

/// The number of the session before it.
const BEFORE: u32 = 1;

/// The number of the session that reads the journal behind it.
const READER: u32 = 2;

/// What that one asks.
const JOURNAL: &[u8] = b"GET /engine/journal HTTP/1.1\r\nHost: x\r\n\r\n";

/// What came of the sessions of one daemon.
#[derive(Drop)]
struct Sessions {
    before: Result<Answered, NoMemory>,
    own: Result<Answered, NoMemory>,
    journal: Result<Answered, NoMemory>,
}

// Serves the session by turns of which those that a scarcity tells are refused, and gives the turns back.
fn served_scarcely<R: Threads + Wait + Sync + AllocGlobal>(
    rt: &R,
    turns: Alone,
    scarcity: Scarcity,
    bytes: &[u8],
    stop_at: Option<u64>,
) -> (Alone, Result<Answered, NoMemory>) {
    let faults = Faults {
        stop_at,
        ..NO_FAULTS
    };
    let mut scarce = Scarce::new(turns, scarcity);
    let served = served(rt, &mut scarce, OWN, bytes, CUT, &faults);
    (scarce.into_inner(), served)
}

// Serves the session by all turns, and gives them back.
fn served_alone<R: Threads + Wait + Sync + AllocGlobal>(
    rt: &R,
    turns: Alone,
    bytes: &[u8],
    stop_at: Option<u64>,
) -> (Alone, Result<Answered, NoMemory>) {
    let faults = Faults {
        stop_at,
        ..NO_FAULTS
    };
    let mut turns = turns;
    let served = served(rt, &mut turns, OWN, bytes, CUT, &faults);
    (turns, served)
}

// Serves the sessions of a line by a new daemon, one behind the other.
fn run<R: Threads + Wait + Sync + AllocGlobal>(
    rt: &R,
    line: &Line,
    before: &[u8],
    bytes: &[u8],
) -> Result<Sessions, NoMemory> {
    let stop_at = line.number("stop");
    let mut turns = new_turns(rt.alloc())?;
    let before = served(rt, &mut turns, BEFORE, before, CUT, &NO_FAULTS);
    let (mut turns, own) = match line.scarcity() {
        Some(scarcity) => served_scarcely(rt, turns, scarcity, bytes, stop_at),
        None => served_alone(rt, turns, bytes, stop_at),
    };
    let journal = served(rt, &mut turns, READER, JOURNAL, CUT, &NO_FAULTS);
    turns.end();
    Ok(Sessions {
        before,
        own,
        journal,
    })
}

// Tells how a session ended, and what was written, as it is.
fn tell_served(
    rt: &impl Print,
    whose: &str,
    served: &Result<Answered, NoMemory>,
) -> io::Result<()> {
    match served {
        Ok(served) => {
            let mut out = io::writer(rt);
            println!(rt; "-- {whose}: {:?}", served.ending)?;
            out.write_all(served.sink.bytes())?;
            println!(rt; "")
        }
        Err(NoMemory) => println!(rt; "-- {whose}: out of memory"),
    }
}

// Runs the sessions of a line and tells what came of each, with these requests before it.
fn tell_behind<R: Threads + Wait + Sync + AllocGlobal + Print>(
    rt: &R,
    line: &Line,
    before: &[u8],
    bytes: &[u8],
) -> io::Result<()> {
    let Ok(sessions) = run(rt, line, before, bytes) else {
        return println!(rt; "out of memory");
    };
    if !before.is_empty() {
        tell_served(rt, "before it", &sessions.before)?;
    }
    tell_served(rt, "the session", &sessions.own)?;
    tell_served(rt, "the journal", &sessions.journal)
}

/// Tells the session of a line, with the one before it where there is one, and the journal behind it.
pub fn tell<R: Threads + Wait + Sync + AllocGlobal + Files + Print>(
    rt: &R,
    line: &Line,
    bytes: &[u8],
) -> io::Result<()> {
    match line.value("before") {
        Some(name) => tell_behind(rt, line, fs::read(rt, name)?.as_slice(), bytes),
        None => tell_behind(rt, line, b"", bytes),
    }
}
