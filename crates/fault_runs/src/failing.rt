// A session with each of its reads, or each of its writes, failing in turn, or its input cut behind each byte.
use crate::serving::{Answered, Faults, new_turns, served};
use engine_ports::NoMemory;
use session_model::Ending;
use std::io::{self, Write};
use std::sync::Wait;
use std::thread::Threads;

/// What befalls a session at each number from 0 in turn.
#[derive(Clone, Copy, Debug, PartialEq, Eq)]
pub enum Each {
    /// The read of this number fails.
    Read,
    /// The write of this number fails.
    Write,
    /// The input ends behind so many bytes.
    Cut,
}

/// What came of a session.
#[derive(Clone, Copy, PartialEq, Eq)]
struct Outcome {
    ending: Ending,
    /// How many bytes were written, if they are a front of those that are written where nothing fails.
    written: Option<usize>,
    /// How many steps the daemon's history has.
    steps: u64,
}

// Serves these bytes to a new daemon, one at a read; gives also how many steps its history has.
fn served_by_bytes<R: Threads + Wait + Sync + AllocGlobal>(
    rt: &R,
    bytes: &[u8],
    reads: &[u64],
    writes: &[u64],
) -> Result<(Answered, u64), NoMemory> {
    let faults = Faults {
        reads,
        writes,
        stop_at: None,
    };
    let mut turns = new_turns(rt.alloc())?;
    let served = served(rt, &mut turns, 0, bytes, 1, &faults);
    let steps = turns.daemon().steps();
    turns.end();
    Ok((served?, steps))
}

// What came of this session, which would have written `whole` where nothing fails.
fn outcome_of(served: &Answered, steps: u64, whole: &[u8]) -> Outcome {
    let written = served.sink.bytes();
    let written = if whole.starts_with(written) {
        Some(written.len())
    } else {
        None
    };
    Outcome {
        ending: served.ending,
        written,
        steps,
    }
}

// The first so many of these bytes, or all where there are fewer.
fn front(bytes: &[u8], length: usize) -> &[u8] {
    if length < bytes.len() {
        &bytes[..length]
    } else {
        bytes
    }
}

// What comes of the session that meets it at this number.
fn troubled<R: Threads + Wait + Sync + AllocGlobal>(
    rt: &R,
    bytes: &[u8],
    each: Each,
    number: usize,
    whole: &[u8],
) -> Result<Outcome, NoMemory> {
    let failing = [number as u64];
    let (served, steps) = match each {
        Each::Read => served_by_bytes(rt, bytes, &failing, &[])?,
        Each::Write => served_by_bytes(rt, bytes, &[], &failing)?,
        Each::Cut => served_by_bytes(rt, front(bytes, number), &[], &[])?,
    };
    Ok(outcome_of(&served, steps, whole))
}

// Tells what came of it at these numbers.
fn tell_outcome(rt: &impl Print, first: usize, last: usize, outcome: Outcome) -> io::Result<()> {
    let Outcome {
        ending,
        written,
        steps,
    } = outcome;
    match written {
        Some(written) => {
            println!(rt; "{first} to {last}: {ending:?}, {written} bytes, {steps} steps")
        }
        None => println!(rt; "{first} to {last}: {ending:?}, other bytes, {steps} steps"),
    }
}

// Tells what came of it at each number, those that came to the same together, up to one that the session doesn't meet.
fn tell_each<R: Threads + Wait + Sync + AllocGlobal + Print>(
    rt: &R,
    bytes: &[u8],
    each: Each,
    whole: &[u8],
    unharmed: Outcome,
) -> io::Result<()> {
    let mut first = 0;
    let mut last = 0;
    let mut same = None;
    for number in 0..usize::MAX {
        let Ok(outcome) = troubled(rt, bytes, each, number, whole) else {
            return println!(rt; "out of memory");
        };
        if same != Some(outcome) {
            if let Some(before) = same {
                tell_outcome(rt, first, last, before)?;
            }
            first = number;
            same = Some(outcome);
        }
        last = number;
        if outcome == unharmed {
            return tell_outcome(rt, first, last, outcome);
        }
    }
    Ok(())
}

/// Tells the session of these bytes, one at a read, and then what comes of it where this befalls it at each number in turn.
pub fn tell<R: Threads + Wait + Sync + AllocGlobal + Print>(
    rt: &R,
    each: Each,
    bytes: &[u8],
) -> io::Result<()> {
    let Ok((served, steps)) = served_by_bytes(rt, bytes, &[], &[]) else {
        return println!(rt; "out of memory");
    };
    let whole = served.sink.bytes();
    io::writer(rt).write_all(whole)?;
    println!(rt; "")?;
    tell_each(rt, bytes, each, whole, outcome_of(&served, steps, whole))
}
