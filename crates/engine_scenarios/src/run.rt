// A scenario, run and told.
ghost use Rattle.std.specs.Prelude.{◌<◌};

use crate::course::Course;
use crate::crowd::tell_crowd;
use crate::door::TalkDoor;
use crate::scenario::{Coming, Scenario};
use crate::sockets::{tell_course, tell_taken};
use crate::talk::{MOMENT, read_talk};
use engine_ports::{Door, MemSink, MemSource, NoDoor, NoMemory, StepClock};
use engine_program::run_engined;
use engine_text::Text;
use std::fs;
use std::io::{self, Write};
use std::net::{Net, TcpListener, TcpStream};
use std::rt::Files;
use std::sync::Wait;
use std::thread::Threads;
use std::time::Clock;

/// What a run ended with, and what it wrote but to connections.
#[derive(Drop)]
pub struct Ran {
    pub status: u8,
    pub sink: MemSink,
}

// Runs the daemon over these bytes, at most `cut` of them at once; that pause is answered by a stop.
fn run_over<R: Threads + Wait + Sync + AllocGlobal>(
    rt: &R,
    words: &[Text],
    bytes: &[u8],
    cut: usize,
    failing_reads: &[u64],
    failing_writes: &[u64],
    stop_at: Option<u64>,
) -> Result<Ran, NoMemory>
    requires { 0 < cut }
{
    let mut source = MemSource::new(rt.alloc(), bytes, cut, failing_reads)?;
    let mut sink = MemSink::new(rt.alloc(), failing_writes)?;
    let mut clock = StepClock::new(MOMENT, 0, stop_at);
    let status = run_engined(
        rt,
        rt.alloc(),
        words,
        &mut source,
        &mut sink,
        &mut clock,
        &mut NoDoor::new(rt.alloc()),
    );
    Ok(Ran { status, sink })
}

// Tells the status, and what was written, as it is.
fn tell_ran(rt: &impl Print, ran: Result<Ran, NoMemory>) -> io::Result<()> {
    match ran {
        Ok(ran) => {
            let mut out = io::writer(rt);
            println!(rt; "status {}", ran.status)?;
            out.write_all(ran.sink.bytes())?;
            println!(rt; "")
        }
        Err(NoMemory) => println!(rt; "out of memory"),
    }
}

// Tells how many of the cut inputs end with status 3 and nothing written, and each that doesn't.
fn tell_cuts<R: Threads + Wait + Sync + AllocGlobal + Print>(
    rt: &R,
    words: &[Text],
    bytes: &[u8],
) -> io::Result<()> {
    let mut as_cut = 0u64;
    for length in 1..bytes.len() {
        let Ok(ran) = run_over(rt, words, &bytes[..length], 4096, &[], &[], None) else {
            return println!(rt; "out of memory");
        };
        let written = ran.sink.bytes().len();
        if ran.status == 3 && written == 0 {
            as_cut = as_cut.saturating_add(1);
        } else {
            println!(rt;
                "cut after {length}: status {}, {written} bytes",
                ran.status
            )?;
        }
    }
    println!(rt; "{as_cut} cuts: status 3, nothing written")
}

/// Runs the daemon behind this door, with nothing on standard input.
pub fn run_behind<R: Threads + Wait + Sync + AllocGlobal, D: Door>(
    rt: &R,
    words: &[Text],
    door: &mut D,
) -> Result<Ran, NoMemory> {
    let mut source = MemSource::new(rt.alloc(), b"", 1, &[])?;
    let mut sink = MemSink::new(rt.alloc(), &[])?;
    let mut clock = StepClock::new(MOMENT, 0, None);
    let status = run_engined(
        rt,
        rt.alloc(),
        words,
        &mut source,
        &mut sink,
        &mut clock,
        door,
    );
    Ok(Ran { status, sink })
}

// Runs the daemon behind a door through which the connections of a talk come.
fn run_talk<R: Threads + Wait + Sync + AllocGlobal>(
    rt: &R,
    words: &[Text],
    course: &Course,
) -> Result<Ran, NoMemory> {
    run_behind(rt, words, &mut TalkDoor::new(rt, rt.alloc(), course))
}

// Tells what the connections of a talk were written, slot behind slot.
fn tell_talk<R: Threads + Wait + Sync + AllocGlobal + Print>(
    rt: &R,
    words: &[Text],
    bytes: &[u8],
) -> io::Result<()> {
    let Some(slots) = read_talk(rt.alloc(), bytes)? else {
        return println!(rt; "not a talk");
    };
    let course = Course::new(rt.alloc(), slots);
    let Ok(ran) = run_talk(rt, words, &course) else {
        return println!(rt; "out of memory");
    };
    let mut out = io::writer(rt);
    print!(rt; "status {}", ran.status)?;
    out.write_all(&course.into_told())?;
    out.write_all(ran.sink.bytes())?;
    println!(rt; "")
}

/// Runs a scenario and tells what came of it.
pub fn tell<
    R: Threads
        + Wait
        + Sync
        + AllocGlobal
        + Files
        + Print
        + Net<Listener = TcpListener, Stream = TcpStream>
        + Clock,
>(rt: &R, scenario: &Scenario) -> io::Result<()> {
    let words = scenario.words.as_slice();
    let name = scenario.name.as_str();
    let bytes = fs::read(rt, name)?;
    let bytes = bytes.as_slice();
    match scenario.coming {
        Coming::Pieces(cut) => {
            println!(rt; "== {name} in pieces of {cut}")?;
            if cut == 0 {
                return println!(rt; "no piece has no byte");
            }
            tell_ran(rt, run_over(rt, words, bytes, cut, &[], &[], None))
        }
        Coming::Cuts => {
            println!(rt; "== {name} cut after each byte")?;
            tell_cuts(rt, words, bytes)
        }
        Coming::FailingRead(number) => {
            println!(rt; "== {name} with read {number} failing")?;
            tell_ran(rt, run_over(rt, words, bytes, 4096, &[number], &[], None))
        }
        Coming::FailingWrite(number) => {
            println!(rt; "== {name} with write {number} failing")?;
            tell_ran(rt, run_over(rt, words, bytes, 4096, &[], &[number], None))
        }
        Coming::StoppedPause(number) => {
            println!(rt; "== {name} with pause {number} stopped")?;
            tell_ran(rt, run_over(rt, words, bytes, 4096, &[], &[], Some(number)))
        }
        Coming::Talk => {
            println!(rt; "== {name}")?;
            tell_talk(rt, words, bytes)
        }
        Coming::Crowd => {
            println!(rt; "== {name} at once")?;
            tell_crowd(rt, words, bytes)
        }
        Coming::Sockets => {
            println!(rt; "== {name} over sockets")?;
            tell_course(rt, words, bytes)
        }
        Coming::Taken => {
            println!(rt; "== {name} at a taken port")?;
            tell_taken(rt, words)
        }
    }
}
