// The program `enginelab`.
ghost use Rattle.lab_program.specs.Program.{Puts, RunsLab, RunsLine, outer};

use crate::opening::time_by;
use crate::serving::serve_lab;
use crate::starting::start;
use crate::why::{Why, status_by, text_by};
use engine_ports::{Clock, Sink, Source};
use engine_text::Text;
use lab_line::{Asked, Lab, help, read_line, reason, version};
use lab_ports::{Linking, Listening, StopSignal};
use std::alloc::Global;
use std::sync::Wait;
use std::thread::Threads;
use std::time;

/// Writes a text, or a front of it where that fails.
fn put<K: Sink>(into: &mut K, text: &str)
    ensures { Puts text.now (K.takes into.old) (K.takes into.new) }
{
    let _ = into.write(text.as_bytes());
}

/// Runs a line: binds both doors, tells where they listen, and serves them up to the end.
fn run_line<
    R: Threads + Wait + time::Clock + Sync,
    J: Linking,
    S: Source + Drop,
    K: Sink,
    C: Clock,
    D: Listening + Drop,
    E: Listening + Send + Drop,
>(
    rt: &R,
    alloc: Global,
    lab: Lab,
    links: &J,
    signal: &StopSignal,
    input: S,
    output: &mut K,
    clock: &mut C,
    tools: D,
    control: E,
) -> (Why, D, E)
    ensures { RunsLine lab result.0 (C.times clock.old) (C.times clock.new) (K.takes output.old)
        (K.takes output.new) (D.opens tools) (D.opens result.1) (E.opens control)
        (E.opens result.2) }
{
    let mut tools = tools;
    let mut control = control;
    match start(alloc, lab, output, clock, &mut tools, &mut control) {
        Err(why) => (why, tools, control),
        Ok(started) => {
            let time = time_by(lab.clock, started.moment);
            serve_lab(
                rt,
                alloc,
                lab,
                started.moment,
                time.as_ref(),
                links,
                started.address.as_str(),
                signal,
                tools,
                control,
                input,
            )
        }
    }
}

/// Runs `enginelab` with the words after the program's name, and answers its status, with both doors.
pub fn run_lab<
    R: Threads + Wait + time::Clock + Sync,
    J: Linking,
    S: Source + Drop,
    K: Sink,
    L: Sink,
    C: Clock,
    D: Listening + Drop,
    E: Listening + Send + Drop,
>(
    rt: &R,
    alloc: Global,
    words: &[Text],
    links: &J,
    signal: &StopSignal,
    input: S,
    output: &mut K,
    error: &mut L,
    clock: &mut C,
    tools: D,
    control: E,
) -> (u8, D, E)
    ensures { RunsLab words.now result.0
        (outer (C.times clock.old) (K.takes output.old) (L.takes error.old) (D.opens tools)
        (E.opens control))
        (outer (C.times clock.new) (K.takes output.new) (L.takes error.new) (D.opens result.1)
        (E.opens result.2)) }
{
    let Ok(asked) = read_line(alloc, words) else {
        put(error, text_by(Why::NoMemory));
        return (status_by(Why::NoMemory), tools, control);
    };
    match asked {
        Asked::Help => {
            put(output, help());
            (0, tools, control)
        }
        Asked::Version => {
            put(output, version());
            (0, tools, control)
        }
        Asked::Wrong(wrong) => {
            put(error, reason(wrong));
            (2, tools, control)
        }
        Asked::Line(lab) => {
            let (why, tools, control) = run_line(
                rt, alloc, lab, links, signal, input, output, clock, tools, control,
            );
            put(error, text_by(why));
            (status_by(why), tools, control)
        }
    }
}
