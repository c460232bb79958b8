// The program `engined`.
ghost use Rattle.engine_ports.specs.Door.{outside};
ghost use Rattle.engine_program.specs.Program.{RunsProgram};

use crate::drilling::run_line_drill;
use crate::listening::listen;
use crate::running::run_session;
use engine_line::{Work, read_line};
use engine_ports::{Clock, Door, Sink, Source};
use engine_text::Text;
use program_parts::{address_of, status_by, tell_usage};
use session_model::Worst;
use std::alloc::Global;
use std::sync::Wait;
use std::thread::Threads;

/// What is written where the words aren't a line.
const USAGE: &str =
    "usage: engined --stdio | --listen ADDR | --drill N [--seed HEX] [--clock START:STEP] [--connections N] [--journal N]\n";

/// Runs `engined` with the words after the program's name, and answers its status.
pub fn run_engined<R: Threads + Wait + Sync, S: Source, K: Sink, C: Clock, D: Door>(
    rt: &R,
    alloc: Global,
    words: &[Text],
    source: &mut S,
    sink: &mut K,
    clock: &mut C,
    door: &mut D,
) -> u8
    ensures { RunsProgram words.now result
        (outside (S.gives source.old) (K.takes sink.old) (C.times clock.old))
        (outside (S.gives source.new) (K.takes sink.new) (C.times clock.new))
        (D.opens door.old) (D.opens door.new) }
{
    let Ok(line) = read_line(alloc, words) else {
        return status_by(Worst::NoMemory);
    };
    match line {
        None => tell_usage(sink, USAGE),
        Some(line) => match line.work {
            Work::Stdio => run_session(rt, alloc, line, source, sink, clock),
            Work::Listen(port) => match address_of(alloc, port) {
                Ok(addr) => listen(rt, alloc, line, &addr, clock, door),
                Err(_) => status_by(Worst::NoMemory),
            },
            Work::Drill(requests) => run_line_drill(rt, alloc, line, requests, sink, clock),
        },
    }
}
