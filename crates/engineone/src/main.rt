//! The daemon `engineone`: real standard input and output, the system's clock, a door over TCP and a runner on
//! this thread, handed to the one top call.
#![tactic(auto)]

use engine_ports::{HeldStreams, ReadSource, SystemClock, WriteSink};
use engine_text::Text;
use one_program::run_engine_one;
use polled_ports::{LocalRunner, TcpPollDoor};
use std::env;
use std::io::{self, ErrorKind};
use std::process::ExitCode;

/// The status where memory was refused.
const NO_MEMORY: u8 = 6;

/// The status where there is no runner.
const NO_RUNNER: u8 = 4;

/// The words after the program's name, or none without memory. Where a word isn't UTF-8 there are
/// no words, which is no line of the program.
fn words(rt: &HostRuntime) -> Option<Vec<Text>> {
    let mut words = Vec::new(rt.alloc());
    match env::args(rt) {
        Ok(args) => {
            for word in args.skip(1) {
                words.push(Text::from_string(word)).ok()?;
            }
            Some(words)
        }
        Err(error) if error.kind() == ErrorKind::InvalidData => Some(words),
        Err(_) => None,
    }
}

/// A runner on this thread, and a door whose sockets it watches.
type Outside<'a> = (LocalRunner<&'a HostRuntime>, TcpPollDoor<&'a HostRuntime>);

/// These two, or the system's reason why there are none.
fn outside(rt: &HostRuntime) -> io::Result<Outside<'_>> {
    let runner = LocalRunner::new(rt)?;
    let door = TcpPollDoor::new(rt, rt.alloc(), runner.reactor()?);
    Ok((runner, door))
}

fn main(rt: HostRuntime) -> ExitCode {
    let held = HeldStreams::new(&rt);
    let Some(words) = words(&rt) else {
        return ExitCode::from(NO_MEMORY);
    };
    let Ok((mut runner, mut door)) = outside(&rt) else {
        return ExitCode::from(NO_RUNNER);
    };
    let mut source = ReadSource::new(rt.stdin());
    let mut sink = WriteSink::new(io::writer(&rt));
    let mut clock = SystemClock::new(&rt);
    let status = run_engine_one(
        rt.alloc(),
        &words,
        &mut source,
        &mut sink,
        &mut clock,
        &mut door,
        &mut runner,
    );
    drop(held);
    ExitCode::from(status)
}
