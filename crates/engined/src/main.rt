//! The daemon `engined`: real standard input and output, the system's clock and a door over TCP whose connections end each other's
//! pauses, handed to the one top call.
#![tactic(auto)]

use bell_ports::{Bell, BellDoor};
use engine_ports::{HeldStreams, ReadSource, SystemClock, TcpDoor, WriteSink};
use engine_program::run_engined;
use engine_text::Text;
use std::env;
use std::io::{self, ErrorKind};
use std::process::ExitCode;

/// The status where memory was refused.
const NO_MEMORY: u8 = 6;

/// The words after the program's name, or none without memory. Where a word isn't UTF-8 there are
/// no words, which is no line of the program.
fn words(rt: &HostRuntime) -> Option<Vec<Text>> {
    let mut words = Vec::new(rt.alloc());
    match env::args(rt) {
        Ok(args) => {
            for word in args.skip(1) {
                words.push(Text::from_string(word)).ok()?;
            }
            Some(words)
        }
        Err(error) if error.kind() == ErrorKind::InvalidData => Some(words),
        Err(_) => None,
    }
}

fn main(rt: HostRuntime) -> ExitCode {
    let held = HeldStreams::new(&rt);
    let Some(words) = words(&rt) else {
        return ExitCode::from(NO_MEMORY);
    };
    let mut source = ReadSource::new(rt.stdin());
    let mut sink = WriteSink::new(io::writer(&rt));
    let mut clock = SystemClock::new(&rt);
    let bell = Bell::new();
    let mut door = BellDoor::new(&rt, &bell, TcpDoor::new(&rt, rt.alloc()));
    let status = run_engined(
        &rt,
        rt.alloc(),
        &words,
        &mut source,
        &mut sink,
        &mut clock,
        &mut door,
    );
    drop(held);
    ExitCode::from(status)
}
