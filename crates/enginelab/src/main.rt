//! The program `enginelab`: real standard streams, the system's clock and two doors over TCP, handed to the one top
//! call.
#![tactic(auto)]

use engine_ports::{HeldStreams, SystemClock, WriteSink};
use engine_text::Text;
use lab_ports::{StopDoor, StopInput, StopSignal, TcpLinks};
use lab_program::run_lab;
use std::alloc::Global;
use std::env;
use std::io::{self, ErrorKind};
use std::process::ExitCode;

/// The status where the system refused what the program needs before its line is read.
const REFUSED: u8 = 6;

/// A word that is no option.
fn no_option(alloc: Global) -> Option<Vec<Text>> {
    let mut words = Vec::new(alloc);
    words.push(Text::of(alloc, "?").ok()?).ok()?;
    Some(words)
}

/// The words after the program's name, or none without memory. Where a word isn't UTF-8 it is no option.
fn words(rt: &HostRuntime) -> Option<Vec<Text>> {
    match env::args(rt) {
        Ok(args) => {
            let mut words = Vec::new(rt.alloc());
            for word in args.skip(1) {
                words.push(Text::from_string(word)).ok()?;
            }
            Some(words)
        }
        Err(error) if error.kind() == ErrorKind::InvalidData => no_option(rt.alloc()),
        Err(_) => None,
    }
}

fn main(rt: HostRuntime) -> ExitCode {
    let held = HeldStreams::new(&rt);
    let (Some(words), Ok(signal)) = (words(&rt), StopSignal::new(&rt)) else {
        return ExitCode::from(REFUSED);
    };
    let input = StopInput::new(rt.stdin(), &signal);
    let mut output = WriteSink::new(io::writer(&rt));
    let mut error = WriteSink::new(rt.stderr());
    let mut clock = SystemClock::new(&rt);
    let links = TcpLinks::new(&rt, rt.alloc());
    let (status, _, _) = run_lab(
        &rt,
        rt.alloc(),
        &words,
        &links,
        &signal,
        input,
        &mut output,
        &mut error,
        &mut clock,
        StopDoor::new(&rt, rt.alloc(), &signal),
        StopDoor::new(&rt, rt.alloc(), &signal),
    );
    drop(held);
    ExitCode::from(status)
}
