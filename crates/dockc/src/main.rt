//! The client `dockc`: real standard input, output and error, and a link over TCP, handed to the one
//! top call.
#![tactic(auto)]

use engine_client::{Outside, run_client};
use engine_ports::{HeldStreams, ReadSource, TcpLink, WriteSink};
use engine_text::Text;
use std::env;
use std::io::{self, ErrorKind};
use std::process::ExitCode;

/// The status where memory was refused.
const NO_MEMORY: u8 = 124;

/// The words after the program's name, or none without memory. Where a word isn't UTF-8 there are
/// no words, which is no line of the program.
fn words(rt: &HostRuntime) -> Option<Vec<Text>> {
    let mut words = Vec::new(rt.alloc());
    match env::args(rt) {
        Ok(args) => {
            for word in args.skip(1) {
                words.push(Text::from_string(word)).ok()?;
            }
            Some(words)
        }
        Err(error) if error.kind() == ErrorKind::InvalidData => Some(words),
        Err(_) => None,
    }
}

fn main(rt: HostRuntime) -> ExitCode {
    let held = HeldStreams::new(&rt);
    let Some(words) = words(&rt) else {
        return ExitCode::from(NO_MEMORY);
    };
    let mut outside = Outside {
        link: TcpLink::new(&rt, rt.alloc()),
        input: ReadSource::new(rt.stdin()),
        out: WriteSink::new(io::writer(&rt)),
        errors: WriteSink::new(rt.stderr()),
    };
    let status = run_client(&rt, rt.alloc(), &words, &mut outside);
    drop(held);
    ExitCode::from(status)
}
