//! Serves sessions of the daemon over stored requests, where turns are refused, reads or writes fail, the input is cut or the clock
//! stops as a line of standard input says; what came of each follows on standard output.
#![tactic(auto)]

mod failing;
mod line;
mod serving;
mod session;

use line::{Kind, Line};
use std::rt::Files;
use std::sync::Wait;
use std::thread::Threads;
use std::{fs, io};

// Runs a line and tells what came of it.
fn tell<R: Threads + Wait + Sync + AllocGlobal + Files + Print>(
    rt: &R,
    line: &Line,
) -> io::Result<()> {
    let bytes = fs::read(rt, line.name.as_str())?;
    let bytes = bytes.as_slice();
    match line.kind {
        Kind::Session => session::tell(rt, line, bytes),
        Kind::Each(each) => failing::tell(rt, each, bytes),
    }
}

fn main(rt: HostRuntime) -> io::Result<()> {
    for text in rt.lines(rt.alloc()) {
        let text = text?;
        println!(rt; "== {text}")?;
        match Line::read(rt.alloc(), text.as_str())? {
            Some(line) => tell(&rt, &line)?,
            None => println!(rt; "not a line of this program")?,
        }
    }
    Ok(())
}
