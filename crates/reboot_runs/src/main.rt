//! Reboots from stored journals. Each line of standard input names a file of `data/`, the greatest number of entries and the moment that
//! is handed; what comes of it, with the journal of the daemon that goes on, follows on standard output.
#![tactic(auto)]

mod journal;
mod line;
mod telling;
mod wrong;

use line::{Kind, Line};
use std::rt::Files;
use std::{fs, io};

// Runs a line and tells what came of it.
fn tell<R: AllocGlobal + Files + Print>(rt: &R, line: &Line) -> io::Result<()> {
    let text = fs::read(rt, line.name.as_str())?;
    match line.kind {
        Kind::Once => telling::tell(rt, text.as_slice(), line.greatest, line.handed),
        Kind::Again(later) => {
            telling::tell_twice(rt, text.as_slice(), line.greatest, line.handed, later)
        }
        Kind::Wrong => wrong::tell(rt, text.as_slice(), line.greatest, line.handed),
    }
}

fn main(rt: HostRuntime) -> io::Result<()> {
    for text in rt.lines(rt.alloc()) {
        let text = text?;
        println!(rt; "== {text}")?;
        match Line::read(rt.alloc(), text.as_str())? {
            Some(line) => tell(&rt, &line)?,
            None => println!(rt; "not a line of this program")?,
        }
    }
    Ok(())
}
