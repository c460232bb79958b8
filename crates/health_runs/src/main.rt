//! Tells what a container's health is, of stored lines: each has the words of a check, its numbers (interval,
//! timeout, retries, start period) and steps, with a bar between each two. The line and what is said of it follow.
#![tactic(auto)]

mod short;
mod watched;

use short::Short;
use std::alloc::Global;
use std::io;

// What is said of a line.
fn told(alloc: Global, line: &str) -> Result<String, Short> {
    let (words, rest) = line.split_once('|').unwrap_or((line, ""));
    let (numbers, steps) = rest.split_once('|').unwrap_or((rest, ""));
    watched::told(alloc, words, numbers, steps)
}

fn main(rt: HostRuntime) -> io::Result<()> {
    for line in rt.lines(rt.alloc()) {
        let line = line?;
        println!(rt; "{line}")?;
        match told(rt.alloc(), line.as_str()) {
            Ok(told) => println!(rt; "{told}")?,
            Err(Short) => println!(rt; "out of memory")?,
        }
    }
    Ok(())
}
