//! Tells what texts, programs and tables come to, by stored lines.
//! Each line of standard input has a topic, a kind and its fields, with a bar between each two; the line and what is
//! said of it follow on standard output.
#![tactic(auto)]

mod copies;
mod holdings;
mod line;
mod programs;
mod ring;
mod short;
mod tables;
mod texts;

use line::cut;
use short::Short;
use std::alloc::Global;
use std::io;

// What is said of a line, by the word of its topic.
fn told(alloc: Global, line: &str) -> Result<String, Short> {
    let (topic, rest) = cut(line);
    let (kind, rest) = cut(rest);
    match topic {
        "text" => texts::told(alloc, kind, rest),
        "run" => programs::told(alloc, kind, rest),
        "table" => tables::told(alloc, kind, rest),
        "holding" => holdings::told(alloc, kind, rest),
        "copy" => copies::told(alloc, kind, rest),
        "ring" => ring::told(alloc, kind, rest),
        _ => Ok(String::new(alloc)),
    }
}

fn main(rt: HostRuntime) -> io::Result<()> {
    for line in rt.lines(rt.alloc()) {
        let line = line?;
        println!(rt; "{line}")?;
        match told(rt.alloc(), line.as_str()) {
            Ok(told) => println!(rt; "{told}")?,
            Err(Short) => println!(rt; "out of memory")?,
        }
    }
    Ok(())
}
