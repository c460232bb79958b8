//! Tells what the ports and the libraries of the wire say of stored lines.
//! Each line of standard input has a topic, a kind and its fields, with a bar between each two; the line and what is
//! said of it follow on standard output.
#![tactic(auto)]

mod answers;
mod doors;
mod frames;
mod line;
mod ports;
mod requests;
mod responses;
mod short;

use line::cut;
use short::Short;
use std::alloc::Global;
use std::io;

// What is said of bytes that are read and written.
fn of_bytes(alloc: Global, topic: &str, kind: &str, rest: &str) -> Result<String, Short> {
    match topic {
        "frame" => frames::told(alloc, kind, rest),
        "read" => requests::told(alloc, kind, rest),
        "response" => responses::told(alloc, kind, rest),
        "write" => answers::told(alloc, kind, rest),
        _ => Ok(String::new(alloc)),
    }
}

// What is said of a line, by the word of its topic.
fn told(rt: &HostRuntime, line: &str) -> Result<String, Short> {
    let (topic, rest) = cut(line);
    let (kind, rest) = cut(rest);
    match topic {
        "port" => ports::told(rt, kind, rest),
        "door" => doors::told(rt, kind, rest),
        _ => of_bytes(rt.alloc(), topic, kind, rest),
    }
}

fn main(rt: HostRuntime) -> io::Result<()> {
    for line in rt.lines(rt.alloc()) {
        let line = line?;
        println!(rt; "{line}")?;
        match told(&rt, line.as_str()) {
            Ok(told) => println!(rt; "{told}")?,
            Err(Short) => println!(rt; "out of memory")?,
        }
    }
    Ok(())
}
