//! Tells what bodies, event lines, requests and command lines are to the libraries that read and write them, by stored lines.
//! Each line of standard input has a topic, a kind and its fields, with a bar between each two; the line and what is
//! said of it follow on standard output.
#![tactic(auto)]

mod bodies;
mod events;
mod line;
mod routes;
mod short;
mod shown;
mod values;
mod views;
mod words;

use line::cut;
use short::Short;
use std::alloc::Global;
use std::io;

// What is said of a line, by the word of its topic.
fn told(alloc: Global, line: &str) -> Result<String, Short> {
    let (topic, rest) = cut(line);
    let (kind, rest) = cut(rest);
    match topic {
        "body" => bodies::told(alloc, kind, rest),
        "view" => views::told(alloc, kind, rest),
        "event" => events::told(alloc, kind, rest),
        "route" => routes::told(alloc, kind, rest),
        "value" => values::told(alloc, kind, rest),
        "words" => words::told(alloc, kind, rest),
        _ => Ok(String::new(alloc)),
    }
}

fn main(rt: HostRuntime) -> io::Result<()> {
    for line in rt.lines(rt.alloc()) {
        let line = line?;
        println!(rt; "{line}")?;
        match told(rt.alloc(), line.as_str()) {
            Ok(told) => println!(rt; "{told}")?,
            Err(Short) => println!(rt; "out of memory")?,
        }
    }
    Ok(())
}
