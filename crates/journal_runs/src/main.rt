//! Tells what stored lines of a journal are, and what whole journals come to. Each line of standard input has a topic, a
//! kind and a text, with a bar between each two; the line and what is said of it follow on standard output.
#![tactic(auto)]

mod journals;
mod line;
mod short;

use line::cut;
use short::Short;
use std::alloc::Global;
use std::io;

// What is said of a line; of what has another topic nothing.
fn told(alloc: Global, line: &str) -> Result<String, Short> {
    let (topic, rest) = cut(line);
    let (kind, rest) = cut(rest);
    if topic == "journal" {
        journals::told(alloc, kind, rest)
    } else {
        Ok(String::new(alloc))
    }
}

fn main(rt: HostRuntime) -> io::Result<()> {
    for line in rt.lines(rt.alloc()) {
        let line = line?;
        println!(rt; "{line}")?;
        match told(rt.alloc(), line.as_str()) {
            Ok(told) => println!(rt; "{told}")?,
            Err(Short) => println!(rt; "out of memory")?,
        }
    }
    Ok(())
}
