//! Runs `engined` over stored requests. Each line of standard input names a file of `data/` and how its
//! bytes come; the status of the run and what it wrote follow on standard output.
#![tactic(auto)]

mod course;
mod crowd;
mod door;
mod pattern;
mod peer;
mod ports;
mod run;
mod scenario;
mod sockets;
mod talk;

use scenario::Scenario;
use std::io;

fn main(rt: HostRuntime) -> io::Result<()> {
    for line in rt.lines(rt.alloc()) {
        let line = line?;
        match Scenario::read(rt.alloc(), line.as_str())? {
            Some(scenario) => run::tell(&rt, &scenario)?,
            None => println!(rt; "not a scenario: {line}")?,
        }
    }
    Ok(())
}
