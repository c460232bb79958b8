//! Runs `dockc` over stored lines, by a daemon of the same process over real sockets. Each line of
//! standard input but the first has the words of one command; what it wrote and its status follow
//! on standard output, and behind the last one what the vectors of the API came to.
#![tactic(auto)]

mod daemon;
mod line;
mod outside;
mod run;

use engine_conformance::run_vectors;
use engine_ports::{Door, NoMemory, TcpDoor, TcpLink};
use line::read_lines;
use session_model::Worst;
use std::io::{self, Write};
use std::thread::join;

fn main(rt: HostRuntime) -> io::Result<()> {
    let alloc = rt.alloc();
    let Some((most, lines)) = read_lines(&rt, alloc)? else {
        return println!(rt; "the first line isn't connections N");
    };
    let mut door = TcpDoor::new(&rt, alloc);
    if door.bind("127.0.0.1:0").is_err() {
        return println!(rt; "no port");
    }
    let Some(address) = door.address() else {
        return println!(rt; "no address");
    };
    let address = format!(in alloc; "127.0.0.1:{}", address.port())?;
    let link = TcpLink::new(&rt, alloc);
    let mut told = Vec::new(alloc);
    let (worst, ran) = join(
        &rt,
        || -> Worst { daemon::serve(&rt, alloc, most, &mut door) },
        || -> Result<(), NoMemory> {
            run::tell_all(&rt, alloc, address.as_str(), &lines, link, &mut told)
        },
    );
    io::writer(&rt).write_all(&told)?;
    if ran.is_err() {
        return println!(rt; "out of memory");
    }
    println!(rt; "daemon {worst:?}")?;
    match run_vectors(&rt, alloc) {
        Ok(report) => println!(rt;
            "vectors: {} passed, {} failed",
            report.passed, report.failed
        ),
        Err(_) => println!(rt; "out of memory"),
    }
}
