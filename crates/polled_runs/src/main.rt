//! What the ports that are polled do over real sockets: a transcript that the gate compares.
#![tactic(auto)]

mod echo;
mod pipe;
mod rally;
mod stage;
mod visit;

use engine_ports::{MemSink, MemSource, NoMemory};
use pipe::Copying;
use polled_ports::{MemPollSink, MemPollSource, Runner};
use stage::Stage;
use std::alloc::Global;
use std::io::{self, ErrorKind};

/// A copy of five bytes in memory, of which some polls of both sides aren't ready.
fn copying(alloc: Global) -> Result<Copying<MemPollSource, MemPollSink>, NoMemory> {
    let source = MemSource::new(alloc, b"hello", 8, &[])?;
    let sink = MemSink::new(alloc, &[])?;
    Ok(Copying::new(
        MemPollSource::new(alloc, source, &[0, 1, 4])?,
        MemPollSink::new(alloc, sink, 1, &[2])?,
    ))
}

fn main(rt: HostRuntime) -> io::Result<()> {
    let mut stage = Stage::new(&rt, rt.alloc())?;
    let Ok(copying) = copying(rt.alloc()) else {
        return Err(ErrorKind::OutOfMemory.into());
    };
    let bytes = match stage.runner.run(copying) {
        Ok(Some(sink)) => sink.bytes() == b"hello".as_slice(),
        _ => false,
    };
    println!(rt; "bytes in memory, copied one at a time: {bytes}")?;
    println!(rt;
        "100 connections on one thread: {} bytes came back",
        stage.crowd(rt.alloc())?
    )?;
    println!(rt;
        "{} of 9 bytes came back in less than 50 milliseconds beside a task that keeps yielding",
        if stage.rally()? >= 5 { "most" } else { "few" }
    )?;
    println!(rt; "a peer that ended its writing: {:?}", stage.ended()?)?;
    println!(rt; "a peer that is gone: {:?}", stage.gone()?)?;
    println!(rt;
        "a peer that is left with a byte unread: it read {} bytes to their end",
        stage.left()?
    )?;
    Ok(())
}
