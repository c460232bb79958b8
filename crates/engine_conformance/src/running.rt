// The daemon and the client over streams in memory.
use crate::short::Short;
use engine_client::{Outside, run_client};
use engine_ports::{MemLink, MemSink, MemSource, NoDoor, StepClock};
use engine_program::run_engined;
use engine_text::Text;
use std::alloc::Global;
use std::sync::Wait;
use std::thread::Threads;

/// The line of the daemon that most vectors run by.
pub const STDIO: &str = "--stdio --clock 1700000000000:0";

/// The moment at which daemons are opened, in milliseconds since 1970.
pub const MOMENT: u64 = 1_700_000_000_000;

/// How much a source gives at once.
const PIECE: usize = 4096;

/// What a program ended with, and what it wrote.
#[derive(Drop)]
pub struct Ran {
    pub status: u8,
    pub out: MemSink,
}

impl Ran {
    /// Whether it ended with this status and wrote just this.
    pub fn is(&self, status: u8, written: &[u8]) -> bool {
        self.status == status && self.out.bytes() == written
    }
}

/// The words of a line.
pub fn words_of(alloc: Global, line: &str) -> Result<Vec<Text>, Short> {
    let mut words = Vec::new(alloc);
    for word in line.split_whitespace() {
        let text = String::from_str(alloc, word)?;
        words.push(Text::from_string(text))?;
    }
    Ok(words)
}

/// Runs the daemon by this line over this input, whose read or write of these numbers fails.
pub fn run_failing<R: Threads + Wait + Sync>(
    rt: &R,
    alloc: Global,
    line: &str,
    input: &[u8],
    reads: &[u64],
    writes: &[u64],
) -> Result<Ran, Short> {
    let words = words_of(alloc, line)?;
    let mut source = MemSource::new(alloc, input, PIECE, reads)?;
    let mut out = MemSink::new(alloc, writes)?;
    let mut clock = StepClock::new(MOMENT, 0, None);
    let mut door = NoDoor::new(alloc);
    let status = run_engined(
        rt,
        alloc,
        &words,
        &mut source,
        &mut out,
        &mut clock,
        &mut door,
    );
    Ok(Ran { status, out })
}

/// Runs the daemon by this line over this input.
pub fn run<R: Threads + Wait + Sync>(
    rt: &R,
    alloc: Global,
    line: &str,
    input: &[u8],
) -> Result<Ran, Short> {
    run_failing(rt, alloc, line, input, &[], &[])
}

/// Runs the client by this line, with this standard input, over connections that give these answers.
pub fn run_client_over<W: Wait>(
    rt: &W,
    alloc: Global,
    line: &str,
    input: &[u8],
    answers: &[&[u8]],
) -> Result<Ran, Short> {
    let words = words_of(alloc, line)?;
    let mut link = MemLink::new(alloc, &[])?;
    for answer in answers {
        let source = MemSource::new(alloc, answer, PIECE, &[])?;
        link.put(source, MemSink::new(alloc, &[])?)?;
    }
    let mut outside = Outside {
        link,
        input: MemSource::new(alloc, input, PIECE, &[])?,
        out: MemSink::new(alloc, &[])?,
        errors: MemSink::new(alloc, &[])?,
    };
    let status = run_client(rt, alloc, &words, &mut outside);
    let Outside {
        link: _,
        input: _,
        out,
        errors: _,
    } = outside;
    Ok(Ran { status, out })
}
