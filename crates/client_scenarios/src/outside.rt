// What a line has outside: its streams, and what stands in the place of the daemon.
use crate::line::{Line, bytes_of};
use engine_client::Outside;
use engine_ports::{MemLink, MemSink, MemSource, NoMemory};
use std::alloc::{AllocError, Global};

/// How much a source gives at once.
const CUT: usize = 4096;

/// What stands before an answer behind which a connection stays open: a read behind it fails.
const OPEN: &str = "open ";

/// What stands between a text and how often which other one is behind it.
const TIMES: &str = " times ";

// The numbers of the calls that fail: the first, if it does.
fn failing(fails: bool) -> &'static [u64] {
    if fails { &[0] } else { &[] }
}

/// What a line has outside, with this link; of what `input fails`, `output fails` and `errors fail` name
/// the first call fails.
pub fn outside_of<L: Drop>(
    alloc: Global,
    line: &Line,
    link: L,
) -> Result<Outside<L, MemSource, MemSink, MemSink>, NoMemory> {
    let input = MemSource::new(alloc, &line.input, CUT, failing(line.has("input fails")))?;
    let out = MemSink::new(alloc, failing(line.has("output fails")))?;
    let errors = MemSink::new(alloc, failing(line.has("errors fail")))?;
    Ok(Outside {
        link,
        input,
        out,
        errors,
    })
}

// The bytes of an answer: those of a text; or of `TEXT times N PIECE`, a text and a piece so often.
fn answer_of(alloc: Global, text: &str) -> Result<Vec<u8>, AllocError> {
    let Some((front, behind)) = text.split_once(TIMES) else {
        return bytes_of(alloc, text);
    };
    let mut bytes = bytes_of(alloc, front)?;
    let (count, piece) = behind.split_once(' ').unwrap_or(("", ""));
    for _ in 0..count.parse::<u32>().unwrap_or(0) {
        bytes.extend_from_slice(piece.as_bytes())?;
    }
    Ok(bytes)
}

// Lets a connection be made that gives this, whose reads and writes of these numbers fail.
fn put(
    alloc: Global,
    link: &mut MemLink,
    given: &[u8],
    reads: &[u64],
    writes: &[u64],
) -> Result<(), NoMemory> {
    let source = MemSource::new(alloc, given, CUT, reads)?;
    let sink = MemSink::new(alloc, writes)?;
    link.put(source, sink)
}

// Lets a connection be made that gives what this part tells.
fn put_part(alloc: Global, link: &mut MemLink, part: &str) -> Result<(), NoMemory> {
    match part.strip_prefix(OPEN) {
        Some(answer) => put(alloc, link, &answer_of(alloc, answer)?, &[1], &[]),
        None => put(alloc, link, &answer_of(alloc, part)?, &[], &[]),
    }
}

/// A link that gives what a line has in the place of the daemon, one connection a part: those of
/// `read fails` and `write fails` fail at their first, and any other part is what one gives. `nowhere`
/// and what the streams do make none.
pub fn link_of(alloc: Global, line: &Line) -> Result<MemLink, NoMemory> {
    let mut link = MemLink::new(alloc, &[])?;
    for part in &line.instead {
        match part.as_str() {
            "nowhere" | "input fails" | "output fails" | "errors fail" => {}
            "read fails" => put(alloc, &mut link, &[], &[0], &[])?,
            "write fails" => put(alloc, &mut link, &[], &[], &[0])?,
            part => put_part(alloc, &mut link, part)?,
        }
    }
    Ok(link)
}
