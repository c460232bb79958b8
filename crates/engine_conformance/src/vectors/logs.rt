// Vectors of logs and of their frames.
ghost use Rattle.std.specs.Prelude.{◌<◌};
ghost use Rattle.response_reader.specs.Reader.{IsInBody};

use crate::answers::tells;
use crate::asking::requests;
use crate::running::{STDIO, run, run_client_over};
use crate::short::Short;
use engine_ports::MemSource;
use engine_text::Stream;
use response_reader::{Answered, BodyGot, ResponseReader};
use std::alloc::Global;
use std::sync::Wait;
use std::thread::Threads;
use stream_frame::{Demux, Ended, FrameFault};

/// The frame of a line `hi`.
const FRAME: &[u8] = b"\x01\0\0\0\0\0\0\x03hi\n";

// What is on standard output of these bytes in pieces of that size, and how they end.
fn read(alloc: Global, bytes: &[u8], size: usize) -> Result<(Vec<u8>, Ended), Short>
    requires { 0 < size }
{
    let mut demux = Demux::new();
    let mut out = Vec::new(alloc);
    for piece in bytes.chunks(size) {
        for item in demux.push(piece) {
            if let Ok((Stream::Stdout, part)) = item {
                out.extend_from_slice(part)?;
            }
        }
    }
    Ok((out, demux.end()))
}

/// A log of one line, and its frame whole and byte by byte.
pub fn a_line_of_a_log_is_a_frame<R: Threads + Wait + Sync>(
    rt: &R,
    alloc: Global,
) -> Result<bool, Short> {
    let asked =
        r#"POST /v1.43/containers/create?name=web {"Image":"engine/tools","Cmd":["echo","hi"]}
POST /v1.43/containers/web/start
POST /v1.43/containers/web/wait
GET /v1.43/containers/web/logs?stdout=1"#;
    let input = requests(alloc, asked)?;
    let ran = run(rt, alloc, STDIO, &input)?;
    let told = "201\n204\n200 {\"StatusCode\":0}\n200 \u{1}\0\0\0\0\0\0\u{3}hi";
    let (whole, end) = read(alloc, FRAME, FRAME.len())?;
    let (cut, other) = read(alloc, FRAME, 1)?;
    Ok(
        tells(alloc, ran.out.bytes(), told)?
            && whole.as_slice() == b"hi\n".as_slice()
            && cut.as_slice() == b"hi\n".as_slice()
            && end == Ended::Whole
            && other == Ended::Whole,
    )
}

// What the first item of a piece is: the fault, if it is one.
fn fault_of(demux: &mut Demux, piece: &[u8]) -> Option<FrameFault> {
    match demux.push(piece).next() {
        Some(Err(fault)) => Some(fault),
        _ => None,
    }
}

// How these bytes end, and how many bytes of payload they have.
fn end_of(bytes: &[u8]) -> (Ended, usize) {
    let mut demux = Demux::new();
    let mut count = 0usize;
    for item in demux.push(bytes) {
        if let Ok((_, part)) = item {
            count = count.saturating_add(part.len());
        }
    }
    (demux.end(), count)
}

/// Bytes that no frame has, and streams that end inside of a frame.
pub fn wrong_bytes_end_a_stream_of_frames() -> bool {
    let mut demux = Demux::new();
    let bad_type = Some(FrameFault::BadType { at: 0 });
    let first = fault_of(&mut demux, b"\x03");
    let later = fault_of(&mut demux, b"\x01\0\0\0\0\0\0\0");
    let bad_pad = fault_of(&mut Demux::new(), b"\x01\0\x01");
    first == bad_type
        && later == bad_type
        && bad_pad == Some(FrameFault::BadPad { at: 2 })
        && end_of(b"\x01\0\0\0\0\0") == (Ended::CutHeader(6), 0)
        && end_of(b"\x02\0\0\0\0\0\0\0") == (Ended::Whole, 0)
        && end_of(b"\x01\0\0\0\0\0\0\x05ab") == (Ended::CutPayload(3), 2)
}

// Whether the log of `noise` with that many bytes has as many as are kept, in 128 frames, behind a run that ended with this code.
fn is_noise<R: Threads + Wait + Sync>(
    rt: &R,
    alloc: Global,
    bytes: &str,
    code: &str,
) -> Result<bool, Short> {
    let create = format!(in alloc;
        "POST /containers/create?name=web {{\"Image\":\"engine/tools\",\"Cmd\":[\"noise\",\"{bytes}\"]}}"
    )?;
    let run_of = format!(in alloc;
        "{create}\nPOST /containers/web/start\nPOST /containers/web/wait"
    )?;
    let asked = format!(in alloc; "{run_of}\nGET /containers/web/logs?stdout=1&stderr=1")?;
    let before = run(rt, alloc, STDIO, &requests(alloc, &run_of)?)?;
    let ran = run(rt, alloc, STDIO, &requests(alloc, &asked)?)?;
    let told = format!(in alloc; "201\n204\n200 {{\"StatusCode\":{code}}}")?;
    let count = before.out.bytes().len();
    let written = ran.out.bytes();
    if written.len() < count {
        return Ok(false);
    }
    let body = body_of(alloc, &written[count..])?;
    let (end, payload) = end_of(&body);
    Ok(
        tells(alloc, before.out.bytes(), &told)?
            && end == Ended::Whole
            && payload == 4_194_304
            && body.len() == 4_195_328,
    )
}

// The body of an answer that the client's reader takes.
fn body_of(alloc: Global, answer: &[u8]) -> Result<Vec<u8>, Short> {
    let mut source = MemSource::new(alloc, answer, 4096, &[])?;
    let mut reader = ResponseReader::new(alloc)?;
    let mut body = Vec::new(alloc);
    if let Answered::Head { .. } = reader.head(&mut source) {
        read_body(&mut reader, &mut source, &mut body)?;
    }
    Ok(body)
}

// Reads a body to its end.
fn read_body(
    reader: &mut ResponseReader,
    source: &mut MemSource,
    body: &mut Vec<u8>,
) -> Result<(), Short>
    requires { IsInBody reader.old.stage }
{
    let mut into = [0; 4096];
    for _call in 0..u64::MAX {
        match reader.body(source, &mut into) {
            BodyGot::Bytes(count) => body.extend_from_slice(&into[..count])?,
            _ => return Ok(()),
        }
    }
    Ok(())
}

/// What is kept of a log: four mebibytes, in frames of 32 KiB.
pub fn four_mebibytes_of_a_log_are_kept<R: Threads + Wait + Sync>(
    rt: &R,
    alloc: Global,
) -> Result<bool, Short> {
    Ok(is_noise(rt, alloc, "4194305", "153")? && is_noise(rt, alloc, "4194304", "0")?)
}
