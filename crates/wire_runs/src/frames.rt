// Streams of frames: a type, three zero bytes, the size, the payload.
ghost use Rattle.std.specs.Prelude.{◌<◌};

use crate::line::{as_text, bytes_of, cut, number, owned};
use crate::short::Short;
use engine_text::Stream;
use std::alloc::Global;
use stream_frame::{Demux, Ended, header};

// The stream of a word.
fn stream_of(word: &str) -> Stream {
    match word {
        "stdin" => Stream::Stdin,
        "stderr" => Stream::Stderr,
        _ => Stream::Stdout,
    }
}

// The header of `STREAM|SIZE`.
fn head(alloc: Global, rest: &str) -> Result<String, Short> {
    let (stream, size) = cut(rest);
    let bytes = header(stream_of(stream), size.parse().unwrap_or(0));
    Ok(format!(in alloc; "{bytes:?}")?)
}

// What stream 1 carries of these bytes in pieces of that size, and how the whole ends.
fn stdout_of(alloc: Global, bytes: &[u8], size: usize) -> Result<(Vec<u8>, Ended), Short>
    requires { 0 < size }
{
    let mut demux = Demux::new();
    let mut out = Vec::new(alloc);
    for piece in bytes.chunks(size) {
        for item in demux.push(piece) {
            if let Ok((Stream::Stdout, part)) = item {
                out.extend_from_slice(part)?;
            }
        }
    }
    Ok((out, demux.end()))
}

// The payload and the end of a stream in pieces of that size.
fn read(alloc: Global, bytes: &[u8], size: usize) -> Result<String, Short>
    requires { 0 < size }
{
    let (out, ended) = stdout_of(alloc, bytes, size)?;
    Ok(format!(in alloc; "{:?}, {ended:?}", as_text(&out))?)
}

// So many frames of so many letters each.
fn frames(alloc: Global, count: u64, length: u16) -> Result<Vec<u8>, Short> {
    let payload = vec![in alloc; b'x'; usize::from(length)]?;
    let mut bytes = Vec::new(alloc);
    for _ in 0..count {
        bytes.extend_from_slice(&header(Stream::Stdout, u32::from(length)))?;
        bytes.extend_from_slice(&payload)?;
    }
    Ok(bytes)
}

// How much of `COUNT|LENGTH` frames comes in pieces of that size, and their end.
fn many(alloc: Global, rest: &str, size: usize) -> Result<String, Short>
    requires { 0 < size }
{
    let (count, length) = cut(rest);
    let bytes = frames(alloc, number(count), length.parse().unwrap_or(0))?;
    let (out, ended) = stdout_of(alloc, &bytes, size)?;
    Ok(format!(in alloc; "{} bytes, {ended:?}", out.len())?)
}

// The items of pieces with a bar between each two, and the end.
fn items(alloc: Global, rest: &str) -> Result<String, Short> {
    let mut demux = Demux::new();
    let mut told = String::new(alloc);
    for field in rest.split('|') {
        let piece = bytes_of(alloc, field)?;
        for item in demux.push(&piece) {
            write!(told, "{item:?} ")?;
        }
        told.push_str("| ")?;
    }
    let ended = demux.end();
    write!(told, "{ended:?}")?;
    Ok(told)
}

// What comes in pieces of the size of `SIZE|..`.
fn sized(alloc: Global, kind: &str, rest: &str) -> Result<String, Short> {
    let (size, rest) = cut(rest);
    match size.parse::<usize>() {
        Ok(size) if 0 < size => {
            if kind == "read" {
                read(alloc, &bytes_of(alloc, rest)?, size)
            } else {
                many(alloc, rest, size)
            }
        }
        _ => owned(alloc, "no size"),
    }
}

/// What is said of frames.
pub fn told(alloc: Global, kind: &str, rest: &str) -> Result<String, Short> {
    match kind {
        "header" => head(alloc, rest),
        "items" => items(alloc, rest),
        _ => sized(alloc, kind, rest),
    }
}
