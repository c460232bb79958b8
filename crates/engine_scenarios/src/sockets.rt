// A course of several connections over real sockets: each line is one connection's, and the next one is read when that is done.
use crate::pattern::{block_of, send_blocks};
use crate::peer::{connect, flood, free_port, send, take, take_blocks, take_rest};
use crate::run::{Ran, run_behind};
use crate::scenario::owned;
use crate::talk::cut;
use engine_ports::{NoMemory, TcpDoor};
use engine_text::Text;
use std::alloc::{AllocError, Global};
use std::io::{self, ErrorKind, Write};
use std::net::{Net, Shutdown, TcpListener, TcpStream};
use std::str;
use std::sync::Wait;
use std::thread::{Threads, join};
use std::time::Clock;

/// What a line has: whose it is, what that one does, and a number.
#[derive(Clone, Copy)]
struct Turn<'a> {
    who: usize,
    deed: &'a str,
    number: u32,
    /// How many bytes behind the line are its.
    bytes: usize,
}

// A line `WHO DEED NUMBER`, where a deed that is a number stands for so many bytes behind it.
fn read_turn(line: &str) -> Option<Turn<'_>> {
    let (who, rest) = line.split_once(' ')?;
    let (deed, number) = rest.split_once(' ')?;
    Some(Turn {
        who: who.parse().ok()?,
        deed,
        number: number.parse().ok()?,
        bytes: deed.parse().unwrap_or(0),
    })
}

// What the connection of a turn does, and what comes back.
fn act<R: Threads + AllocGlobal>(
    rt: &R,
    stream: &TcpStream,
    turn: &Turn<'_>,
    bytes: &str,
    told: &mut Vec<u8>,
) -> io::Result<()> {
    let alloc = rt.alloc();
    match turn.deed {
        "end" => {
            stream.shutdown(Shutdown::Write)?;
            take(alloc, stream, turn.number, told)
        }
        "rest" => take_rest(stream, told),
        "pour" => send_blocks(stream, &block_of(alloc)?, turn.number),
        "count" => take_blocks(alloc, stream, turn.number, told),
        "flood" => flood(rt, alloc, stream, &block_of(alloc)?, turn.number, told),
        _ => {
            send(stream, bytes)?;
            take(alloc, stream, turn.number, told)
        }
    }
}

// Adds a connection behind the others.
fn add(streams: &mut Vec<Option<TcpStream>>, stream: TcpStream) -> Result<(), AllocError> {
    streams.push(Some(stream))?;
    Ok(())
}

// Lets a connection go, or do what its turn says; it is made in its first one.
fn make_turn<R: Threads + AllocGlobal + Net<Stream = TcpStream> + Clock>(
    rt: &R,
    port: u16,
    streams: &mut Vec<Option<TcpStream>>,
    turn: &Turn<'_>,
    bytes: &str,
    told: &mut Vec<u8>,
) -> io::Result<()> {
    if turn.who == streams.len() {
        add(streams, connect(rt, port)?)?;
    }
    if turn.deed == "gone" && turn.who < streams.len() {
        streams[turn.who] = None;
        return Ok(());
    }
    match streams.as_slice().get(turn.who) {
        Some(Some(stream)) => act(rt, stream, turn, bytes, told),
        _ => Err(ErrorKind::NotConnected.into()),
    }
}

// Tells the line of a turn.
fn tell_line(line: &str, told: &mut Vec<u8>) -> Result<(), AllocError> {
    told.extend_from_slice(b"\n-- ")?;
    told.extend_from_slice(line.as_bytes())?;
    told.push(b'\n')?;
    Ok(())
}

// Makes the turns of a course, one behind the other, and tells what each brought.
fn make_turns<R: Threads + AllocGlobal + Net<Stream = TcpStream> + Clock>(
    rt: &R,
    port: u16,
    text: &str,
    told: &mut Vec<u8>,
) -> io::Result<()> {
    let mut streams = Vec::new(rt.alloc());
    let mut left = text;
    for _ in 0..text.len() {
        let Some((line, rest)) = left.split_once('\n') else {
            break;
        };
        tell_line(line, told)?;
        let Some(turn) = read_turn(line) else {
            return Err(ErrorKind::InvalidInput.into());
        };
        let Some((bytes, rest)) = cut(rest, turn.bytes) else {
            return Err(ErrorKind::InvalidInput.into());
        };
        make_turn(rt, port, &mut streams, &turn, bytes, told)?;
        left = rest;
    }
    Ok(())
}

// The words of a line that listens at this port, before these.
fn words_at(alloc: Global, port: u16, words: &[Text]) -> Result<Vec<Text>, AllocError> {
    let addr = format!(in alloc; "127.0.0.1:{port}")?;
    let mut all = Vec::new(alloc);
    all.push(owned(alloc, "--listen")?)?;
    all.push(owned(alloc, addr.as_str())?)?;
    for word in words {
        all.push(owned(alloc, word.as_str())?)?;
    }
    Ok(all)
}

// Tells the status of the daemon and what the connections were told, or that one failed.
fn tell<R: Print>(
    rt: &R,
    ran: Result<Ran, NoMemory>,
    made: io::Result<()>,
    told: &[u8],
) -> io::Result<()> {
    let Ok(ran) = ran else {
        return println!(rt; "out of memory");
    };
    print!(rt; "status {}", ran.status)?;
    let mut out = io::writer(rt);
    out.write_all(told)?;
    out.write_all(ran.sink.bytes())?;
    if made.is_err() {
        println!(rt; "\nthe last one failed")?;
    }
    println!(rt; "")
}

/// Runs the daemon at a port of this machine, and a course beside it, and tells what came of both.
pub fn tell_course<
    R: Threads
        + Wait
        + Sync
        + AllocGlobal
        + Print
        + Net<Listener = TcpListener, Stream = TcpStream>
        + Clock,
>(rt: &R, words: &[Text], bytes: &[u8]) -> io::Result<()> {
    let alloc = rt.alloc();
    let Ok(text) = str::from_utf8(bytes) else {
        return println!(rt; "no course");
    };
    let port = free_port(rt)?;
    let words = words_at(alloc, port, words)?;
    let mut door = TcpDoor::new(rt, alloc);
    let mut told = Vec::new(alloc);
    let (ran, made) = join(
        rt,
        || -> Result<Ran, NoMemory> { run_behind(rt, &words, &mut door) },
        || -> io::Result<()> { make_turns(rt, port, text, &mut told) },
    );
    tell(rt, ran, made, &told)
}

/// Runs the daemon at a port that is taken.
pub fn tell_taken<
    R: Threads
        + Wait
        + Sync
        + AllocGlobal
        + Print
        + Net<Listener = TcpListener, Stream = TcpStream>
        + Clock,
>(rt: &R, words: &[Text]) -> io::Result<()> {
    let taken = TcpListener::bind(rt, "127.0.0.1:0")?;
    let words = words_at(rt.alloc(), taken.local_addr()?.port(), words)?;
    let mut door = TcpDoor::new(rt, rt.alloc());
    let ran = run_behind(rt, &words, &mut door);
    drop(taken);
    tell(rt, ran, Ok(()), &[])
}
