// What a peer of the daemon does on its connection, and what comes back.
use crate::pattern::{count_of, send_blocks, size_of};
use std::alloc::{AllocError, Global};
use std::io::{self, ErrorKind, Read, Write};
use std::net::{Net, TcpListener, TcpStream};
use std::thread::{self, Threads, join};
use std::time::{Clock, Duration};

/// How often a connection is tried, ten milliseconds apart.
const TRIES: u32 = 1_000;

/// How many bytes are read at once.
const PLACE: usize = 4096;

/// A port at which nobody listens.
pub fn free_port<R: Net<Listener = TcpListener, Stream = TcpStream>>(rt: &R) -> io::Result<u16> {
    let free = TcpListener::bind(rt, "127.0.0.1:0")?;
    Ok(free.local_addr()?.port())
}

/// A connection to this port, as soon as somebody listens there.
pub fn connect<R: Net<Stream = TcpStream> + Clock>(rt: &R, port: u16) -> io::Result<TcpStream> {
    for _ in 0..TRIES {
        if let Ok(stream) = TcpStream::connect(rt, ("127.0.0.1", port)) {
            return Ok(stream);
        }
        thread::sleep(rt, Duration::from_millis(10));
    }
    Err(ErrorKind::TimedOut.into())
}

/// Sends a text.
pub fn send(mut stream: &TcpStream, text: &str) -> io::Result<()> {
    stream.write_all(text.as_bytes())
}

/// Takes just so many bytes, and tells them.
pub fn take(
    alloc: Global,
    mut stream: &TcpStream,
    count: u32,
    told: &mut Vec<u8>,
) -> io::Result<()> {
    let mut place = vec![in alloc; 0u8; count as usize]?;
    stream.read_exact(&mut place)?;
    told.extend_from_slice(&place)?;
    Ok(())
}

/// Takes all bytes up to the end, and tells them.
pub fn take_rest(mut stream: &TcpStream, told: &mut Vec<u8>) -> io::Result<()> {
    let mut place = [0; PLACE];
    for _ in 0..u64::MAX {
        let count = stream.read(&mut place)?;
        if count == 0 {
            break;
        }
        told.extend_from_slice(&place[..count])?;
    }
    Ok(())
}

// Tells how much came in frames.
fn tell_count(alloc: Global, came: u64, sent: u64, told: &mut Vec<u8>) -> Result<(), AllocError> {
    let text = format!(in alloc; "{came} of {sent} bytes, each at its place\n")?;
    told.extend_from_slice(text.as_bytes())?;
    Ok(())
}

/// Takes frames up to the end, whose bytes have to be those of so many blocks, and tells how many came.
pub fn take_blocks(
    alloc: Global,
    stream: &TcpStream,
    count: u32,
    told: &mut Vec<u8>,
) -> io::Result<()> {
    let came = count_of(stream)?;
    Ok(tell_count(alloc, came, size_of(count), told)?)
}

/// Sends so many blocks and takes the frames that come back beside that, and tells how many bytes they were.
pub fn flood<R: Threads>(
    rt: &R,
    alloc: Global,
    stream: &TcpStream,
    block: &[u8],
    count: u32,
    told: &mut Vec<u8>,
) -> io::Result<()> {
    let sends = stream.try_clone()?;
    let (sent, came) = join(
        rt,
        || -> io::Result<()> { send_blocks(&sends, block, count) },
        || -> io::Result<u64> { count_of(stream) },
    );
    sent?;
    Ok(tell_count(alloc, came?, size_of(count), told)?)
}
