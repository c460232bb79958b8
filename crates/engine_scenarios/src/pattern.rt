// Bytes that tell their place, so that none can be lost or doubled unseen.
use std::alloc::{AllocError, Global};
use std::io::{self, ErrorKind, Read, Write};
use std::net::{Shutdown, TcpStream};

/// The bytes count up to this, and begin again.
const ROUND: u8 = 251;

/// How often they do so in a block.
const ROUNDS: u32 = 131;

/// The most bytes that a frame has.
const PLACE: usize = 32_768;

/// A block of bytes.
pub fn block_of(alloc: Global) -> Result<Vec<u8>, AllocError> {
    let mut block = Vec::new(alloc);
    for _ in 0..ROUNDS {
        for byte in 0..ROUND {
            block.push(byte)?;
        }
    }
    Ok(block)
}

/// How many bytes so many blocks are.
pub fn size_of(blocks: u32) -> u64 {
    u64::from(blocks)
        .saturating_mul(u64::from(ROUNDS))
        .saturating_mul(u64::from(ROUND))
}

/// Sends the block so many times, and then the end.
pub fn send_blocks(mut stream: &TcpStream, block: &[u8], count: u32) -> io::Result<()> {
    for _ in 0..count {
        stream.write_all(block)?;
    }
    stream.shutdown(Shutdown::Write)
}

/// The size of the next frame of stdout, or none at the end.
fn next_size(mut stream: &TcpStream) -> io::Result<Option<usize>> {
    let mut head = [0; 8];
    if stream.read(&mut head[..1])? == 0 {
        return Ok(None);
    }
    stream.read_exact(&mut head[1..])?;
    if &head[..4] != [1, 0, 0, 0].as_slice() {
        return Err(ErrorKind::InvalidData.into());
    }
    let size = u32::from_be_bytes([head[4], head[5], head[6], head[7]]);
    Ok(Some(size as usize))
}

/// How many of these bytes stand at their places, behind so many.
fn fitting(bytes: &[u8], before: u64) -> u64 {
    let mut count = 0u64;
    for byte in bytes {
        let place = before.saturating_add(count);
        if u64::from(*byte) != place % u64::from(ROUND) {
            return count;
        }
        count = count.saturating_add(1);
    }
    count
}

/// How many bytes come in frames of stdout, each at its place, up to the end.
pub fn count_of(mut stream: &TcpStream) -> io::Result<u64> {
    let mut place = [0; PLACE];
    let mut count = 0u64;
    for _ in 0..u64::MAX {
        let Some(size) = next_size(stream)? else {
            return Ok(count);
        };
        let size = size.min(PLACE);
        stream.read_exact(&mut place[..size])?;
        let fits = fitting(&place[..size], count);
        if fits != size as u64 {
            return Err(ErrorKind::InvalidData.into());
        }
        count = count.saturating_add(fits);
    }
    Ok(count)
}
