// A body by chunks.
ghost use Rattle.std.specs.Prelude.{◌≡◌, ◌<◌, ◌≤◌, ◌+◌, ◌++◌, ℕ, [], length, codes};
ghost use Rattle.engine_ports.specs.Sink.{WriteSays};
ghost use Rattle.http_edge.specs.Room.{line_room};
ghost use Rattle.http_edge.specs.Chunks.{hex_digit, hex_text, chunk_text, last_chunk};

use crate::answer::write_both;
use crate::line::{LINE_ROOM, Line};
use engine_ports::{Failed, Sink};

/// Writes a piece, which isn't empty, as a chunk: at once where it is short. It takes no memory, and
/// of the stack only while it runs.
#[inline(never)]
pub fn write_chunk<K: Sink>(sink: &mut K, piece: &[u8]) -> Result<(), Failed>
    requires { 0 < length piece.now }
    ensures { WriteSays result (chunk_text piece.now) (K.takes sink.old) (K.takes sink.new) }
{
    let mut line = Line::new();
    push_size(&mut line, piece.len() as u64);
    if piece.len() <= LINE_ROOM - 32 {
        line.push(piece);
        line.push(b"\r\n");
        return sink.write(line.as_slice());
    }
    write_both(sink, line.as_slice(), piece)?;
    sink.write(b"\r\n")
}

/// Writes the chunk that ends a body.
pub fn write_last<K: Sink>(sink: &mut K) -> Result<(), Failed>
    ensures { WriteSays result last_chunk (K.takes sink.old) (K.takes sink.new) }
{
    sink.write(b"0\r\n\r\n")
}

/// The line before a chunk of so many bytes, in a line that is empty.
fn push_size(line: &mut Line, size: u64)
    requires { line.old ≡ [] }
    ensures text { line.new ≡ hex_text size ++ codes "\r\n" }
    ensures short { length line.new ≤ 18 }
{
    push_hex(line, size);
    line.push(b"\r\n");
}

fn push_hex(line: &mut Line, n: u64)
    requires { length line.old + length (hex_text n) ≤ line_room }
    ensures { line.new ≡ line.old ++ hex_text n }
{
    if n > 0 {
        push_hex(line, n / 16);
        line.push(&[hex_digit((n % 16) as u8)]);
    }
}

fn hex_digit(digit: u8) -> u8
    requires { digit < 16 }
    ensures { result ≡ hex_digit digit }
{
    if digit < 10 {
        b'0' + digit
    } else {
        b'a' - 10 + digit
    }
}
