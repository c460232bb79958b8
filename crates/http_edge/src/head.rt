// The head of a response.
ghost use Rattle.std.specs.Prelude.{◌≡◌, ◌≤◌, ◌+◌, ◌++◌, [], length};
ghost use Rattle.engine_ports.specs.Sink.{WriteSays};
ghost use Rattle.http_edge.specs.Response.{phrase_of, connection_line, first_lines, sized_lines, chunked_lines, from_line, form_lines, takeover_head, head_text};

use crate::line::Line;
use engine_ports::{Failed, Sink};
use http::StatusCode;
use itoa::Buffer;

/// What stands behind a head, and how its length is told.
#[derive(Clone, Copy, Debug, PartialEq, Eq)]
pub enum Form {
    /// A JSON text of so many bytes.
    Json(u64),
    /// A plain text of so many bytes.
    Plain(u64),
    /// No body.
    Empty,
    /// Stream frames, by chunks.
    ChunkedFrames,
    /// JSON lines, by chunks, and the number of the first event.
    ChunkedJson { first: Option<u64> },
    /// Plain text, by chunks.
    ChunkedPlain,
    /// The connection itself, as it is or upgraded. The head has a status of its own.
    Takeover { upgrade: bool },
}

/// The head of a response.
#[derive(Clone, Copy, Debug, PartialEq, Eq)]
pub struct Head {
    /// The canonical phrase stands beside it, where there is one.
    pub status: u16,
    pub form: Form,
    /// Whether the connection is closed behind this response.
    pub close: bool,
}

/// Writes the head of a response at once. It takes no memory, and of the stack only while it runs.
#[inline(never)]
pub fn write_head<K: Sink>(sink: &mut K, head: &Head) -> Result<(), Failed>
    ensures { WriteSays result (head_text head.now) (K.takes sink.old) (K.takes sink.new) }
{
    let mut line = Line::new();
    push_head(&mut line, head);
    sink.write(line.as_slice())
}

/// The head's bytes.
pub fn head_line(head: &Head) -> Line
    ensures text { result ≡ head_text head.now }
    ensures short { length result ≤ 512 }
{
    let mut line = Line::new();
    push_head(&mut line, head);
    line
}

/// The head's bytes, in a line that is empty.
pub(crate) fn push_head(line: &mut Line, head: &Head)
    requires { line.old ≡ [] }
    ensures text { line.new ≡ head_text head.now }
    ensures short { length line.new ≤ 512 }
{
    match head.form {
        Form::Takeover { upgrade } => line.push(takeover_head(upgrade)),
        form => {
            push_first(line, head.status, head.close);
            push_form(line, form);
            line.push(b"\r\n");
        }
    }
}

fn takeover_head(upgrade: bool) -> &'static [u8]
    ensures text { result.now ≡ takeover_head upgrade }
    ensures short { length result.now ≤ 256 }
{
    if upgrade {
        b"HTTP/1.1 101 UPGRADED\r\nContent-Type: application/vnd.docker.multiplexed-stream\r\nConnection: Upgrade\r\nUpgrade: tcp\r\n\r\n"
    } else {
        b"HTTP/1.1 200 OK\r\nContent-Type: application/vnd.docker.raw-stream\r\n\r\n"
    }
}

/// The canonical phrase of a status, or none.
pub(crate) fn phrase(status: u16) -> &'static str
    ensures text { result.now ≡ phrase_of status }
    ensures short { length result.now ≤ 64 }
{
    match StatusCode::from_u16(status) {
        Ok(code) => code.canonical_reason().unwrap_or(""),
        Err(_) => "",
    }
}

fn push_first(line: &mut Line, status: u16, close: bool)
    requires { length line.old ≤ 64 }
    ensures text { line.new ≡ line.old ++ first_lines status close }
    ensures short { length line.new ≤ length line.old + 192 }
{
    let mut digits = Buffer::new();
    line.push(b"HTTP/1.1 ");
    line.push(digits.format(status).as_bytes());
    line.push(b" ");
    line.push(phrase(status).as_bytes());
    line.push(b"\r\nApi-Version: 1.43\r\n");
    line.push(connection_line(close));
}

fn connection_line(close: bool) -> &'static [u8]
    ensures text { result.now ≡ connection_line close }
    ensures short { length result.now ≤ 32 }
{
    if close { b"Connection: close\r\n" } else { b"" }
}

fn push_form(line: &mut Line, form: Form)
    requires { length line.old ≤ 192 }
    ensures text { line.new ≡ line.old ++ form_lines form }
    ensures short { length line.new ≤ length line.old + 256 }
{
    match form {
        Form::Json(n) => push_sized(line, n, JSON),
        Form::Plain(n) => push_sized(line, n, PLAIN),
        Form::Empty => line.push(b"Server: engined\r\n"),
        Form::ChunkedFrames => push_chunked(line, FRAMES),
        Form::ChunkedJson { first } => {
            push_chunked(line, JSON);
            push_from(line, first);
        }
        Form::ChunkedPlain => push_chunked(line, PLAIN),
        Form::Takeover { .. } => {}
    }
}

const JSON: &[u8] = b"application/json";

const PLAIN: &[u8] = b"text/plain; charset=utf-8";

const FRAMES: &[u8] = b"application/vnd.docker.multiplexed-stream";

fn push_sized(line: &mut Line, n: u64, kind: &[u8])
    requires line { length line.old ≤ 192 }
    requires kind { length kind.now ≤ 48 }
    ensures text { line.new ≡ line.old ++ sized_lines n kind.now }
    ensures short { length line.new ≤ length line.old + 160 }
{
    let mut digits = Buffer::new();
    line.push(b"Content-Length: ");
    line.push(digits.format(n).as_bytes());
    line.push(b"\r\nContent-Type: ");
    line.push(kind);
    line.push(b"\r\nServer: engined\r\n");
}

fn push_chunked(line: &mut Line, kind: &[u8])
    requires line { length line.old ≤ 192 }
    requires kind { length kind.now ≤ 48 }
    ensures text { line.new ≡ line.old ++ chunked_lines kind.now }
    ensures short { length line.new ≤ length line.old + 128 }
{
    line.push(b"Content-Type: ");
    line.push(kind);
    line.push(b"\r\nServer: engined\r\nTransfer-Encoding: chunked\r\n");
}

fn push_from(line: &mut Line, first: Option<u64>)
    requires { length line.old ≤ 320 }
    ensures text { line.new ≡ line.old ++ from_line first }
    ensures short { length line.new ≤ length line.old + 64 }
{
    if let Some(n) = first {
        let mut digits = Buffer::new();
        line.push(b"X-Engine-From: ");
        line.push(digits.format(n).as_bytes());
        line.push(b"\r\n");
    }
}
