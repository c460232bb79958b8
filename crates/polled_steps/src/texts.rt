// What stands before a body: heads, whole refusals, and lines of chunks.
ghost use Rattle.std.specs.Prelude.{◌≡◌, ◌<◌, ◌≤◌, ◌+◌, ◌++◌, [], length, codes};
ghost use Rattle.http_edge.specs.Chunks.{hex_digit, hex_text};
ghost use Rattle.http_edge.specs.Response.{head_text, phrase_of, refusal_body, refusal_bytes};
ghost use Rattle.polled_steps.specs.Room.{front_room};

use crate::front::Front;
use http::StatusCode;
use http_edge::{Form, Head, head_line};

/// The head's bytes.
pub fn head_front(head: &Head) -> Front
    ensures text { result ≡ head_text head.now }
    ensures short { length result ≤ 512 }
{
    let line = head_line(head);
    let mut front = Front::new();
    front.push(line.as_slice());
    front
}

/// The canonical phrase of a status, or none.
fn phrase(status: u16) -> &'static str
    ensures text { result.now ≡ phrase_of status }
    ensures short { length result.now ≤ 64 }
{
    match StatusCode::from_u16(status) {
        Ok(code) => code.canonical_reason().unwrap_or(""),
        Err(_) => "",
    }
}

/// How many bytes the body of a refusal has.
fn refusal_size(status: u16) -> u64
    ensures { result ≡ length (refusal_body status) }
{
    phrase(status).len() as u64 + 14
}

fn push_body(front: &mut Front, status: u16)
    requires { length front.old ≤ 512 }
    ensures { front.new ≡ front.old ++ refusal_body status }
{
    front.push(b"{\"message\":\"");
    front.push(phrase(status).as_bytes());
    front.push(b"\"}");
}

/// The whole response to a request that is refused.
pub fn refusal_front(status: u16) -> Front
    ensures { result ≡ refusal_bytes status }
{
    let head = Head {
        status,
        form: Form::Json(refusal_size(status)),
        close: true,
    };
    let mut front = head_front(&head);
    push_body(&mut front, status);
    front
}

/// The line before a chunk of so many bytes.
pub fn chunk_front(size: u64) -> Front
    ensures { result ≡ hex_text size ++ codes "\r\n" }
{
    let mut front = Front::new();
    push_hex(&mut front, size);
    front.push(b"\r\n");
    front
}

/// The last chunk.
pub fn last_front() -> Front
    ensures { result ≡ codes "0\r\n\r\n" }
{
    let mut front = Front::new();
    front.push(b"0\r\n\r\n");
    front
}

fn push_hex(front: &mut Front, n: u64)
    requires { length front.old + length (hex_text n) ≤ front_room }
    ensures { front.new ≡ front.old ++ hex_text n }
{
    if n > 0 {
        push_hex(front, n / 16);
        front.push(&[hex_digit((n % 16) as u8)]);
    }
}

fn hex_digit(digit: u8) -> u8
    requires { digit < 16 }
    ensures { result ≡ hex_digit digit }
{
    if digit < 10 {
        b'0' + digit
    } else {
        b'a' - 10 + digit
    }
}
