// A response with its body.
ghost use Rattle.std.specs.Prelude.{◌≡◌, ◌≤◌, ◌++◌, [], length};
ghost use Rattle.engine_ports.specs.Sink.{WriteSays};
ghost use Rattle.http_edge.specs.Response.{head_text, refusal_body, refusal_bytes};

use crate::head::{Form, Head, phrase, push_head};
use crate::line::{LINE_ROOM, Line};
use engine_ports::{Failed, Sink};

/// Writes a head and its body: at once where they have at most 4,096 bytes, and else one after the
/// other. It takes no memory, and of the stack only while it runs.
#[inline(never)]
pub fn write_answer<K: Sink>(sink: &mut K, head: &Head, body: &[u8]) -> Result<(), Failed>
    ensures { WriteSays result (head_text head.now ++ body.now)
        (K.takes sink.old) (K.takes sink.new) }
{
    let mut line = Line::new();
    push_head(&mut line, head);
    if body.len() <= LINE_ROOM - line.len() {
        line.push(body);
        return sink.write(line.as_slice());
    }
    write_both(sink, line.as_slice(), body)
}

/// Writes two pieces, one after the other.
pub(crate) fn write_both<K: Sink>(sink: &mut K, first: &[u8], second: &[u8]) -> Result<(), Failed>
    ensures { WriteSays result (first.now ++ second.now) (K.takes sink.old) (K.takes sink.new) }
{
    sink.write(first)?;
    sink.write(second)
}

/// Writes the response to a request that is refused with this status: the connection is closed
/// behind it. It takes no memory, and of the stack only while it runs.
#[inline(never)]
pub fn write_refusal<K: Sink>(sink: &mut K, status: u16) -> Result<(), Failed>
    ensures { WriteSays result (refusal_bytes status) (K.takes sink.old) (K.takes sink.new) }
{
    let mut line = Line::new();
    push_refusal(&mut line, status);
    sink.write(line.as_slice())
}

/// The response's bytes, in a line that is empty.
fn push_refusal(line: &mut Line, status: u16)
    requires { line.old ≡ [] }
    ensures { line.new ≡ refusal_bytes status }
{
    let head = Head {
        status,
        form: Form::Json(refusal_size(status)),
        close: true,
    };
    push_head(line, &head);
    push_body(line, status);
}

/// How many bytes the body has.
fn refusal_size(status: u16) -> u64
    ensures { result ≡ length (refusal_body status) }
{
    phrase(status).len() as u64 + 14
}

fn push_body(line: &mut Line, status: u16)
    requires { length line.old ≤ 512 }
    ensures { line.new ≡ line.old ++ refusal_body status }
{
    line.push(b"{\"message\":\"");
    line.push(phrase(status).as_bytes());
    line.push(b"\"}");
}
