// Bytes of an answer that are on their way out.
ghost use Rattle.std.specs.Prelude.{◌≡◌, drop};
ghost use Rattle.polled_steps.specs.Bytes.{body_bytes, reply_bytes, tail_bytes};

use crate::front::Front;
use engine_text::{Reply, Text};
use exchange_laws::Fixed;

/// The body of an answer, by what owns it.
#[derive(Drop)]
pub enum Body {
    None,
    /// The answer of a call, as it came.
    Reply(Reply),
    Text(Text),
    Fixed(Fixed),
    /// A part of a stream.
    Part(Vec<u8>),
}

impl Body {
    pub fn as_slice(&self) -> &[u8]
        ensures { result.now ≡ body_bytes self.now }
    {
        match self {
            Body::None => b"",
            Body::Reply(reply) => answer_body(reply),
            Body::Text(text) => text.as_slice(),
            Body::Fixed(fixed) => fixed.as_slice(),
            Body::Part(bytes) => bytes.as_slice(),
        }
    }
}

/// The body of a reply that is an answer; of another one none.
pub fn answer_body(reply: &Reply) -> &[u8]
    ensures { result.now ≡ reply_bytes reply.now }
{
    match reply {
        Reply::Answer { body, .. } => body.as_slice(),
        Reply::Begun { .. }
        | Reply::LogStream { .. }
        | Reply::EventStream { .. }
        | Reply::JournalStream { .. }
        | Reply::Fed { .. }
        | Reply::Dropped => b"",
    }
}

/// What stands behind a body.
#[derive(Clone, Copy, Debug, PartialEq, Eq)]
pub enum Tail {
    None,
    /// The end of the body's chunk.
    Line,
    /// The end of the body's one chunk, and the last chunk.
    Chunk,
}

impl Tail {
    pub fn as_slice(self) -> &'static [u8]
        ensures { result.now ≡ tail_bytes self }
    {
        match self {
            Tail::None => b"",
            Tail::Line => b"\r\n",
            Tail::Chunk => b"\r\n0\r\n\r\n",
        }
    }
}

/// What stands before a body, the body and what stands behind it, and how many bytes of each were written.
#[derive(Drop)]
pub struct Outgoing {
    front: Front,
    body: Body,
    tail: Tail,
    front_sent: usize,
    body_sent: usize,
    tail_sent: usize,
}

/// What of a part isn't written.
fn left(part: &[u8], sent: usize) -> &[u8]
    ensures { result.now ≡ drop sent part.now }
{
    if sent < part.len() {
        &part[sent..]
    } else {
        b""
    }
}

impl Outgoing {
    ghost use Rattle.std.specs.Prelude.{◌++◌, ◌≤◌, [], drop, length};
    ghost use Rattle.polled_steps.specs.Bytes.{next_of, rest_of};

    pub fn new(front: Front, body: Body, tail: Tail) -> Outgoing
        ensures { rest_of result ≡ front ++ body_bytes body ++ tail_bytes tail }
    {
        Outgoing {
            front,
            body,
            tail,
            front_sent: 0,
            body_sent: 0,
            tail_sent: 0,
        }
    }

    /// Nothing.
    pub fn none() -> Outgoing
        ensures { rest_of result ≡ [] }
    {
        Outgoing::new(Front::new(), Body::None, Tail::None)
    }

    /// The next bytes; none where all were written.
    pub fn next(&self) -> &[u8]
        ensures { result.now ≡ next_of self.now }
    {
        let front = left(self.front.as_slice(), self.front_sent);
        if !front.is_empty() {
            return front;
        }
        let body = left(self.body.as_slice(), self.body_sent);
        if !body.is_empty() {
            return body;
        }
        left(self.tail.as_slice(), self.tail_sent)
    }

    /// So many of the next bytes were written.
    pub fn advance(&mut self, count: usize)
        requires { count ≤ length (next_of self.old) }
        ensures { rest_of self.new ≡ drop count (rest_of self.old) }
    {
        if self.front_sent < self.front.as_slice().len() {
            self.front_sent += count;
        } else if self.body_sent < self.body.as_slice().len() {
            self.body_sent += count;
        } else if self.tail_sent < self.tail.as_slice().len() {
            self.tail_sent += count;
        }
    }
}
