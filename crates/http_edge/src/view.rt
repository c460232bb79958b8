// A request, as it stands in the reader's buffers.
ghost use Rattle.std.specs.Prelude.{◌≡◌, ◌≤◌, ◌+◌, length, take, IsUtf8};
ghost use Rattle.http_edge.specs.Shown.{IsShown};

use crate::asks::{Want, has_field};
use crate::shown_fields::Fields;
use crate::stored::Buffers;
use httparse::spans::{HeaderSpan, RequestSpans};
use std::str;

/// A request, as it stands in the reader's buffers.
#[derive(Clone, Copy)]
pub struct RequestView<'r> {
    pub(crate) buffers: &'r Buffers,
    pub(crate) found: RequestSpans,
    pub(crate) coded: usize,
    ghost len_fits: { found.len ≤ length buffers.now.head },
    ghost shown: { ∥ IsShown (take found.len buffers.now.head) buffers.now.spans found
        ∥₁ },
}

impl<'r> RequestView<'r> {
    ghost use Rattle.std.specs.Prelude.{◌≡◌, map};
    ghost use Rattle.http_edge.specs.Asks.{is_head, closes, asks_upgrade, starts_on_head, asks_early};
    ghost use Rattle.http_edge.specs.Outcome.{request_at};
    ghost use Rattle.http_edge.specs.Reader.{request_of, count_of};

    /// The request that stands in the buffers: its head at these places, and its body, which so many bytes spell.
    pub fn new(buffers: &'r Buffers, found: RequestSpans, coded: usize) -> RequestView<'r>
        requires fits { found.len ≤ length buffers.now.head }
        requires shown { ∥ IsShown (take found.len buffers.now.head) buffers.now.spans found ∥₁ }
        ensures request { request_of result
            ≡ request_at (take found.len buffers.now.head) buffers.now.spans found
            buffers.now.body }
        ensures count { count_of result ≡ found.len + coded }
    {
        RequestView {
            buffers,
            found,
            coded,
        }
    }

    /// The method, as GET.
    pub fn method(&self) -> &'r str
        ensures { result.now ≡ (request_of self.now).method }
    {
        text(self.found.method.of(self.head()))
    }

    /// The target: the path and the query, as they were sent.
    pub fn target(&self) -> &'r str
        ensures { result.now ≡ (request_of self.now).target }
    {
        text(self.found.path.of(self.head()))
    }

    /// The fields, in order.
    pub fn fields(&self) -> Fields<'r>
        ensures { result ≡ (request_of self.now).fields }
    {
        Fields::new(self.head(), self.spans())
    }

    /// The body.
    pub fn body(&self) -> &'r [u8]
        ensures { result.now ≡ (request_of self.now).body }
    {
        self.buffers.body()
    }

    /// Whether the method is HEAD.
    pub fn is_head(&self) -> bool
        ensures { result ≡ is_head (request_of self.now) }
    {
        self.method() == "HEAD"
    }

    /// Whether the request asks to close the connection.
    pub fn closes(&self) -> bool
        ensures { result ≡ closes (request_of self.now) }
    {
        has_field(
            self.head(),
            self.spans(),
            b"connection",
            Want::Token,
            b"close",
        )
    }

    /// Whether the request asks to upgrade the connection.
    pub fn asks_upgrade(&self) -> bool
        ensures { result ≡ asks_upgrade (request_of self.now) }
    {
        let (head, spans) = (self.head(), self.spans());
        has_field(head, spans, b"upgrade", Want::Value, b"tcp")
            && has_field(head, spans, b"connection", Want::Token, b"upgrade")
    }

    /// Whether the request asks for the head of a wait's answer before the wait is over.
    pub fn asks_early(&self) -> bool
        ensures { result ≡ asks_early (request_of self.now) }
    {
        let (head, spans) = (self.head(), self.spans());
        if has_field(head, spans, b"x-engine-early", Want::Value, b"no") {
            return false;
        }
        has_field(head, spans, b"x-engine-early", Want::Value, b"wait") || self.starts_on_head()
    }

    /// Whether its client starts a container only once it has the head of its wait.
    fn starts_on_head(&self) -> bool
        ensures { result ≡ starts_on_head (request_of self.now) }
    {
        let (head, spans) = (self.head(), self.spans());
        has_field(head, spans, b"user-agent", Want::Front, b"Docker-Client/")
            || has_field(head, spans, b"user-agent", Want::Front, b"Go-http-client/")
    }

    fn head(&self) -> &'r [u8]
        ensures { result.now ≡ take self.now.found.len self.now.buffers.now.head }
    {
        self.buffers.head(self.found.len)
    }

    fn spans(&self) -> &'r [HeaderSpan]
        ensures { result.now ≡ take self.now.found.headers self.now.buffers.now.spans }
    {
        self.buffers.spans(self.found.headers)
    }
}

/// Bytes that are text.
fn text(bytes: &[u8]) -> &str
    requires { IsUtf8 bytes.now }
    ensures { result.now ≡ bytes.now }
{
    match str::from_utf8(bytes) {
        Ok(text) => text,
        Err(_) => unreachable!(),
    }
}
