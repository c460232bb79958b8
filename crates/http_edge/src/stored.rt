// The buffers that a request is read into.
ghost use Rattle.std.specs.Prelude.{◌≡◌, ◌≤◌, ◌+◌, ◌++◌, length, take, drop, map, IfOk};
ghost use Rattle.std.specs.Vec.{vec_capacity};
ghost use Rattle.httparse.specs.Spans.{IsRequestWithin, header_bytes};
ghost use Rattle.http_edge.specs.Limits.{head_limit, body_limit};
ghost use Rattle.http_edge.specs.Framing.{IsWithinLimit, framing_of};
ghost use Rattle.http_edge.specs.Reading.{Fills, HeadFacts};
ghost use Rattle.http_edge.specs.Bodies.{BodySays};
ghost use Rattle.http_edge.specs.Stored.{HoldsNothing};

use crate::ahead::Ahead;
use crate::body::{BodyRead, read_body};
use crate::framing::{Framing, frame_head};
use crate::front::{HeadRead, read_head};
use crate::limits::{BODY_LIMIT, FIELD_LIMIT, FIELD_PLACES, HEAD_LIMIT};
use engine_ports::{NoMemory, Source};
use httparse::spans::{EMPTY_HEADER_SPAN, HeaderSpan, RequestSpans};
use std::alloc::Global;
use std::marker::Model;

/// What reading a request fills: its head, where its fields stand, and its body.
#[derive(Drop)]
pub struct Buffers {
    head: Vec<u8>,
    spans: Vec<HeaderSpan>,
    body: Vec<u8>,
}

impl Model for Buffers {
    ghost use Rattle.http_edge.specs.Rooms.{HaveRoom};
    ghost use Rattle.http_edge.specs.Stored.{Stored};

    ghost Value = { Stored };

    ghost view = { λ b. record {
      head = b.head.items;
      spans = b.spans.items;
      body = b.body.items;
    } };

    ghost invariant = { HaveRoom };
}

impl Buffers {
    /// Takes room for the greatest head, the most fields and the greatest body. Only what a request
    /// needs is written, so most of an idle reader's room stays untouched.
    pub fn new(alloc: Global) -> Result<Buffers, NoMemory>
        ensures { IfOk result HoldsNothing }
    {
        let mut spans = Vec::with_capacity(alloc, FIELD_PLACES)?;
        spans.resize(FIELD_LIMIT, EMPTY_HEADER_SPAN)?;
        Ok(Buffers {
            head: Vec::with_capacity(alloc, HEAD_LIMIT)?,
            spans,
            body: Vec::with_capacity(alloc, BODY_LIMIT)?,
        })
    }

    /// Drops what the last request wrote, and keeps the room.
    pub fn clear(&mut self)
        ensures { HoldsNothing self.new }
    {
        self.head.clear();
        self.spans.truncate(FIELD_LIMIT);
        self.body.clear();
    }

    /// Reads until the bytes ahead begin with a head, and stores where its fields stand. The bytes stay
    /// ahead.
    pub fn read_head<S: Source>(&mut self, source: &mut S, ahead: &mut Ahead) -> HeadRead
        ensures within { length ahead.new ≤ head_limit }
        ensures fills { Fills ahead.old ahead.new (S.gives source.old) (S.gives source.new) }
        ensures facts { HeadFacts result ahead.new self.new.spans
            (S.gives source.old) (S.gives source.new) }
        ensures head { self.new.head ≡ self.old.head }
        ensures body { self.new.body ≡ self.old.body }
    {
        read_head(source, ahead, &mut self.spans)
    }

    /// Takes the head that the bytes ahead begin with, keeps it in the place of the last one, and
    /// answers how the body behind it is framed.
    pub fn take_head(&mut self, ahead: &mut Ahead, found: RequestSpans) -> Framing
        requires small { length ahead.old ≤ head_limit }
        requires within { IsRequestWithin ahead.old self.old.spans found }
        ensures framing { result ≡ framing_of found.version
            (map (header_bytes ahead.old) (take found.headers self.old.spans)) }
        ensures fits { IsWithinLimit result }
        ensures ahead { ahead.new ≡ drop found.len ahead.old }
        ensures head { self.new.head ≡ take found.len ahead.old }
        ensures spans { self.new.spans ≡ self.old.spans }
        ensures body { self.new.body ≡ self.old.body }
    {
        let bytes = ahead.as_slice();
        let framing = frame_head(bytes, found.version, &self.spans[..found.headers]);
        keep_head(&bytes[..found.len], &mut self.head);
        ahead.skip(found.len);
        framing
    }

    /// Reads the body that is framed so.
    pub(crate) fn read_body<S: Source>(
        &mut self,
        source: &mut S,
        ahead: &mut Ahead,
        framing: Framing,
    ) -> BodyRead
        requires fits { IsWithinLimit framing }
        ensures says { BodySays framing result ahead.old ahead.new self.new.body
            (S.gives source.old) (S.gives source.new) }
        ensures head { self.new.head ≡ self.old.head }
        ensures spans { self.new.spans ≡ self.old.spans }
    {
        read_body(source, ahead, &mut self.body, framing)
    }

    /// Adds bytes to the body, which has room for so many. It takes no memory.
    pub fn push_body(&mut self, bytes: &[u8])
        requires { length self.old.body + length bytes.now ≤ body_limit }
        ensures { self.new ≡ record {
          head = self.old.head;
          spans = self.old.spans;
          body = self.old.body ++ bytes.now;
        } }
    {
        let Ok(()) = self.body.extend_from_slice(bytes) else {
            unreachable!()
        };
    }

    /// The first bytes of the head.
    pub(crate) fn head(&self, len: usize) -> &[u8]
        requires { len ≤ length self.now.head }
        ensures { result.now ≡ take len self.now.head }
    {
        &self.head[..len]
    }

    /// The places of the first fields.
    pub(crate) fn spans(&self, count: usize) -> &[HeaderSpan]
        requires { count ≤ length self.now.spans }
        ensures { result.now ≡ take count self.now.spans }
    {
        &self.spans[..count]
    }

    /// The body, as far as it was read.
    pub fn body(&self) -> &[u8]
        ensures { result.now ≡ self.now.body }
    {
        &self.body
    }
}

/// Keeps the head in the place of the last one.
fn keep_head(bytes: &[u8], head: &mut Vec<u8>)
    requires small { length bytes.now ≤ head_limit }
    requires room { head_limit ≤ vec_capacity head.old }
    ensures room { head_limit ≤ vec_capacity head.new }
    ensures kept { head.new.items ≡ bytes.now }
{
    head.clear();
    let Ok(()) = head.extend_from_slice(bytes) else {
        unreachable!()
    };
}
