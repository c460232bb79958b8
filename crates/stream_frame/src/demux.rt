// The demultiplexer (Docker Engine API v1.43, ContainerAttach, "Stream format").
ghost use Rattle.std.specs.Prelude.{◌≡◌, ◌<◌, ◌≤◌, [], length, take};
ghost use Rattle.std.specs.Prelude.{ℕ, List};
ghost use Rattle.engine_text.specs.declared.script.Stream.{Stream};
ghost use Rattle.stream_frame.specs.Demuxing.{Header, Payload, Adds, ended_of};
ghost use Rattle.stream_frame.specs.Steps.{rest_of, stream_of, header_byte, by_byte, by_payload, payload_rest, held_after, items_of, IsSoundNext, IsNextOf, PayloadHas};
ghost use Rattle.stream_frame.specs.Walks.{items_left};

use crate::fault::{Ended, FrameFault};
use crate::pieces::{Pieces, part_of, past_headers};
use engine_text::Stream;
use std::marker::Model;

/// What comes next on the stream.
#[derive(Clone, Copy, PartialEq, Eq, Debug, Drop)]
pub enum Next {
    /// A header, of which so many bytes have come.
    Header(u8),
    /// So many bytes of a payload, at least one.
    Payload(Stream, u32),
    /// Nothing that could be told apart.
    Faulted(FrameFault),
}

/// Takes a stream in pieces, and hands its payloads on as slices of them. It takes no memory.
#[derive(Drop)]
pub struct Demux {
    header: [u8; 8],
    next: Next,
    at: u64,
}

impl Model for Demux {
    ghost use Rattle.std.specs.Prelude.{◌<◌};
    ghost use Rattle.stream_frame.specs.Demuxing.{Held};
    ghost use Rattle.stream_frame.specs.Steps.{rest_of, IsSoundNext};

    ghost Value = { Held };

    ghost view = { λ d. record { rest = rest_of d.header d.next; at = d.at } };

    ghost invariant = { λ d. IsSoundNext d.next };
}

/// The stream of a number, which is at most 2 in a header.
fn stream_of(number: u8) -> Stream
    ensures { result ≡ stream_of number }
{
    match number {
        0 => Stream::Stdin,
        1 => Stream::Stdout,
        _ => Stream::Stderr,
    }
}

/// What comes next behind one byte more of a header, of which `have` bytes have come.
fn header_byte(header: &mut [u8; 8], have: u8, byte: u8, at: u64) -> Next
    requires { have < 8 }
    ensures sound { IsSoundNext result }
    ensures rest { rest_of header.new result ≡ header_byte (take have header.old) byte at }
{
    match have {
        0 if byte > 2 => return Next::Faulted(FrameFault::BadType { at }),
        1..=3 if byte != 0 => return Next::Faulted(FrameFault::BadPad { at }),
        _ => {}
    }
    header[usize::from(have)] = byte;
    if have < 7 {
        return Next::Header(have + 1);
    }
    let [kind, _, _, _, a, b, c, d] = *header;
    match u32::from_be_bytes([a, b, c, d]) {
        0 => Next::Header(0),
        size => Next::Payload(stream_of(kind), size),
    }
}

/// What comes next behind so many bytes of a payload.
fn behind_payload(kind: Stream, missing: u32, count: usize) -> Next
    requires { (count ≤ missing) × (0 < missing) }
    ensures sound { IsSoundNext result }
    ensures rest { (header : List ℕ) → rest_of header result ≡ payload_rest kind missing count }
{
    match missing - count as u32 {
        0 => Next::Header(0),
        left => Next::Payload(kind, left),
    }
}

impl Demux {
    /// Before the first byte of a stream.
    pub fn new() -> Demux
        ensures { result ≡ record { rest = Header []; at = 0 } }
    {
        Demux {
            header: [0; 8],
            next: Next::Header(0),
            at: 0,
        }
    }

    /// The items of the next piece of the stream: slices of the piece, none empty, and a fault as
    /// the last. It goes past the whole piece, or to the fault, whether or not the items are
    /// taken. A fault is told by each piece from then on, and nothing else.
    pub fn push<'p>(&mut self, piece: &'p [u8]) -> Pieces<'p>
        ensures adds { Adds self.old piece.now (items_left result) self.new }
        ensures items { items_left result ≡ items_of self.old piece.now }
        ensures after { self.new ≡ held_after self.old piece.now }
    {
        let before = Demux { ..*self };
        self.pass(piece);
        Pieces {
            demux: before,
            piece,
            told: false,
        }
    }

    /// Goes past a piece, or to its fault.
    fn pass(&mut self, piece: &[u8])
        ensures { self.new ≡ held_after self.old piece.now }
    {
        let mut rest = past_headers(self, piece);
        while let Next::Payload(_, missing) = self.next() {
            if rest.is_empty() {
                return;
            }
            let (part, others) = part_of(rest, missing);
            self.take_part(part.len());
            rest = past_headers(self, others);
        }
    }

    /// How the stream ends, if no more of it comes.
    pub fn end(&self) -> Ended
        ensures { result ≡ ended_of self.now.rest }
    {
        match self.next {
            Next::Header(0) => Ended::Whole,
            Next::Header(have) => Ended::CutHeader(have),
            Next::Payload(_, missing) => Ended::CutPayload(missing),
            Next::Faulted(fault) => Ended::Faulted(fault),
        }
    }

    /// What comes next.
    pub(crate) fn next(&self) -> Next
        ensures { IsNextOf result self.now.rest }
    {
        self.next
    }

    /// So many bytes more of the payload.
    pub(crate) fn take_part(&mut self, count: usize)
        requires { PayloadHas self.old.rest count }
        ensures { (kind : Stream) (missing : ℕ) → self.old.rest ≡ Payload kind missing
            → self.new ≡ by_payload kind missing count self.old.at }
    {
        if let Next::Payload(kind, missing) = self.next {
            self.next = behind_payload(kind, missing, count);
            self.at = self.at.saturating_add(count as u64);
        }
    }

    /// One byte more.
    pub(crate) fn take_byte(&mut self, byte: u8)
        ensures { self.new ≡ by_byte self.old.rest byte self.old.at }
    {
        match self.next {
            Next::Header(have) => {
                self.next = header_byte(&mut self.header, have, byte, self.at);
                self.at = self.at.saturating_add(1);
            }
            Next::Payload(kind, missing) => {
                self.next = behind_payload(kind, missing, 1);
                self.at = self.at.saturating_add(1);
            }
            Next::Faulted(_) => {}
        }
    }
}
