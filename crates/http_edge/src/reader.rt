// A reader of requests with buffers of its own.
ghost use Rattle.std.specs.Prelude.{◌≡◌, ◌<◌, List, ℕ, [], None, length, IfOk};
ghost use Rattle.std.specs.Borrow.{sem};

use crate::ahead::Ahead;
use crate::request::{Outcome, read_request};
use crate::stored::Buffers;
use crate::view::RequestView;
use engine_ports::{Got, NoMemory, Source};
use std::alloc::Global;
use std::marker::Model;

/// Why a reader reads no more.
#[derive(Clone, Copy, Debug, PartialEq, Eq)]
pub enum Stopped {
    Bad { status: u16, at: u64 },
    CutShort,
    ReadFault,
}

/// What comes next on a connection.
#[derive(Clone, Copy)]
pub enum Next<'r> {
    /// A request. It stands in the reader's buffers until the next call.
    Request(RequestView<'r>),
    /// The input ended before a byte of a request.
    End,
    /// A request that is refused with a status. It began at this place in the input, from 0.
    Bad { status: u16, at: u64 },
    /// The input ended inside a request.
    CutShort,
    /// A read failed.
    ReadFault,
}

/// A reader of the requests of one connection.
#[derive(Drop)]
pub struct RequestReader {
    ahead: Ahead,
    buffers: Buffers,
    taken: u64,
    stopped: Option<Stopped>,
}

impl Model for RequestReader {
    ghost use Rattle.http_edge.specs.Held.{Reading};

    ghost Value = { Reading };

    ghost view = { λ r. record { ahead = r.ahead; taken = r.taken; stopped = r.stopped } };
}

impl RequestReader {
    ghost use Rattle.http_edge.specs.Lending.{RestsAfter};
    ghost use Rattle.http_edge.specs.Reader.{RestSays};

    /// Takes all memory that reading needs: room for 16,384 bytes that are read ahead, for a head of as
    /// many, for 5,462 field places and for a body of 1,048,576 bytes. It is written only as far as the
    /// requests need it.
    pub fn new(alloc: Global) -> Result<RequestReader, NoMemory>
        ensures { IfOk result (λ r. r ≡ record { ahead = []; taken = 0; stopped = None }) }
    {
        Ok(RequestReader {
            ahead: Ahead::new(alloc)?,
            buffers: Buffers::new(alloc)?,
            taken: 0,
            stopped: None,
        })
    }

    /// Reads the next request. It takes no memory, and reads no more once the input was refused, ended
    /// inside a request, or failed. A head that comes in pieces is parsed again after each piece.
    pub fn next<S: Source>(&mut self, source: &mut S) -> Next<'_>
        ensures* says { sem 𝓛
            (RestsAfter self.entry result (S.gives source.old) (S.gives source.new)) }
    {
        match self.stopped {
            Some(Stopped::Bad { status, at }) => return Next::Bad { status, at },
            Some(Stopped::CutShort) => return Next::CutShort,
            Some(Stopped::ReadFault) => return Next::ReadFault,
            None => {}
        }
        self.buffers.clear();
        match read_request(source, &mut self.ahead, &mut self.buffers) {
            Outcome::Whole(found, coded) => {
                self.taken = self
                    .taken
                    .saturating_add(found.len as u64)
                    .saturating_add(coded as u64);
                Next::Request(RequestView {
                    buffers: &self.buffers,
                    found,
                    coded,
                })
            }
            Outcome::End => Next::End,
            Outcome::Bad(status) => {
                let at = self.taken;
                self.stopped = Some(Stopped::Bad { status, at });
                Next::Bad { status, at }
            }
            Outcome::CutShort => {
                self.stopped = Some(Stopped::CutShort);
                Next::CutShort
            }
            Outcome::Failed => {
                self.stopped = Some(Stopped::ReadFault);
                Next::ReadFault
            }
        }
    }

    /// Reads on behind a request that takes the connection over, into a place that isn't empty:
    /// first what was read ahead, and then from the source. It takes no memory.
    pub fn take_rest<S: Source>(&mut self, source: &mut S, into: &mut [u8]) -> Got
        requires { 0 < length into.old }
        ensures { RestSays result into.new self.old self.new
            (S.gives source.old) (S.gives source.new) }
    {
        if self.ahead.len() == 0 {
            return source.read(into);
        }
        Got::Bytes(self.ahead.take(into))
    }
}
