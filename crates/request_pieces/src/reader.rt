// A reader of requests that come in pieces.
ghost use Rattle.std.specs.Prelude.{◌≡◌, IfOk, IsSome};

use crate::taking::{Intake, Taken};
use engine_ports::NoMemory;
use http_edge::RequestView;
use httparse::spans::RequestSpans;
use std::alloc::Global;
use std::marker::Model;

/// What a piece told.
#[derive(Clone, Copy, Debug, PartialEq, Eq)]
pub enum Pushed {
    /// A request, whose bytes are those taken before and so many of the piece. The others aren't taken.
    Request(usize),
    /// More is needed. The whole piece was taken.
    More,
    /// The input ended before a byte of a request.
    End,
    /// A request that is refused with a status. It began at this place in the input, from 0.
    Bad { status: u16, at: u64 },
    /// The input ended inside a request.
    CutShort,
}

/// Where the parts of a whole request stand, and how many bytes spell its body.
#[derive(Clone, Copy)]
pub(crate) struct Shown {
    found: RequestSpans,
    coded: usize,
}

/// A reader of the requests of one connection, which come in pieces.
#[derive(Drop)]
pub struct PieceReader {
    intake: Intake,
    shown: Option<Shown>,
    taken: u64,
    stopped: Option<Pushed>,
}

impl Model for PieceReader {
    ghost use Rattle.request_pieces.specs.Begun.{Begun};

    ghost Value = { Begun };

    ghost use Rattle.request_pieces.specs.Reading.{IsSound};

    ghost view = { λ r. record {
      intake = r.intake;
      shown = r.shown;
      taken = r.taken;
      stopped = r.stopped;
    } };

    ghost invariant = { IsSound };
}

impl PieceReader {
    ghost use Rattle.http_edge.specs.Reader.{request_of, count_of};
    ghost use Rattle.request_pieces.specs.Pushing.{IsFresh, PushSays, request_in, count_in};

    /// Takes all memory that reading needs, as http_edge's reader does. It is written only as far as the
    /// requests need it.
    pub fn new(alloc: Global) -> Result<PieceReader, NoMemory>
        ensures { IfOk result IsFresh }
    {
        Ok(PieceReader {
            intake: Intake::new(alloc)?,
            shown: None,
            taken: 0,
            stopped: None,
        })
    }

    /// Takes the next piece of the input, as far as the next request goes, and tells what it came to.
    /// `end` says that no more comes behind it. It takes no memory, and reads no more once the input was
    /// refused or ended inside a request: it then tells the same again.
    pub fn push(&mut self, piece: &[u8], end: bool) -> Pushed
        ensures { PushSays self.old self.new piece.now end result }
    {
        if let Some(told) = self.stopped {
            return told;
        }
        self.shown = None;
        match self.intake.take(piece) {
            Taken::Request { found, count, used } => {
                let coded = count.saturating_sub(found.len);
                self.shown = Some(Shown { found, coded });
                self.taken = self.taken.saturating_add(count as u64);
                Pushed::Request(used)
            }
            Taken::Refused(status) => {
                let told = Pushed::Bad {
                    status,
                    at: self.taken,
                };
                self.stopped = Some(told);
                told
            }
            Taken::Awaits if !end => Pushed::More,
            Taken::Awaits if self.intake.count == 0 => Pushed::End,
            Taken::Awaits => {
                self.stopped = Some(Pushed::CutShort);
                Pushed::CutShort
            }
        }
    }

    /// The request that the last push told.
    pub fn request(&self) -> RequestView<'_>
        requires { IsSome self.now.shown }
        ensures request { request_of result ≡ request_in self.now }
        ensures count { count_of result ≡ count_in self.now }
    {
        match self.shown {
            Some(shown) => RequestView::new(&self.intake.buffers, shown.found, shown.coded),
            None => unreachable!(),
        }
    }
}
