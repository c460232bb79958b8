// A piece is taken, step by step.
ghost use Rattle.std.specs.Prelude.{◌≡◌, ℕ, List, [], length, IfOk};
ghost use Rattle.request_pieces.specs.Pieces.{view_of, left_of};
ghost use Rattle.request_pieces.specs.Standing.{IsBegun};
ghost use Rattle.request_pieces.specs.Taking.{StepSays, GoesOn, CameSays};

use crate::body::take_body;
use crate::chunks::take_chunks;
use crate::head::take_head;
use crate::source::Piece;
use crate::standing::{Came, Inside, Step};
use engine_ports::NoMemory;
use http_edge::{Ahead, Buffers};
use httparse::spans::RequestSpans;
use std::alloc::Global;

/// Reads on from where the reader stands.
fn take(inside: Inside, piece: &mut Piece<'_>, ahead: &mut Ahead, buffers: &mut Buffers) -> Step
    requires { IsBegun inside buffers.old ahead.old }
    ensures says { StepSays result inside buffers.old ahead.old buffers.new ahead.new
        (view_of piece.old) (view_of piece.new) }
    ensures less { GoesOn result (left_of ahead.old piece.old) (left_of ahead.new piece.new) }
{
    match inside {
        Inside::Head => take_head(piece, ahead, buffers),
        Inside::Body { found, size } => take_body(piece, ahead, buffers, found, size),
        Inside::Chunks { found, at } => take_chunks(piece, ahead, buffers, found, at),
    }
}

/// Reads on to the end of a request, or of the piece.
fn take_all(inside: Inside, piece: &mut Piece<'_>, ahead: &mut Ahead, buffers: &mut Buffers) -> Came
    requires { IsBegun inside buffers.old ahead.old }
    ensures { CameSays result inside buffers.old ahead.old buffers.new ahead.new
        (view_of piece.old) (view_of piece.new) }
{
    let mut at = inside;
    'more: loop {
        match take(at, piece, ahead, buffers) {
            Step::On(next) => at = next,
            Step::Ends(came) => return came,
        }
    }
}

/// What a piece came to.
#[derive(Clone, Copy)]
pub(crate) enum Taken {
    /// A request, with the parts of its head, how many bytes it has, and how many of them stood in the piece.
    Request {
        found: RequestSpans,
        count: usize,
        used: usize,
    },
    Refused(u16),
    /// More is awaited.
    Awaits,
}

/// The bytes that were taken since the last request.
#[derive(Drop)]
pub(crate) struct Intake {
    pub(crate) inside: Inside,
    pub(crate) ahead: Ahead,
    pub(crate) buffers: Buffers,
    /// How many they are. It stands still at the greatest number.
    pub(crate) count: usize,
}

impl Intake {
    ghost use Rattle.request_pieces.specs.Standing.{HasTaken};
    ghost use Rattle.request_pieces.specs.Taking.{TakenSays};
    ghost use Rattle.request_pieces.specs.declared.standing.Inside.TheVariants.{Head};

    pub(crate) fn new(alloc: Global) -> Result<Intake, NoMemory>
        ensures { IfOk result (λ i. HasTaken i []) }
    {
        Ok(Intake {
            inside: Inside::Head,
            ahead: Ahead::new(alloc)?,
            buffers: Buffers::new(alloc)?,
            count: 0,
        })
    }

    /// Takes a piece as far as the next request goes.
    pub(crate) fn take(&mut self, piece: &[u8]) -> Taken
        requires { (bytes : List ℕ) × HasTaken self.old bytes }
        ensures { TakenSays result self.old self.new piece.now }
    {
        let mut rest = Piece::new(piece);
        match take_all(self.inside, &mut rest, &mut self.ahead, &mut self.buffers) {
            Came::Whole(found) => {
                let used = piece.len() - (rest.rest.len() + self.ahead.len());
                let count = self.count.saturating_add(used);
                self.forget();
                Taken::Request { found, count, used }
            }
            Came::Refused(status) => {
                self.forget();
                Taken::Refused(status)
            }
            Came::Awaits(inside) => {
                self.inside = inside;
                self.count = self.count.saturating_add(piece.len());
                Taken::Awaits
            }
        }
    }

    /// Begins anew. What was read of the last request still stands.
    fn forget(&mut self)
        ensures none { HasTaken self.new [] }
        ensures buffers { self.new.buffers ≡ self.old.buffers }
    {
        self.inside = Inside::Head;
        self.ahead.skip(self.ahead.len());
        self.count = 0;
    }
}
