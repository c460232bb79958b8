// A piece of the input, as a source that ends where the piece ends.
use engine_ports::{Got, Source};

/// What is left of a piece, and how often its end was met.
#[derive(Drop)]
pub(crate) struct Piece<'p> {
    pub(crate) rest: &'p [u8],
    pub(crate) ends: u64,
}

impl<'p> Piece<'p> {
    ghost use Rattle.std.specs.Prelude.{◌≡◌, take, drop};

    pub(crate) fn new(bytes: &'p [u8]) -> Piece<'p>
        ensures rest { result.rest.now ≡ bytes.now }
        ensures ends { result.ends ≡ 0 }
    {
        Piece {
            rest: bytes,
            ends: 0,
        }
    }

    /// Takes so many bytes, or all that are left.
    pub(crate) fn take(&mut self, most: usize) -> &'p [u8]
        ensures taken { result.now ≡ take most self.old.rest.now }
        ensures rest { self.new.rest.now ≡ drop most self.old.rest.now }
        ensures ends { self.new.ends ≡ self.old.ends }
    {
        let (front, rest) = self.rest.split_at(most.min(self.rest.len()));
        self.rest = rest;
        front
    }
}

impl Source for Piece<'_> {
    ghost use Rattle.std.specs.Prelude.{◌<◌, length};
    ghost use Rattle.engine_ports.specs.Source.{SourceView, ReadSays};
    ghost use Rattle.request_pieces.specs.Pieces.{view_of};

    ghost gives = { view_of };

    fn read(&mut self, into: &mut [u8]) -> Got {
        if self.rest.is_empty() {
            self.ends = self.ends.saturating_add(1);
            return Got::End;
        }
        let front = self.take(into.len());
        into[..front.len()].copy_from_slice(front);
        Got::Bytes(front.len())
    }
}
