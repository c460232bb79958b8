// The pieces of input that wait, and places for pieces that come.
ghost use Rattle.std.specs.Prelude.{◌≡◌, ◌<◌, ◌+◌, ◌-◌, ◌^◌, [], ◌∷◌, ◌++◌, length, sum_by, option_copied, MatchOption};
ghost use Rattle.proc_kernel.specs.Processes.{first_of, has_item, most_input};
ghost use Rattle.proc_kernel.specs.InputInside.{told_size};

use engine_text::{Bytes, NoMemory};
use std::alloc::Global;
use std::collections::LinkedList;
use std::marker::Model;

/// How many bytes of input wait at most.
const MOST_INPUT: u64 = 1_048_576;

/// Pieces of input, the first that came in front, seen as their list. Their bytes are counted beside
/// them.
#[derive(Drop)]
pub struct Input {
    pieces: LinkedList<Bytes>,
    size: u64,
}

impl Model for Input {
    ghost use Rattle.std.specs.Prelude.{ℕ, List};

    ghost Value = { List (List ℕ) };

    ghost use Rattle.proc_kernel.specs.InputInside.{pieces_inside, IsSized};

    ghost view = { pieces_inside };

    ghost invariant = { IsSized };
}

/// A place for one piece, seen as the number of pieces that it is for.
#[derive(Drop)]
pub struct Place {
    node: LinkedList<Bytes>,
}

impl Model for Place {
    ghost use Rattle.std.specs.Prelude.{ℕ};

    ghost Value = { ℕ };

    ghost use Rattle.proc_kernel.specs.InputInside.{places_inside, IsOnePlace};

    ghost view = { places_inside };

    ghost invariant = { IsOnePlace };
}

/// How many bytes these pieces have, up to the type's end.
fn size_of(pieces: &LinkedList<Bytes>) -> u64
    ensures { result ≡ told_size pieces.now }
{
    let mut size: u64 = 0;
    for piece in pieces.iter() {
        size = size.saturating_add(piece.len() as u64);
    }
    size
}

impl Place {
    /// A place.
    pub fn of(alloc: Global) -> Result<Place, NoMemory> {
        let mut node = LinkedList::new(alloc);
        if node.push_back(Bytes::from_vec(Vec::new(alloc))).is_err() {
            return Err(NoMemory);
        }
        Ok(Place { node })
    }

    /// The piece in this place.
    fn filled(self, piece: Bytes) -> LinkedList<Bytes>
        ensures { result ≡ piece ∷ [] }
    {
        let Place { mut node } = self;
        if let Some(at) = node.front_mut() {
            *at = piece;
        }
        node
    }
}

impl Input {
    /// No piece; it takes no memory.
    pub fn new(alloc: Global) -> Input
        ensures { result ≡ [] }
    {
        Input {
            pieces: LinkedList::new(alloc),
            size: 0,
        }
    }

    /// Whether a piece waits.
    pub fn has_piece(&self) -> bool
        ensures { result ≡ has_item self.now }
    {
        !self.pieces.is_empty()
    }

    /// The piece that came first.
    pub fn front(&self) -> Option<&Bytes>
        ensures { option_copied result ≡ first_of self.now }
    {
        self.pieces.front()
    }

    /// A piece comes, into that place; it takes no memory.
    pub fn push(&mut self, place: Place, piece: Bytes)
        requires { length self.old + 1 < 2 ^ 63 }
        ensures { self.new ≡ self.old ++ piece ∷ [] }
    {
        self.size = self.size.saturating_add(piece.len() as u64);
        let mut more = place.filled(piece);
        let _ = self.pieces.append(&mut more);
    }

    /// The piece that came first goes.
    pub fn pop(&mut self) -> Option<Bytes>
        ensures { MatchOption result ((self.old ≡ []) × (self.new ≡ []))
            (λ piece. self.old ≡ piece ∷ self.new) }
    {
        let piece = self.pieces.pop_front()?;
        if self.size < u64::MAX {
            self.size -= piece.len() as u64;
        } else {
            self.size = size_of(&self.pieces);
        }
        Some(piece)
    }

    /// How many bytes more may wait.
    pub fn room(&self) -> u64
        ensures { result ≡ most_input - sum_by length self.now }
    {
        MOST_INPUT.saturating_sub(self.size)
    }
}
