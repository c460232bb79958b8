// Bytes that stand before a body, gathered in their session.
ghost use Rattle.std.specs.Prelude.{◌≡◌, ◌≤◌, ◌+◌, ◌++◌, [], length};
ghost use Rattle.polled_steps.specs.Room.{front_room};

use std::marker::Model;

/// The most bytes that are gathered.
const ROOM: usize = 1_024;

/// Bytes that stand before a body, at most 1,024.
#[derive(Drop)]
pub struct Front {
    bytes: [u8; ROOM],
    len: usize,
}

impl Model for Front {
    ghost use Rattle.std.specs.Prelude.{◌≤◌, ℕ, List, take};
    ghost use Rattle.polled_steps.specs.Room.{front_room};

    ghost Value = { List ℕ };

    ghost view = { λ f. take f.len f.bytes };

    ghost invariant = { λ f. f.len ≤ front_room };
}

impl Front {
    pub fn new() -> Front
        ensures { result ≡ [] }
    {
        Front {
            bytes: [0; ROOM],
            len: 0,
        }
    }

    pub fn push(&mut self, piece: &[u8])
        requires { length self.old + length piece.now ≤ front_room }
        ensures { self.new ≡ self.old ++ piece.now }
    {
        self.bytes[self.len..self.len + piece.len()].copy_from_slice(piece);
        self.len += piece.len();
    }

    /// The bytes that are gathered.
    pub(crate) fn as_slice(&self) -> &[u8]
        ensures value { result.now ≡ self.now }
        ensures short { length self.now ≤ front_room }
    {
        &self.bytes[..self.len]
    }
}
