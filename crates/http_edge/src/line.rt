// Bytes that are gathered on the stack, to be written at once.
ghost use Rattle.std.specs.Prelude.{◌≡◌, ◌≤◌, ◌+◌, ◌++◌, [], length};
ghost use Rattle.http_edge.specs.Room.{line_room};

use std::marker::Model;

/// The most bytes that are gathered.
pub(crate) const LINE_ROOM: usize = 4_096;

/// Bytes that are gathered on the stack, at most 4,096, to be written at once.
#[derive(Drop)]
pub struct Line {
    bytes: [u8; LINE_ROOM],
    len: usize,
}

impl Model for Line {
    ghost use Rattle.std.specs.Prelude.{◌≤◌, ℕ, List, take};
    ghost use Rattle.http_edge.specs.Room.{line_room};

    ghost Value = { List ℕ };

    ghost view = { λ l. take l.len l.bytes };

    ghost invariant = { λ l. l.len ≤ line_room };
}

impl Line {
    pub(crate) fn new() -> Line
        ensures { result ≡ [] }
    {
        Line {
            bytes: [0; LINE_ROOM],
            len: 0,
        }
    }

    /// How many bytes are gathered.
    pub fn len(&self) -> usize
        ensures { result ≡ length self.now }
    {
        self.len
    }

    pub(crate) fn push(&mut self, piece: &[u8])
        requires { length self.old + length piece.now ≤ line_room }
        ensures { self.new ≡ self.old ++ piece.now }
    {
        self.bytes[self.len..self.len + piece.len()].copy_from_slice(piece);
        self.len += piece.len();
    }

    /// The bytes that are gathered.
    pub fn as_slice(&self) -> &[u8]
        ensures { result.now ≡ self.now }
    {
        &self.bytes[..self.len]
    }
}
