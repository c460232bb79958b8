// What stands in the item of a name.
ghost use Rattle.std.specs.Prelude.{◌≡◌, ◌≤◌, ◌+◌, ◌++◌, [], length, IfOk};
ghost use Rattle.lab_shown.specs.Listed as spec;

use engine_ports::NoMemory;
use std::alloc::Global;
use std::marker::Model;

/// The most bytes of a text.
const ROOM: usize = 256;

/// What stands in the item of a name, in memory of its own.
#[derive(Drop)]
pub struct Text {
    bytes: Vec<u8>,
}

impl Model for Text {
    ghost use Rattle.std.specs.Prelude.{◌≤◌, ℕ, List};
    ghost use Rattle.std.specs.Vec.{vec_capacity};

    ghost Value = { List ℕ };

    ghost view = { λ t. t.bytes.items };

    ghost invariant = { λ t. 256 ≤ vec_capacity t.bytes };
}

impl Text {
    /// Takes its memory.
    pub fn new(alloc: Global) -> Result<Text, NoMemory>
        ensures { IfOk result (λ t. t ≡ []) }
    {
        Ok(Text {
            bytes: Vec::with_capacity(alloc, ROOM)?,
        })
    }

    /// The text.
    pub fn as_slice(&self) -> &[u8]
        ensures { result.now ≡ self.now }
    {
        &self.bytes
    }

    /// Makes it the one of a name. It takes no memory.
    pub fn put(&mut self, name: &[u8])
        requires { length name.now ≤ 200 }
        ensures { self.new ≡ spec.text_of name.now }
    {
        self.bytes.clear();
        self.push(b"\"Names\":[\"/");
        self.push(name);
        self.push(b"\"]");
    }

    /// Adds bytes, for which there is room.
    fn push(&mut self, more: &[u8])
        requires { length self.old + length more.now ≤ 256 }
        ensures { self.new ≡ self.old ++ more.now }
    {
        let Ok(()) = self.bytes.extend_from_slice(more) else {
            unreachable!()
        };
    }
}
