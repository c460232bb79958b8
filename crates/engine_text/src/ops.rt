// The ops of a script (own: none takes more than a week, and there are 2,048 at most).
ghost use Rattle.std.specs.Prelude.{◌≡◌, ◌≤◌, ◌<◌, [], ◌∷◌, ◌++◌, length, All, OnOk, OnErr};
ghost use Rattle.engine_text.specs.Scripts.{IsShort, AreOps, most_ops};

use super::NoMemory;
use super::script::Op;
use std::alloc::Global;
use std::marker::Model;

/// Ops, seen as their list.
#[derive(Drop)]
pub struct Ops {
    items: Vec<Op>,
}

impl Model for Ops {
    ghost use Rattle.std.specs.Prelude.{List};
    ghost use Rattle.engine_text.specs.declared.script.Op.{Op as AnOp};
    ghost use Rattle.engine_text.specs.Scripts.{AreOps};

    ghost Value = { List AnOp };

    ghost view = { λ o. o.items.items };

    ghost invariant = { λ o. AreOps o.items.items };
}

impl Ops {
    /// No ops; it takes no memory.
    pub fn new(alloc: Global) -> Ops
        ensures { result ≡ [] }
    {
        Ops {
            items: Vec::new(alloc),
        }
    }

    /// The ops of a vector; it takes no memory.
    pub fn from_vec(items: Vec<Op>) -> Ops
        requires { AreOps items.items }
        ensures { result ≡ items.items }
    {
        Ops { items }
    }

    /// The ops as a vector; it takes no memory.
    pub fn into_vec(self) -> Vec<Op>
        ensures { result.items ≡ self }
    {
        let Ops { items } = self;
        items
    }

    /// Adds an op at the end.
    pub fn push(&mut self, _alloc: Global, op: Op) -> Result<(), NoMemory>
        requires short { IsShort op }
        requires few { length self.old < most_ops }
        ensures ok { OnOk result (self.new ≡ self.old ++ op ∷ []) }
        ensures err { OnErr result (self.new ≡ self.old) }
    {
        match self.items.push(op) {
            Ok(()) => Ok(()),
            Err(_) => Err(NoMemory),
        }
    }

    /// The ops, lent.
    pub fn as_slice(&self) -> &[Op]
        ensures ops { result.now ≡ self.now }
        ensures short { All IsShort result.now }
        ensures few { length result.now ≤ most_ops }
    {
        self.items.as_slice()
    }

    /// How many they are.
    pub fn len(&self) -> usize
        ensures len { result ≡ length self.now }
        ensures few { result ≤ most_ops }
    {
        self.items.len()
    }
}
