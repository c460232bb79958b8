// The address that a door is bound to.
ghost use Rattle.std.specs.Prelude.{◌≡◌, Some, None, OnOk, OnErr};

use crate::NoMemory;
use std::alloc::Global;
use std::marker::Model;

/// The address of the last `bind` that succeeded, where there was one.
#[derive(Drop)]
pub struct Bound {
    alloc: Global,
    addr: Option<Vec<u8>>,
}

impl Model for Bound {
    ghost use Rattle.std.specs.Prelude.{ℕ, List, Option};
    ghost use Rattle.std.specs.Option.{option_map};

    ghost Value = { Option (List ℕ) };

    ghost view = { λ b. option_map (λ v. v.items) b.addr };
}

impl Bound {
    pub fn new(alloc: Global) -> Bound
        ensures { result ≡ None }
    {
        Bound { alloc, addr: None }
    }

    /// Keeps an address in the place of the one before.
    pub fn keep(&mut self, addr: &str) -> Result<(), NoMemory>
        ensures ok { OnOk result (self.new ≡ Some addr.now) }
        ensures err { OnErr result (self.new ≡ self.old) }
    {
        let addr = addr.as_bytes().to_vec(self.alloc)?;
        self.addr = Some(addr);
        Ok(())
    }
}
