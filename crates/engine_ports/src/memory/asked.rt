// Addresses that were asked for.
ghost use Rattle.std.specs.Prelude.{◌≡◌, ◌++◌, ◌∷◌, [], ℕ, List, OnOk, OnErr};
ghost use Rattle.engine_ports.specs.Memory.{addresses_in};

use super::NoMemory;
use std::alloc::Global;
use std::marker::Model;

/// The addresses that a link was asked for, in that order.
#[derive(Drop)]
pub struct Asked {
    addresses: Vec<String>,
}

impl Model for Asked {
    ghost Value = { List (List ℕ) };

    ghost view = { λ a. addresses_in a.addresses.items };
}

impl Asked {
    /// None yet; it takes no memory.
    pub fn new(alloc: Global) -> Asked
        ensures { result ≡ [] }
    {
        Asked {
            addresses: Vec::new(alloc),
        }
    }

    /// Adds an address behind the others.
    pub fn add(&mut self, addr: &str) -> Result<(), NoMemory>
        ensures ok { OnOk result (self.new ≡ self.old ++ addr.now ∷ []) }
        ensures err { OnErr result (self.new ≡ self.old) }
    {
        let addr = String::from_str(*self.addresses.allocator(), addr)?;
        self.addresses.reserve(1)?;
        self.addresses.push_reserved(addr);
        Ok(())
    }

    /// All of them.
    pub fn addresses(&self) -> &[String]
        ensures { addresses_in result.now ≡ self.now }
    {
        &self.addresses
    }
}
