// A network that was made.
ghost use Rattle.std.specs.Prelude.{◌≡◌, ◌||◌, IfOk};
ghost use Rattle.std.specs.Str.{bytes_eq};
ghost use Rattle.lab_networks.specs.Known.{id_of, is_called};

use crate::known::id_of;
use engine_text::{NoMemory, Text};
use std::alloc::Global;
use std::convert::AsStr;
use std::marker::Model;

/// A network that was made: its name, and its id.
#[derive(Drop)]
pub struct Made {
    name: Text,
    id: Text,
}

impl Model for Made {
    ghost use Rattle.std.specs.Prelude.{◌≡◌, ℕ, List};
    ghost use Rattle.lab_networks.specs.Known.{id_of};

    ghost Value = { List ℕ };

    ghost view = { λ m. m.name };

    ghost invariant = { λ m. m.id ≡ id_of m.name };
}

impl Made {
    /// A network of this name.
    pub(crate) fn new(alloc: Global, name: &str) -> Result<Made, NoMemory>
        ensures { IfOk result (λ m. m ≡ name.now) }
    {
        let id = id_of(alloc, name)?;
        let name = Text::of(alloc, name)?;
        Ok(Made { name, id })
    }

    pub fn name(&self) -> &str
        ensures { result.now ≡ self.now }
    {
        self.name.as_str()
    }

    pub fn id(&self) -> &str
        ensures { result.now ≡ id_of self.now }
    {
        self.id.as_str()
    }

    /// Whether this is its name.
    pub(crate) fn is_named(&self, name: &str) -> bool
        ensures { result ≡ bytes_eq self.now name.now }
    {
        self.name() == name
    }

    /// Whether this is its name or its id.
    pub(crate) fn is_called(&self, text: &str) -> bool
        ensures { result ≡ is_called text.now self.now }
    {
        self.name() == text || self.id() == text
    }
}

impl AsStr for Made {
    ghost text = { λ m. m };

    fn as_str(&self) -> &str {
        self.name()
    }
}
