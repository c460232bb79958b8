// Bytes as a source.
ghost use Rattle.std.specs.Prelude.{◌≡◌};

use engine_ports::{Got, Source};
use std::marker::Model;

/// Bytes that are given as they are asked for. No read of them fails.
#[derive(Drop)]
pub struct Given {
    bytes: Vec<u8>,
    at: usize,
    ends: u64,
}

impl Model for Given {
    ghost use Rattle.std.specs.Prelude.{◌≤◌, drop, vec_len};
    ghost use Rattle.drill_model.specs.Source.{Supply};

    ghost Value = { Supply };

    ghost view = { λ s. record { left = drop s.at s.bytes.items; ends = s.ends } };

    ghost invariant = { λ s. s.at ≤ vec_len s.bytes };
}

impl Given {
    /// A source of these bytes.
    pub fn new(bytes: Vec<u8>) -> Given
        ensures { result ≡ record { left = bytes.items; ends = 0 } }
    {
        Given {
            bytes,
            at: 0,
            ends: 0,
        }
    }
}

impl Source for Given {
    ghost use Rattle.drill_model.specs.Source.{full_source};

    ghost gives = { λ s. full_source s.left s.ends };

    fn read(&mut self, into: &mut [u8]) -> Got {
        if self.at == self.bytes.len() {
            self.ends = self.ends.saturating_add(1);
            return Got::End;
        }
        let rest = &self.bytes[self.at..];
        let count = rest.len().min(into.len());
        into[..count].copy_from_slice(&rest[..count]);
        self.at += count;
        Got::Bytes(count)
    }
}
