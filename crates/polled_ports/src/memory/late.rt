// Polls of which those with given numbers find nothing ready.
ghost use Rattle.std.specs.Prelude.{◌≡◌, IfOk};

use engine_ports::NoMemory;
use std::alloc::Global;
use std::marker::Model;

/// The numbers of the polls that find nothing ready, how many polls there were, and how many of those.
#[derive(Drop)]
pub struct Late {
    numbers: Vec<u64>,
    polls: u64,
    waits: u64,
}

impl Model for Late {
    ghost use Rattle.polled_ports.specs.Memory.{Polls};

    ghost Value = { Polls };

    ghost view = { λ l. record { late = l.numbers.items; polls = l.polls; registered = l.waits } };
}

impl Late {
    ghost use Rattle.polled_ports.specs.Memory.{IsPoll};

    pub fn new(alloc: Global, numbers: &[u64]) -> Result<Late, NoMemory>
        ensures { IfOk result
            (λ l. l ≡ record { late = numbers.now; polls = 0; registered = 0 }) }
    {
        Ok(Late {
            numbers: numbers.to_vec(alloc)?,
            polls: 0,
            waits: 0,
        })
    }

    /// Whether the next poll finds nothing ready, which it counts.
    pub fn meets(&mut self) -> bool
        ensures { IsPoll self.old result self.new }
    {
        let is_late = self.numbers.contains(&self.polls);
        self.polls = self.polls.saturating_add(1);
        if is_late {
            self.waits = self.waits.saturating_add(1);
        }
        is_late
    }
}
