// Calls that fail where they are told to.
ghost use Rattle.std.specs.Prelude.{◌≡◌, ◌≤◌, IfOk, IsTrue};

use super::NoMemory;
use std::alloc::Global;
use std::marker::Model;

/// Calls, of which those numbered in a list (from 0) fail.
#[derive(Drop)]
pub struct Misses {
    failing: Vec<u64>,
    calls: u64,
    faults: u64,
}

impl Model for Misses {
    ghost use Rattle.engine_ports.specs.Memory.{Misses as Missing};

    ghost Value = { Missing };

    ghost view = { λ s. record {
      failing = s.failing.items;
      calls = s.calls;
      faults = s.faults;
    } };
}

impl Misses {
    ghost use Rattle.engine_ports.specs.Memory.{IsCall};
    ghost use Rattle.engine_ports.specs.Rose.{Rose, raised};

    pub fn new(alloc: Global, failing: &[u64]) -> Result<Misses, NoMemory>
        ensures { IfOk result (λ s. s ≡ record { failing = failing.now; calls = 0; faults = 0 }) }
    {
        Ok(Misses {
            failing: failing.to_vec(alloc)?,
            calls: 0,
            faults: 0,
        })
    }

    /// Whether the next call fails.
    pub fn fails(&mut self) -> bool
        ensures call { IsCall self.old result self.new }
        ensures rose { IsTrue result → Rose self.old.faults self.new.faults }
        ensures faults { self.old.faults ≤ self.new.faults }
    {
        let fails = self.failing.contains(&self.calls);
        self.calls = self.calls.saturating_add(1);
        if fails {
            self.count();
        }
        fails
    }

    /// Counts a call that fails, whatever its number is.
    pub fn fail(&mut self)
        ensures { self.new ≡ record self.old {
          calls = raised self.old.calls;
          faults = raised self.old.faults;
        } }
    {
        self.calls = self.calls.saturating_add(1);
        self.faults = self.faults.saturating_add(1);
    }

    /// Counts a fault more.
    pub fn count(&mut self)
        ensures one { self.new ≡ record self.old { faults = raised self.old.faults } }
        ensures rose { Rose self.old.faults self.new.faults }
        ensures more { self.old.faults ≤ self.new.faults }
    {
        self.faults = self.faults.saturating_add(1);
    }
}
