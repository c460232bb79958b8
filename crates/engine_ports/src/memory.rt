// A source and a sink in memory, whose calls fail where they are told to.
ghost use Rattle.std.specs.Prelude.{◌≡◌, ◌<◌, ◌≤◌, ℕ, List, [], Some, Ok, length, IfOk};

mod asked;
mod coming;
mod leading;
mod misses;
mod moments;

use crate::{Failed, Got, Sink, Source};
pub use coming::{Departed, MemDoor};
pub use leading::{Closed, MemLink};
pub use moments::MemClock;
use std::alloc::{AllocError, AllocFailed, Global};
use std::marker::Model;

/// Memory ran out.
#[derive(Clone, Copy, Debug, PartialEq, Eq)]
pub struct NoMemory;

impl From<AllocError> for NoMemory {
    fn from(_: AllocError) -> Self {
        NoMemory
    }
}

impl<T: Drop> From<AllocFailed<T>> for NoMemory {
    fn from(_: AllocFailed<T>) -> Self {
        NoMemory
    }
}

/// A source of given bytes, which it gives in pieces.
#[derive(Drop)]
pub struct MemSource {
    bytes: Vec<u8>,
    at: usize,
    cut: usize,
    failing: Vec<u64>,
    reads: u64,
    faults: u64,
    ends: u64,
}

impl Model for MemSource {
    ghost use Rattle.std.specs.Prelude.{◌<◌, ◌≤◌, drop, vec_len};
    ghost use Rattle.engine_ports.specs.Memory.{Supply};

    ghost Value = { Supply };

    ghost view = { λ s. record {
      left = drop s.at s.bytes.items;
      cut = s.cut;
      failing = s.failing.items;
      reads = s.reads;
      faults = s.faults;
      ends = s.ends;
    } };

    ghost invariant = { λ s. (s.at ≤ vec_len s.bytes) × (0 < s.cut) };
}

impl MemSource {
    /// A source of these bytes, which gives at most `cut` (at least 1) at once, and whose reads
    /// numbered in `failing` (from 0) fail.
    pub fn new(
        alloc: Global,
        bytes: &[u8],
        cut: usize,
        failing: &[u64],
    ) -> Result<MemSource, NoMemory>
        requires { 0 < cut }
        ensures { IfOk result (λ s. s
            ≡ record {
              left = bytes.now;
              cut = cut;
              failing = failing.now;
              reads = 0;
              faults = 0;
              ends = 0;
            }) }
    {
        Ok(MemSource {
            bytes: bytes.to_vec(alloc)?,
            at: 0,
            cut,
            failing: failing.to_vec(alloc)?,
            reads: 0,
            faults: 0,
            ends: 0,
        })
    }
}

impl Source for MemSource {
    ghost use Rattle.std.specs.Prelude.{◌<◌, Some, length};
    ghost use Rattle.engine_ports.specs.Source.{SourceView, ReadSays};
    ghost use Rattle.engine_ports.specs.Memory.{IsRead, source_of};

    ghost gives = { source_of };

    fn read(&mut self, into: &mut [u8]) -> Got
        requires { 0 < length into.old }
        ensures says { ReadSays result into.new (source_of self.old) (source_of self.new) }
        ensures exact { IsRead self.old into.new result self.new }
    {
        let fails = self.failing.contains(&self.reads);
        self.reads = self.reads.saturating_add(1);
        if fails {
            self.faults = self.faults.saturating_add(1);
            return Got::Failed;
        }
        if self.at == self.bytes.len() {
            self.ends = self.ends.saturating_add(1);
            return Got::End;
        }
        let rest = &self.bytes[self.at..];
        let count = rest.len().min(self.cut).min(into.len());
        into[..count].copy_from_slice(&rest[..count]);
        self.at += count;
        Got::Bytes(count)
    }
}

/// A sink that keeps what it takes.
#[derive(Drop)]
pub struct MemSink {
    bytes: Vec<u8>,
    failing: Vec<u64>,
    writes: u64,
    faults: u64,
    short: u64,
}

impl Model for MemSink {
    ghost use Rattle.engine_ports.specs.Memory.{Store};

    ghost Value = { Store };

    ghost view = { λ s. record {
      wrote = s.bytes.items;
      failing = s.failing.items;
      writes = s.writes;
      faults = s.faults;
      short = s.short;
    } };
}

impl MemSink {
    /// A sink whose writes numbered in `failing` (from 0) fail; its peer is gone before such a write.
    /// Any other fails for want of memory alone, and takes nothing then.
    pub fn new(alloc: Global, failing: &[u64]) -> Result<MemSink, NoMemory>
        ensures { IfOk result (λ s. s
            ≡ record { wrote = []; failing = failing.now; writes = 0; faults = 0; short = 0 }) }
    {
        Ok(MemSink {
            bytes: Vec::new(alloc),
            failing: failing.to_vec(alloc)?,
            writes: 0,
            faults: 0,
            short: 0,
        })
    }

    /// All bytes taken.
    pub fn bytes(&self) -> &[u8]
        ensures { result.now ≡ self.now.wrote }
    {
        &self.bytes
    }

    /// How many writes there were.
    pub fn writes(&self) -> u64
        ensures { result ≡ self.now.writes }
    {
        self.writes
    }

    /// How many writes failed for want of memory.
    pub fn short(&self) -> u64
        ensures { result ≡ self.now.short }
    {
        self.short
    }
}

impl Sink for MemSink {
    ghost use Rattle.std.specs.Prelude.{◌≡◌, Some, Ok};
    ghost use Rattle.engine_ports.specs.Sink.{SinkView, WriteSays, ProbeSays, FinishSays};
    ghost use Rattle.engine_ports.specs.Memory.{IsWrite, IsProbe, sink_of};

    ghost takes = { sink_of };

    fn write(&mut self, piece: &[u8]) -> Result<(), Failed>
        ensures says { WriteSays result piece.now (sink_of self.old) (sink_of self.new) }
        ensures exact { IsWrite self.old piece.now result self.new }
    {
        let fails = self.failing.contains(&self.writes);
        self.writes = self.writes.saturating_add(1);
        if fails {
            self.faults = self.faults.saturating_add(1);
            return Err(Failed);
        }
        if self.bytes.extend_from_slice(piece).is_err() {
            self.short = self.short.saturating_add(1);
            self.faults = self.faults.saturating_add(1);
            return Err(Failed);
        }
        Ok(())
    }

    fn probe(&mut self) -> Result<(), Failed>
        ensures says { ProbeSays result (sink_of self.old) (sink_of self.new) }
        ensures exact { IsProbe self.old result self.new }
    {
        if self.failing.contains(&self.writes) {
            self.faults = self.faults.saturating_add(1);
            return Err(Failed);
        }
        Ok(())
    }

    fn finish(&mut self) -> Result<(), Failed>
        ensures ok { result ≡ Ok tt }
        ensures same { self.new ≡ self.old }
    {
        Ok(())
    }
}
