// A link in memory, whose connections were put there.
ghost use Rattle.std.specs.Prelude.{◌≡◌, ◌+◌, ◌≤◌, ◌++◌, ◌∷◌, [], length, Some, vec_len, vec_capacity, IfOk, OnOk, OnErr};
ghost use Rattle.engine_ports.specs.Link.{IsNewWire};

use super::asked::Asked;
use super::misses::Misses;
use super::{MemSink, MemSource, NoMemory};
use crate::{Failed, Link};
use std::alloc::Global;
use std::collections::VecDeque;

/// A connection that hasn't been made yet.
#[derive(Drop)]
pub struct Ready {
    source: MemSource,
    sink: MemSink,
    ghost reads: { source.faults ≡ 0 },
    ghost ends: { source.ends ≡ 0 },
    ghost writes: { sink.faults ≡ 0 },
    ghost fresh: { length sink.wrote ≡ 0 },
}

/// The two parts of a connection that ended.
#[derive(Drop)]
pub struct Closed {
    pub from: MemSource,
    pub into: MemSink,
}

/// A link whose calls of `connect` fail where they are told to, and where there is no memory for the address.
#[derive(Drop)]
pub struct MemLink {
    coming: VecDeque<Ready>,
    past: Vec<Closed>,
    asked: Asked,
    owed: usize,
    misses: Misses,
    ghost room: { length coming.items + owed + vec_len past ≤ vec_capacity past },
}

impl MemLink {
    ghost use Rattle.engine_ports.specs.Links.{memory_wire, ready_of, closed_of};
    ghost use Rattle.engine_ports.specs.Memory.{addresses_in};

    /// A link that leads nowhere yet, and whose calls numbered in `failing` (from 0) fail.
    pub fn new(alloc: Global, failing: &[u64]) -> Result<MemLink, NoMemory>
        ensures { IfOk result (λ l. ⟦<MemLink as Link>⟧.links l
            ≡ record {
              coming = Some [];
              past = Some [];
              addresses = Some [];
              owed = 0;
              faults = 0;
            }) }
    {
        Ok(MemLink {
            coming: VecDeque::new(alloc),
            past: Vec::new(alloc),
            asked: Asked::new(alloc),
            owed: 0,
            misses: Misses::new(alloc, failing)?,
        })
    }

    /// Lets a connection be made, with room for what will be left of it.
    pub fn put(&mut self, source: MemSource, sink: MemSink) -> Result<(), NoMemory>
        requires { IsNewWire (memory_wire source sink) }
        ensures ok { OnOk result (⟦<MemLink as Link>⟧.links self.new
            ≡ record (⟦<MemLink as Link>⟧.links self.old) {
              coming = Some (ready_of self.old.coming.items ++ memory_wire source sink ∷ []);
            }) }
        ensures err { OnErr result (⟦<MemLink as Link>⟧.links self.new
            ≡ ⟦<MemLink as Link>⟧.links self.old) }
    {
        self.coming.reserve(1)?;
        self.past.reserve(self.coming.len() + self.owed + 1)?;
        self.coming.push_back_reserved(Ready { source, sink });
        Ok(())
    }

    /// The connections that ended, in the order in which they were left.
    pub fn past(&self) -> &[Closed]
        ensures { (⟦<MemLink as Link>⟧.links self.now).past ≡ Some (closed_of result.now) }
    {
        &self.past
    }

    /// The addresses that were asked for, in that order, but for one for which there was no memory.
    pub fn asked(&self) -> &[String]
        ensures { (⟦<MemLink as Link>⟧.links self.now).addresses ≡ Some (addresses_in result.now) }
    {
        self.asked.addresses()
    }
}

impl Link for MemLink {
    ghost use Rattle.std.specs.Prelude.{Some};
    ghost use Rattle.engine_ports.specs.Links.{ready_of, closed_of};

    type From = MemSource;

    type Into = MemSink;

    ghost links = { λ l. record {
      coming = Some (ready_of l.coming.items);
      past = Some (closed_of l.past.items);
      addresses = Some l.asked;
      owed = l.owed;
      faults = l.misses.faults;
    } };

    fn connect(&mut self, addr: &str) -> Result<(MemSource, MemSink), Failed> {
        if self.asked.add(addr).is_err() {
            self.misses.fail();
            return Err(Failed);
        }
        if self.misses.fails() {
            return Err(Failed);
        }
        match self.coming.pop_front() {
            Some(Ready { source, sink }) => {
                self.owed += 1;
                Ok((source, sink))
            }
            None => {
                self.misses.count();
                Err(Failed)
            }
        }
    }

    fn leave(&mut self, from: MemSource, into: MemSink) {
        self.owed -= 1;
        self.past.push_reserved(Closed { from, into });
    }
}
