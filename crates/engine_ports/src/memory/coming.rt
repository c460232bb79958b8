// A door in memory, through which come connections that were put there.
ghost use Rattle.std.specs.Prelude.{◌≡◌, All, ◌+◌, ◌≤◌, ◌++◌, ◌∷◌, [], length, Some, vec_len, vec_capacity, None, IfOk, OnOk, OnErr};
ghost use Rattle.engine_ports.specs.Door.{IsNew};

use super::misses::Misses;
use super::{MemSink, MemSource, NoMemory};
use crate::bound::Bound;
use crate::{Arrival, Clock, Door, Failed, Parts};
use std::alloc::Global;
use std::collections::VecDeque;

/// A connection that hasn't come yet.
#[derive(Drop)]
pub struct Waiting<T> {
    source: MemSource,
    sink: MemSink,
    clock: T,
    ghost reads: { source.faults ≡ 0 },
    ghost ends: { source.ends ≡ 0 },
    ghost writes: { sink.faults ≡ 0 },
    ghost fresh: { length sink.wrote ≡ 0 },
}

/// A connection that ended.
#[derive(Drop)]
pub struct Departed<T> {
    pub number: u32,
    pub parts: Parts<MemSource, MemSink, T>,
}

/// A door whose calls of `bind` and `accept` fail where they are told to.
#[derive(Drop)]
pub struct MemDoor<T: Clock + Drop> {
    coming: VecDeque<Waiting<T>>,
    past: Vec<Departed<T>>,
    owed: usize,
    misses: Misses,
    bound: Bound,
    ghost unstopped: { All (λ w. (T.times w.clock).stops ≡ 0) coming.items },
    ghost room: { length coming.items + owed + vec_len past ≤ vec_capacity past },
}

impl<T: Clock + Drop> MemDoor<T> {
    ghost use Rattle.engine_ports.specs.Comings.{memory_outside, waiting_of, ended_of};

    /// A door to which nobody comes yet, and whose calls numbered in `failing` (from 0) fail.
    pub fn new(alloc: Global, failing: &[u64]) -> Result<MemDoor<T>, NoMemory>
        ensures { IfOk result (λ d. ⟦<MemDoor<T> as Door>⟧.opens d
            ≡ record { coming = Some []; past = Some []; owed = 0; faults = 0; bound = None }) }
    {
        Ok(MemDoor {
            coming: VecDeque::new(alloc),
            past: Vec::new(alloc),
            owed: 0,
            misses: Misses::new(alloc, failing)?,
            bound: Bound::new(alloc),
        })
    }

    /// Lets a connection come, with room for what will be left of it.
    pub fn put(&mut self, source: MemSource, sink: MemSink, clock: T) -> Result<(), NoMemory>
        requires { IsNew (memory_outside T.times source sink clock) }
        ensures ok { OnOk result (⟦<MemDoor<T> as Door>⟧.opens self.new
            ≡ record (⟦<MemDoor<T> as Door>⟧.opens self.old) {
              coming = Some (waiting_of T.times self.old.coming.items
                  ++ memory_outside T.times source sink clock ∷ []);
            }) }
        ensures err { OnErr result (⟦<MemDoor<T> as Door>⟧.opens self.new
            ≡ ⟦<MemDoor<T> as Door>⟧.opens self.old) }
    {
        self.coming.reserve(1)?;
        self.past.reserve(self.coming.len() + self.owed + 1)?;
        self.coming.push_back_reserved(Waiting {
            source,
            sink,
            clock,
        });
        Ok(())
    }

    /// The connections that ended, in the order in which they were left.
    pub fn past(&self) -> &[Departed<T>]
        ensures { (⟦<MemDoor<T> as Door>⟧.opens self.now).past
            ≡ Some (ended_of T.times result.now) }
    {
        &self.past
    }
}

impl<T: Clock + Drop> Door for MemDoor<T> {
    ghost use Rattle.std.specs.Prelude.{Some};
    ghost use Rattle.engine_ports.specs.Comings.{waiting_of, ended_of};

    type From = MemSource;

    type Into = MemSink;

    type Time = T;

    type Past = Parts<MemSource, MemSink, T>;

    ghost opens = { λ d. record {
      coming = Some (waiting_of T.times d.coming.items);
      past = Some (ended_of T.times d.past.items);
      owed = d.owed;
      faults = d.misses.faults;
      bound = d.bound;
    } };

    fn bind(&mut self, addr: &str) -> Result<(), Failed> {
        if self.misses.fails() {
            return Err(Failed);
        }
        match self.bound.keep(addr) {
            Ok(()) => Ok(()),
            Err(_) => {
                self.misses.count();
                Err(Failed)
            }
        }
    }

    fn accept(&mut self) -> Arrival<MemSource, MemSink, T> {
        if self.misses.fails() {
            return Arrival::Failed;
        }
        match self.coming.pop_front() {
            Some(
                Waiting {
                    source,
                    sink,
                    clock,
                },
            ) => {
                self.owed += 1;
                Arrival::Conn(source, sink, clock)
            }
            None => Arrival::Shut,
        }
    }

    fn leave(&mut self, number: u32, past: Parts<MemSource, MemSink, T>) {
        self.owed -= 1;
        self.past.push_reserved(Departed {
            number,
            parts: past,
        });
    }
}
