// Where connections come from.
ghost use Rattle.std.specs.Prelude.{◌≡◌, ◌<◌};
ghost use Rattle.engine_ports.specs.Door.{Outside, outside, DoorView, BindSays, AcceptSays, LeaveSays};

use crate::bound::Bound;
use crate::{Clock, Failed, MemSink, MemSource, Sink, Source, StepClock};
use std::alloc::Global;

/// What an accept gave.
#[derive(Drop)]
pub enum Arrival<S, K, C> {
    /// A connection: its source, its sink and its clock.
    Conn(S, K, C),
    /// No more connections come.
    Shut,
    Failed,
}

/// What is left of a connection.
pub trait Parting<F: Source, I: Sink, T: Clock>: Send + Drop {
    ghost tells: { Self → Outside };

    /// Ends a connection. It takes no memory.
    fn part(from: F, into: I, time: T) -> Self
        ensures { tells result ≡ outside (F.gives from) (I.takes into) (T.times time) };
}

/// Where connections come from.
pub trait Door {
    type From: Source + Send + Drop;

    type Into: Sink + Send + Drop;

    type Time: Clock + Send + Drop;

    type Past: Parting<Self::From, Self::Into, Self::Time>;

    ghost opens: { Self → DoorView };

    /// Opens the door at an address.
    fn bind(&mut self, addr: &str) -> Result<(), Failed>
        ensures { BindSays addr.now result (opens self.old) (opens self.new) };

    /// Takes the next connection.
    fn accept(&mut self) -> Arrival<Self::From, Self::Into, Self::Time>
        ensures { AcceptSays (λ s k c. outside (Self.From.gives s) (Self.Into.takes k)
            (Self.Time.times c)) result (opens self.old) (opens self.new) };

    /// Keeps what is left of a connection that came, under this number. It takes no memory.
    fn leave(&mut self, number: u32, past: Self::Past)
        requires { 0 < (opens self.old).owed }
        ensures { LeaveSays number (Self.Past.tells past) (opens self.old) (opens self.new) };
}

/// The three parts of a connection that has ended.
#[derive(Drop)]
pub struct Parts<F, I, T> {
    pub from: F,
    pub into: I,
    pub time: T,
}

impl<F: Source + Drop, I: Sink + Drop, T: Clock + Drop> Parting<F, I, T> for Parts<F, I, T> {
    ghost use Rattle.engine_ports.specs.Door.{Outside, outside};

    ghost tells = { λ p. outside (F.gives p.from) (I.takes p.into) (T.times p.time) };

    fn part(from: F, into: I, time: T) -> Self {
        Parts { from, into, time }
    }
}

/// A door through which nobody comes.
#[derive(Drop)]
pub struct NoDoor {
    bound: Bound,
    faults: u64,
}

impl NoDoor {
    ghost use Rattle.std.specs.Prelude.{◌≡◌, [], Some, None};
    ghost use Rattle.engine_ports.specs.Rose.{greatest_count};

    /// A door that isn't bound yet.
    pub fn new(alloc: Global) -> NoDoor
        ensures { ⟦<NoDoor as Door>⟧.opens result ≡ record {
          coming = Some [];
          past = None;
          owed = greatest_count;
          faults = 0;
          bound = None;
        } }
    {
        NoDoor {
            bound: Bound::new(alloc),
            faults: 0,
        }
    }
}

impl Door for NoDoor {
    ghost use Rattle.std.specs.Prelude.{[], Some, None};
    ghost use Rattle.engine_ports.specs.Rose.{greatest_count};

    type From = MemSource;

    type Into = MemSink;

    type Time = StepClock;

    type Past = Parts<MemSource, MemSink, StepClock>;

    ghost opens = { λ d. record {
      coming = Some [];
      past = None;
      owed = greatest_count;
      faults = d.faults;
      bound = d.bound;
    } };

    // It fails for want of memory alone.
    fn bind(&mut self, addr: &str) -> Result<(), Failed> {
        match self.bound.keep(addr) {
            Ok(()) => Ok(()),
            Err(_) => {
                self.faults = self.faults.saturating_add(1);
                Err(Failed)
            }
        }
    }

    fn accept(&mut self) -> Arrival<MemSource, MemSink, StepClock> {
        Arrival::Shut
    }

    fn leave(&mut self, _: u32, _: Parts<MemSource, MemSink, StepClock>) {}
}
