// A source in memory that isn't ready at the polls that it is told.
ghost use Rattle.std.specs.Prelude.{◌≡◌, IfOk};

use super::late::Late;
use crate::PollSource;
use engine_ports::{Got, MemSource, NoMemory, Source};
use futures::task::{Context, Poll};
use std::alloc::Global;
use std::marker::Model;

/// A source of given bytes, some of whose polls aren't ready.
#[derive(Drop)]
pub struct MemPollSource {
    inner: MemSource,
    late: Late,
    gave: u64,
}

impl Model for MemPollSource {
    ghost use Rattle.polled_ports.specs.Memory.{LateSupply};

    ghost Value = { LateSupply };

    ghost view = { λ s. record { supply = s.inner; polls = s.late; gave = s.gave } };
}

impl MemPollSource {
    /// A source whose polls numbered in `late` (from 0) aren't ready, and wake the task at once. The others
    /// read of the source in memory.
    pub fn new(alloc: Global, inner: MemSource, late: &[u64]) -> Result<MemPollSource, NoMemory>
        ensures { IfOk result (λ s. s ≡ record {
          supply = inner;
          polls = record { late = late.now; polls = 0; registered = 0 };
          gave = 0;
        }) }
    {
        Ok(MemPollSource {
            inner,
            late: Late::new(alloc, late)?,
            gave: 0,
        })
    }
}

impl PollSource for MemPollSource {
    ghost use Rattle.std.specs.Prelude.{◌<◌, length};
    ghost use Rattle.futures.specs.Task.{IsArmed, Keeps};
    ghost use Rattle.futures.specs.Poll.{OnPending};
    ghost use Rattle.polled_ports.specs.PollSource.{PollReadSays};
    ghost use Rattle.polled_ports.specs.Memory.{IsPollRead, source_of};

    ghost gives = { source_of };

    fn poll_read(&mut self, cx: &mut Context<'_>, into: &mut [u8]) -> Poll<Got>
        requires { 0 < length into.old }
        ensures says { PollReadSays result into.new (source_of self.old) (source_of self.new) }
        ensures exact { IsPollRead self.old into.new result self.new }
        ensures armed { OnPending result (IsArmed cx.new) }
        ensures kept { Keeps cx.old cx.new }
    {
        if self.late.meets() {
            return cx.yield_now();
        }
        let got = self.inner.read(into);
        if let Got::Bytes(_) = got {
            self.gave = self.gave.saturating_add(1);
        }
        Poll::Ready(got)
    }
}
