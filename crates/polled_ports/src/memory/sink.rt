// A sink in memory that isn't ready at the polls that it is told.
ghost use Rattle.std.specs.Prelude.{◌≡◌, ◌<◌, IfOk};

use super::late::Late;
use crate::PollSink;
use engine_ports::{Failed, MemSink, NoMemory, Sink};
use futures::task::{Context, Poll};
use std::alloc::Global;
use std::marker::Model;

/// A sink that keeps what it takes, some of whose polls aren't ready.
#[derive(Drop)]
pub struct MemPollSink {
    inner: MemSink,
    most: usize,
    late: Late,
    took: u64,
}

impl Model for MemPollSink {
    ghost use Rattle.std.specs.Prelude.{◌<◌};
    ghost use Rattle.polled_ports.specs.Memory.{LateStore};

    ghost Value = { LateStore };

    ghost view = { λ s. record { store = s.inner; most = s.most; polls = s.late; took = s.took } };

    ghost invariant = { λ s. 0 < s.most };
}

impl MemPollSink {
    /// A sink that takes at most `most` (at least 1) bytes a poll. Its polls numbered in `late` (from 0)
    /// aren't ready, and wake the task at once; the others write to the sink in memory.
    pub fn new(
        alloc: Global,
        inner: MemSink,
        most: usize,
        late: &[u64],
    ) -> Result<MemPollSink, NoMemory>
        requires { 0 < most }
        ensures { IfOk result (λ s. s ≡ record {
          store = inner;
          most = most;
          polls = record { late = late.now; polls = 0; registered = 0 };
          took = 0;
        }) }
    {
        Ok(MemPollSink {
            inner,
            most,
            late: Late::new(alloc, late)?,
            took: 0,
        })
    }

    /// All bytes taken.
    pub fn bytes(&self) -> &[u8]
        ensures { result.now ≡ self.now.store.wrote }
    {
        self.inner.bytes()
    }
}

impl PollSink for MemPollSink {
    ghost use Rattle.std.specs.Prelude.{◌≡◌, ◌<◌, Ok, length};
    ghost use Rattle.futures.specs.Task.{IsArmed, Keeps};
    ghost use Rattle.futures.specs.Poll.{OnPending};
    ghost use Rattle.polled_ports.specs.PollSink.{PollWriteSays, PollProbeSays, PollFinishSays};
    ghost use Rattle.polled_ports.specs.Memory.{IsPollWrite, IsLateProbe, sink_of};

    ghost takes = { sink_of };

    fn poll_write(&mut self, cx: &mut Context<'_>, piece: &[u8]) -> Poll<Result<usize, Failed>>
        requires { 0 < length piece.now }
        ensures says { PollWriteSays result piece.now (sink_of self.old) (sink_of self.new) }
        ensures exact { IsPollWrite self.old piece.now result self.new }
        ensures armed { OnPending result (IsArmed cx.new) }
        ensures kept { Keeps cx.old cx.new }
    {
        if self.late.meets() {
            return cx.yield_now();
        }
        let count = piece.len().min(self.most);
        match self.inner.write(&piece[..count]) {
            Ok(()) => {
                self.took = self.took.saturating_add(1);
                Poll::Ready(Ok(count))
            }
            Err(Failed) => Poll::Ready(Err(Failed)),
        }
    }

    fn probe(&mut self) -> Result<(), Failed>
        ensures says { PollProbeSays result (sink_of self.old) (sink_of self.new) }
        ensures exact { IsLateProbe self.old result self.new }
    {
        self.inner.probe()
    }

    fn finish(&mut self) -> Result<(), Failed>
        ensures ok { result ≡ Ok tt }
        ensures same { self.new ≡ self.old }
    {
        self.inner.finish()
    }
}
