// What runs a future on the calling thread, beside the sockets that it waits for.
ghost use Rattle.std.specs.Prelude.{◌≡◌, IfOk};

use super::spaced::Spaced;
use crate::Runner;
use engine_ports::Failed;
use futures::Future;
use std::alloc::AllocGlobal;
use std::io;
use std::net::Net;
use std::random::RandomSource;
use std::sync::Wait;
use std::time::Clock;
use tokio::reactor::Handle;
use tokio::runtime::LocalRuntime;

/// A runner on the calling thread. It looks for sockets that are ready behind each poll, also of a future that asks
/// to be polled again at once.
#[derive(Drop)]
pub struct LocalRunner<R> {
    rt: R,
    runtime: LocalRuntime,
    faults: u64,
}

impl<R: Clock + Net + RandomSource + AllocGlobal + Drop> LocalRunner<R> {
    /// A runner, or the system's reason why there is none.
    pub fn new(rt: R) -> io::Result<LocalRunner<R>>
        ensures { IfOk result (λ r. r.faults ≡ 0) }
    {
        let runtime = LocalRuntime::new(&rt)?;
        Ok(LocalRunner {
            rt,
            runtime,
            faults: 0,
        })
    }

    /// Where its sockets are watched.
    pub fn reactor(&self) -> io::Result<Handle> {
        Ok(self.runtime.handle().reactor().clone()?)
    }
}

impl<R: Wait + Clock + RandomSource + AllocGlobal + Drop> Runner for LocalRunner<R> {
    ghost faults = { λ r. r.faults };

    fn run<F: Future>(&mut self, future: F) -> Result<F::Output, Failed> {
        match self.runtime.block_on(&self.rt, Spaced::new(future)) {
            Ok(output) => Ok(output),
            Err(_) => {
                self.faults = self.faults.saturating_add(1);
                Err(Failed)
            }
        }
    }
}
