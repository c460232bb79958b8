// A session of a daemon, over ports in memory.
ghost use Rattle.std.specs.Prelude.{◌<◌, IsTrue};
ghost use Rattle.session_model.specs.Pass.{IsNumber, IsConnection};

use daemon_core::{Alone, Daemon, Pairs};
use engine_ports::{MemSink, MemSource, NoMemory, StepClock};
use engine_serve::serve;
use session_model::Ending;
use std::alloc::Global;
use std::sync::Wait;
use std::thread::Threads;

/// The moment of the opening, in milliseconds since 1970.
const MOMENT: u64 = 1_700_000_000_000;

/// The most entries of the journal.
const ENTRIES: u64 = 4096;

/// The most bytes that a read gives where nothing else is said.
pub const CUT: usize = 4096;

/// Which calls of a session's outside fail, by their numbers from 0.
#[derive(Clone, Copy)]
pub struct Faults<'f> {
    pub reads: &'f [u64],
    pub writes: &'f [u64],
    /// The first pause that is answered by a stop.
    pub stop_at: Option<u64>,
}

/// None fails.
pub const NO_FAULTS: Faults<'static> = Faults {
    reads: &[],
    writes: &[],
    stop_at: None,
};

/// What came of a session.
#[derive(Drop)]
pub struct Answered {
    pub ending: Ending,
    pub sink: MemSink,
}

/// The turns of a new daemon, whose seed is zeros.
pub fn new_turns(alloc: Global) -> Result<Alone, NoMemory> {
    match Daemon::new(alloc, [0; 32], MOMENT, ENTRIES) {
        Ok(daemon) => Ok(Alone::new(daemon)),
        Err(_) => Err(NoMemory),
    }
}

/// Serves a connection whose bytes are these, at most `cut` at a read, by a clock that stands still but for its pauses.
pub fn served<R: Threads + Wait + Sync + AllocGlobal, T: Pairs>(
    rt: &R,
    turns: &mut T,
    conn: u32,
    bytes: &[u8],
    cut: usize,
    faults: &Faults<'_>,
) -> Result<Answered, NoMemory>
    requires cut { 0 < cut }
    requires connection { IsConnection conn }
    requires number { IsNumber (T.pass turns.old).number conn }
    requires pair { IsTrue (T.pass turns.old).pair }
{
    let mut source = MemSource::new(rt.alloc(), bytes, cut, faults.reads)?;
    let mut sink = MemSink::new(rt.alloc(), faults.writes)?;
    let mut clock = StepClock::new(MOMENT, 0, faults.stop_at);
    let ending = serve(
        rt,
        turns,
        rt.alloc(),
        conn,
        &mut source,
        &mut sink,
        &mut clock,
    );
    Ok(Answered { ending, sink })
}
