// A connection's sink, which its front and its session share.
ghost use Rattle.std.specs.Prelude.{◌≡◌, IfOk};
ghost use Rattle.engine_ports.specs.Sink.{untold_sink};
ghost use Rattle.front_session.specs.Sharing.{sink_over};
ghost use Rattle.front_session.specs.Showing.{kept_back};

use crate::resting::rest_behind;
use engine_ports::{Failed, NoMemory, Sink};
use lab_handed::exact_by;
use lab_shown::{Asked, OneSink, Taking, Text, head_alone, write_shown};
use std::alloc::Global;
use std::sync::{Arc, Mutex, Wait};
use std::{mem, time};

/// A sink that can be told what is written next.
pub trait Showing: Sink {
    /// The next piece answers a request that asks so and begins with these bytes, and is shown by that.
    fn expect(&self, asked: Asked, bytes: &[u8]);
}

/// The place of a sink; by what the next piece is shown, if it isn't written as it is; and what stands in the item
/// that a list keeps.
#[derive(Drop)]
struct Held<K> {
    sink: Option<K>,
    shows: Option<Asked>,
    text: Text,
}

/// A sink behind a lock, as one of those who share it sees it: it tells no bytes, and counts the faults of its own
/// calls.
#[derive(Drop)]
pub struct SharedSink<'a, R, K> {
    rt: &'a R,
    sink: Arc<Mutex<Held<K>>, Global>,
    pub(crate) faults: u64,
}

impl<'a, R: Wait, K: Drop> SharedSink<'a, R, K> {
    /// Two that share the place of a sink.
    pub fn pair(
        rt: &'a R,
        alloc: Global,
    ) -> Result<(SharedSink<'a, R, K>, SharedSink<'a, R, K>), NoMemory>
        ensures { IfOk result (λ r. (sink_over r.0 ≡ untold_sink)
            × (sink_over r.1 ≡ untold_sink)) }
    {
        let held = Held {
            sink: None,
            shows: None,
            text: Text::new(alloc)?,
        };
        let sink = Arc::new(alloc, Mutex::new(held))?;
        let again = Arc::try_clone(&sink)?;
        Ok((
            SharedSink {
                rt,
                sink,
                faults: 0,
            },
            SharedSink {
                rt,
                sink: again,
                faults: 0,
            },
        ))
    }

    /// Puts a sink into the place. It takes no memory.
    pub fn put(&self, sink: K) {
        let mut held = self.sink.lock(self.rt);
        held.sink = Some(sink);
    }

    /// Takes the sink out of it.
    pub fn take(&self) -> Option<K> {
        self.sink.lock(self.rt).sink.take()
    }
}

/// Whether the connection closes behind a list whose head a piece is, which is kept back until the list comes.
fn kept_back(shows: Option<Asked>, piece: &[u8]) -> Option<bool>
    ensures { result ≡ kept_back shows piece.now }
{
    match shows {
        Some(Asked::Listed) => head_alone(piece),
        _ => None,
    }
}

/// Keeps what stands in the item of a name.
fn put_name(text: &mut Text, name: &[u8]) {
    if name.len() <= 200 {
        text.put(name);
    }
}

impl<R: Wait + time::Clock + Sync, K: Sink + Drop> Sink for SharedSink<'_, R, K> {
    ghost use Rattle.front_session.specs.Sharing.{sink_over};

    ghost takes = { sink_over };

    // It may wait, and rests behind the head of a takeover.
    fn write(&mut self, piece: &[u8]) -> Result<(), Failed> {
        let mut held = self.sink.lock(self.rt);
        let shows = mem::replace(&mut held.shows, None);
        if let Some(close) = kept_back(shows, piece) {
            held.shows = Some(Asked::Behind(close));
            return Ok(());
        }
        let written = match held.sink.take() {
            Some(sink) => {
                let mut one = OneSink { sink };
                let written = match shows {
                    Some(asked) => write_shown(&mut one, asked, held.text.as_slice(), piece),
                    None => one.take(piece),
                };
                let OneSink { sink } = one;
                held.sink = Some(sink);
                written
            }
            None => Err(Failed),
        };
        drop(held);
        if written.is_err() {
            self.faults = self.faults.saturating_add(1);
        }
        rest_behind(self.rt, piece);
        written
    }

    fn probe(&mut self) -> Result<(), Failed> {
        let there = match &mut self.sink.lock(self.rt).sink {
            Some(sink) => sink.probe(),
            None => Err(Failed),
        };
        if there.is_err() {
            self.faults = self.faults.saturating_add(1);
        }
        there
    }

    fn finish(&mut self) -> Result<(), Failed> {
        let finished = match &mut self.sink.lock(self.rt).sink {
            Some(sink) => sink.finish(),
            None => Err(Failed),
        };
        if finished.is_err() {
            self.faults = self.faults.saturating_add(1);
        }
        finished
    }
}

impl<R: Wait + time::Clock + Sync, K: Sink + Drop> Showing for SharedSink<'_, R, K> {
    // It may wait.
    fn expect(&self, asked: Asked, bytes: &[u8]) {
        let mut held = self.sink.lock(self.rt);
        if let Some(name) = exact_by(bytes) {
            put_name(&mut held.text, name);
        }
        held.shows = Some(asked);
    }
}
