// The source and the sink of a connection, and what is left of it.
ghost use Rattle.std.specs.Prelude.{◌≡◌};
ghost use Rattle.engine_ports.specs.Sink.{untold_sink};
ghost use Rattle.engine_ports.specs.Source.{untold_source};
ghost use Rattle.lab_ports.specs.Ports.{stop_source_over, stop_sink_over};

use crate::clock::StopClock;
use crate::half::Half;
use engine_ports::{Failed, Got, Parting, Sink, Source};
use std::io::Read;
use std::time;

/// Where a connection's bytes come from. Once the signal was given, it has come to its end. It tells no bytes.
#[derive(Drop)]
pub struct StopSource<'a> {
    half: Half<'a>,
    faults: u64,
    ends: u64,
}

impl<'a> StopSource<'a> {
    pub(crate) fn new(half: Half<'a>) -> StopSource<'a>
        ensures { stop_source_over result ≡ untold_source }
    {
        StopSource {
            half,
            faults: 0,
            ends: 0,
        }
    }
}

impl Source for StopSource<'_> {
    ghost gives = { stop_source_over };

    fn read(&mut self, into: &mut [u8]) -> Got {
        match self.half.read(into) {
            Ok(0) => {
                self.ends = self.ends.saturating_add(1);
                Got::End
            }
            Ok(count) => Got::Bytes(count),
            Err(_) => {
                self.faults = self.faults.saturating_add(1);
                Got::Failed
            }
        }
    }
}

/// Where a connection's bytes go. It tells no bytes.
#[derive(Drop)]
pub struct StopSink<'a> {
    half: Half<'a>,
    faults: u64,
}

impl<'a> StopSink<'a> {
    pub(crate) fn new(half: Half<'a>) -> StopSink<'a>
        ensures { stop_sink_over result ≡ untold_sink }
    {
        StopSink { half, faults: 0 }
    }
}

impl Sink for StopSink<'_> {
    ghost takes = { stop_sink_over };

    fn write(&mut self, piece: &[u8]) -> Result<(), Failed> {
        if self.half.send(piece) {
            return Ok(());
        }
        self.faults = self.faults.saturating_add(1);
        Err(Failed)
    }

    fn probe(&mut self) -> Result<(), Failed> {
        if self.half.is_gone() {
            self.faults = self.faults.saturating_add(1);
            return Err(Failed);
        }
        Ok(())
    }

    /// Shuts the writing half down, so that the peer meets its end.
    fn finish(&mut self) -> Result<(), Failed> {
        if self.half.shut().is_ok() {
            return Ok(());
        }
        self.faults = self.faults.saturating_add(1);
        Err(Failed)
    }
}

/// What is left of a connection, which is closed: its counts.
#[derive(Drop)]
pub struct StopPast {
    read_faults: u64,
    ends: u64,
    write_faults: u64,
    stops: u64,
}

impl<'a, R: time::Clock + Copy + Send> Parting<StopSource<'a>, StopSink<'a>, StopClock<'a, R>>
    for StopPast {
    ghost use Rattle.lab_ports.specs.Ports.{stop_counts_of};

    ghost tells = { stop_counts_of };

    fn part(from: StopSource<'a>, into: StopSink<'a>, time: StopClock<'a, R>) -> Self {
        if from.ends == 0 && from.faults == 0 {
            from.half.drain(time.runtime());
        }
        StopPast {
            read_faults: from.faults,
            ends: from.ends,
            write_faults: into.faults,
            stops: time.stops(),
        }
    }
}
