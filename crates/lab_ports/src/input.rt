// Standard input, whose reads wait for the signal too.
ghost use Rattle.std.specs.Prelude.{◌≡◌};
ghost use Rattle.engine_ports.specs.Source.{untold_source};
ghost use Rattle.lab_ports.specs.Ports.{stop_input_over};

use crate::signal::StopSignal;
use engine_ports::{Got, Source};
use std::io::Read;

/// The descriptor of standard input.
const STANDARD_INPUT: i32 = 0;

/// A source over standard input. Once the signal was given, it has come to its end. It tells no bytes.
#[derive(Drop)]
pub struct StopInput<'a, R> {
    reader: R,
    signal: &'a StopSignal,
    faults: u64,
    ends: u64,
}

impl<'a, R> StopInput<'a, R> {
    /// A source that has read nothing, by a reader of standard input that keeps no bytes ahead.
    pub fn new(reader: R, signal: &'a StopSignal) -> StopInput<'a, R>
        ensures { stop_input_over result ≡ untold_source }
    {
        StopInput {
            reader,
            signal,
            faults: 0,
            ends: 0,
        }
    }
}

impl<R: Read + Send> Source for StopInput<'_, R> {
    ghost gives = { stop_input_over };

    fn read(&mut self, into: &mut [u8]) -> Got {
        if !self.signal.lets_read(STANDARD_INPUT) {
            self.ends = self.ends.saturating_add(1);
            return Got::End;
        }
        match self.reader.read(into) {
            Ok(0) => {
                self.ends = self.ends.saturating_add(1);
                Got::End
            }
            Ok(count) => Got::Bytes(count),
            Err(_) => {
                self.faults = self.faults.saturating_add(1);
                Got::Failed
            }
        }
    }
}
