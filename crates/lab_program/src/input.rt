// Standard input.
use crate::ends::end;
use engine_ports::{Got, Source};
use lab_ports::StopSignal;
use manual_clock::SharedTime;
use std::sync::Wait;

/// Reads a source up to where it ends or fails, and stops all then.
pub(crate) fn await_end<R: Wait, S: Source + Drop>(
    rt: &R,
    time: Option<&SharedTime>,
    signal: &StopSignal,
    source: S,
) {
    let mut source = source;
    let mut place = [0; 512];
    for _ in 0..u64::MAX {
        match source.read(&mut place) {
            Got::Bytes(_) => {}
            Got::End | Got::Failed => break,
        }
    }
    end(rt, time, signal);
}
