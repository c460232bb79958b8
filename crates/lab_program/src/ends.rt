// The end of the program.
use lab_ports::StopSignal;
use manual_clock::SharedTime;
use std::sync::Wait;

/// Stops the clock, where it isn't the system's, and then the doors, their connections and standard input.
pub(crate) fn end<R: Wait>(rt: &R, time: Option<&SharedTime>, signal: &StopSignal) {
    if let Some(time) = time {
        time.stop(rt);
    }
    signal.give();
}
