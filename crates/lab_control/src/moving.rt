// A move of the clock, as control was asked for it.
ghost use Rattle.std.specs.Prelude.{◌≡◌};
ghost use Rattle.lab_control.specs.Telling.{told_of, MovedSo};

use crate::asking::Move;
use crate::telling::Told;
use manual_clock::{MoveFault, SharedTime};
use std::sync::Wait;

/// What the answer of a move tells.
fn told_of(answer: Result<u64, MoveFault>) -> Told
    ensures { result ≡ told_of answer }
{
    match answer {
        Ok(moment) => Told::Moment(moment),
        Err(fault) => Told::Refused(fault),
    }
}

/// Moves the clock, and wakes those who wait.
pub fn moved<R: Wait>(rt: &R, time: &SharedTime, step: Move) -> Told
    ensures { MovedSo step result }
{
    match step {
        Move::To(to) => told_of(time.move_to(rt, to)),
        Move::By(ms) => told_of(time.move_by(rt, ms)),
    }
}
