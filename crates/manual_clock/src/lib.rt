//! A clock that its owner moves, which the sessions of a daemon share.
#![tactic(auto)]

mod clocked;
mod moving;
mod sharing;

pub use clocked::{ConnectionClock, ManualDoor, ManualPast};
pub use moving::{GREATEST_MOMENT, LONGEST_MOVE, ManualTime, MoveFault, Pace};
pub use sharing::{ManualClock, SharedTime};
