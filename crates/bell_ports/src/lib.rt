//! A door whose connections end each other's pauses: who has served something rings, and who waits looks again.
#![tactic(auto)]

mod bell;
mod clock;
mod door;
mod source;

pub use bell::Bell;
pub use clock::BellClock;
pub use door::{BellDoor, BellPast};
pub use source::BellSource;
