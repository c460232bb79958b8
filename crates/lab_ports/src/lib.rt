//! Ports that one signal stops: a door, its connections, their clock, and standard input.
#![tactic(auto)]

mod clock;
mod door;
mod half;
mod input;
mod linking;
mod listening;
mod parts;
mod signal;

pub use clock::StopClock;
pub use door::StopDoor;
pub use input::StopInput;
pub use linking::{Linking, TcpLinks};
pub use listening::Listening;
pub use parts::{StopPast, StopSink, StopSource};
pub use signal::StopSignal;
