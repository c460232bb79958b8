//! The one-thread daemon: all connections of a door, served by polls of their sessions.
#![tactic(auto)]

mod accepting;
mod coming;
mod connection;
mod looping;
mod polling;
mod serving;
mod ticking;
mod watched;

pub use looping::{Finished, Loop, run_loop};
pub use ticking::{LentClock, Ticking};
