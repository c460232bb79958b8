//! The command line of `enginelab`, and the line that tells where it listens.
#![tactic(auto)]

mod command;
mod line;
mod read;
mod starting;
mod telling;
mod values;

pub use line::{Asked, Lab, LabClock, Wrong};
pub use read::read_line;
pub use starting::starting_line;
pub use telling::{help, reason, version};
