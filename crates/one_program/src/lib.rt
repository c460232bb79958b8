//! The top call of the program `engineone`: one daemon behind a door, in one thread.
#![tactic(auto)]

mod laws;
mod listening;
mod program;
mod reading;
mod rebooting;
mod refusing;

pub use laws::{law_of_faults, law_of_stops};
pub use program::run_engine_one;
